// An f32 as an exact decimal, by its own sign, exponent and fraction fields.
ghost use Rattle.std.specs.Prelude.{◌≤◌, ◌<◌};

use std::io;
use std::io::Write;

// The 128ths of a float by its pattern without the sign, where it is a whole number of them. The fields stand for (2^23 + fraction) * 2^(exponent - 150), and
// zero has zero fields.
fn parts_of(pattern: u32) -> Option<u32> {
    if pattern == 0 {
        return Some(0);
    }
    let dropped = 143u32.checked_sub(pattern / 0x80_0000)?;
    let significand = 0x80_0000 + pattern % 0x80_0000;
    if 23 < dropped || significand.trailing_zeros() < dropped {
        return None;
    }
    Some(significand >> dropped)
}

// The digit of n that counts p.
fn digit(n: u32, p: u32) -> u8
    requires { 0 < p }
{
    (n / p % 10) as u8 + 48
}

// Writes a point and the first `places` digits of n parts of 10^7.
fn print_places(output: &mut impl Write, n: u32, places: usize) -> io::Result<()>
    requires { places ≤ 7 }
{
    let digits = [
        46u8,
        digit(n, 1_000_000),
        digit(n, 100_000),
        digit(n, 10_000),
        digit(n, 1_000),
        digit(n, 100),
        digit(n, 10),
        digit(n, 1),
    ];
    lines::inner::text(output, &digits[0..places + 1])
}

// Writes a sign and some 128ths.
fn print_parts(output: &mut impl Write, minus: bool, n: u32, places: usize) -> io::Result<()>
    requires { places ≤ 7 }
{
    if minus {
        lines::inner::text(output, b"-")?;
    }
    lines::inner::number(output, (n / 128) as u64)?;
    print_places(output, n % 128 * 78125, places)
}

// Writes a float with so many places; `inexact` where it is no whole number of 128ths. The minus sign is the float's own, also before a zero.
pub fn print(output: &mut impl Write, x: f32, places: usize) -> io::Result<()>
    requires { places ≤ 7 }
{
    if x.is_nan() {
        return lines::inner::text(output, b"nan");
    }
    let pattern = x.to_bits();
    match parts_of(pattern % 0x8000_0000) {
        Some(n) => print_parts(output, 0x8000_0000 <= pattern, n, places),
        None => lines::inner::text(output, b"inexact"),
    }
}
