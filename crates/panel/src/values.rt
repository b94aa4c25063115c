// Numbers out of held words: signed numbers, whole hertz, and exact quotients as f32.
ghost use Rattle.std.specs.Prelude.{◌≡◌, ◌≤◌, ◌<◌, ◌^◌};
ghost use Rattle.std.specs.Float.{binary32};
ghost use Rattle.std.specs.Float.Ieee.{of_int, div};
ghost use Rattle.words.specs.Signed.{twos_complement};
ghost use Rattle.panel.specs.Values.{units_of, floor_div, over};

// The two's complement value of some bits, as `payload_format` gives it; it refuses none that fit a width of 1 to 64.
fn value_of(width: u32, bits: u64) -> i64
    requires { (1 ≤ width) × (width ≤ 64) × (bits < 2 ^ width) }
    ensures { result ≡ twos_complement width bits }
{
    payload_format::signed(width, bits).unwrap()
}

// A half of a word, signed, over `by`, rounded by the float's own rule.
fn divided(half: u32, by: f32) -> f32
    requires { half < 65536 }
    ensures { result ≡ div binary32 (of_int binary32 (twos_complement 16 half)) by }
{
    let z = value_of(16, half as u64);
    (z as f32) / by
}

// A half of a word as a level or a gain: signed, over 128.
pub fn decibels(half: u32) -> f32
    requires { half < 65536 }
    ensures { result ≡ over 7 (twos_complement 16 half) }
{
    divided(half, 128.0)
}

// A half of a word as a temperature: signed, over 64.
pub fn degrees(half: u32) -> f32
    requires { half < 65536 }
    ensures { result ≡ over 6 (twos_complement 16 half) }
{
    divided(half, 64.0)
}

// The two words of a frequency, high first, as units of 2^-20 hertz.
pub fn units(high: u32, low: u32) -> i64
    ensures { result ≡ units_of high low }
{
    value_of(64, words::inner::high_first(high, low))
}

// Whole hertz of units of 2^-20 hertz, rounded down.
pub fn whole_hertz(z: i64) -> i64
    ensures { result ≡ floor_div z 1048576 }
{
    z.div_euclid(0x10_0000)
}
