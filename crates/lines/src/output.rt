// Names and numbers to an output.
use crate::line::Line;
use std::io;
use std::io::Write;

// Writes a text.
pub fn text(output: &mut impl Write, bytes: &[u8]) -> io::Result<()> {
    output.write_all(bytes)
}

// Writes a number in decimal.
pub fn number(output: &mut impl Write, n: u64) -> io::Result<()> {
    Line::new(output).number(n)?.write()
}

// Writes a signed number in decimal.
pub fn signed(output: &mut impl Write, v: i64) -> io::Result<()> {
    let mut digits = itoa::Buffer::new();
    text(output, digits.format(v).as_bytes())
}

// Writes a name and a number, as ` size 5`.
pub fn named(output: &mut impl Write, name: &[u8], n: u64) -> io::Result<()> {
    Line::new(output).named(name, n)?.write()
}

// Writes a name and 1 or 0.
pub fn named_flag(output: &mut impl Write, name: &[u8], flag: bool) -> io::Result<()> {
    named(output, name, u64::from(flag))
}

// Writes words in decimal, each after a space.
pub fn list(output: &mut impl Write, words: &[u32]) -> io::Result<()> {
    let mut line = Line::new(output);
    for w in words {
        line = line.text(b" ")?.number(u64::from(*w))?;
    }
    line.write()
}
