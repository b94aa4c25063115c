// A line that is gathered in a buffer and written at once. A buffer that is full is written, and the line goes on from its front.
ghost use Rattle.std.specs.Prelude.{◌≡◌, []};

use arrayvec::ArrayVec;
use std::io;
use std::io::Write;

// What is gathered, for the output.
#[derive(Drop)]
pub struct Line<'a, W> {
    output: &'a mut W,
    bytes: ArrayVec<u8, 128>,
}

impl<'a, W: Write> Line<'a, W> {
    // A line with nothing on it.
    pub fn new(output: &'a mut W) -> Line<'a, W>
        ensures { result.bytes.items ≡ [] }
    {
        Line {
            output,
            bytes: ArrayVec::new(),
        }
    }

    // Writes what is gathered.
    pub fn write(self) -> io::Result<()> {
        let output = self.output;
        let bytes = self.bytes;
        output.write_all(bytes.as_slice())
    }

    // The line with one byte more; a full buffer is written first.
    fn byte(self, b: u8) -> io::Result<Line<'a, W>> {
        let output = self.output;
        let mut bytes = self.bytes;
        if bytes.is_full() {
            output.write_all(bytes.as_slice())?;
            bytes.clear();
        }
        bytes.push(b);
        Ok(Line { output, bytes })
    }

    // The line with a text behind it.
    pub fn text(self, bytes: &[u8]) -> io::Result<Line<'a, W>> {
        let mut line = self;
        for b in bytes {
            line = line.byte(*b)?;
        }
        Ok(line)
    }

    // The line with a number behind it, in decimal.
    pub fn number(self, n: u64) -> io::Result<Line<'a, W>> {
        let mut digits = itoa::Buffer::new();
        self.text(digits.format(n).as_bytes())
    }

    // The line with a name and a number behind it, as ` size 5`.
    pub fn named(self, name: &[u8], n: u64) -> io::Result<Line<'a, W>> {
        self.text(b" ")?.text(name)?.text(b" ")?.number(n)
    }
}
