// The words of an input, and buffers that are filled.
ghost use Rattle.std.specs.Prelude.{◌≤◌, IfOk, length};

use std::io;
use std::io::{ErrorKind, Read};

// The word of four bytes, the first of them highest.
pub fn big_endian(a: u8, b: u8, c: u8, d: u8) -> u32 {
    u32::from_be_bytes([a, b, c, d])
}

// Reads into a buffer until it is full or the input ends; how many bytes were read. A read that a signal interrupts is tried again.
pub fn read_full(input: &mut impl Read, buffer: &mut [u8]) -> io::Result<usize>
    ensures { IfOk result (λ n. n ≤ length buffer.new) }
{
    let mut done = 0;
    for _ in 0..u64::MAX {
        if done == buffer.len() {
            break;
        }
        match input.read(&mut buffer[done..]) {
            Ok(0) => break,
            Ok(n) => done += n,
            Err(e) => {
                if e.kind() != ErrorKind::Interrupted {
                    return Err(e);
                }
            }
        }
    }
    Ok(done)
}

// The next word of the input; none where fewer than four bytes are left.
pub fn next_word(input: &mut impl Read) -> io::Result<Option<u32>> {
    let mut bytes = [0u8; 4];
    let n = read_full(input, &mut bytes)?;
    if n < 4 {
        return Ok(None);
    }
    Ok(Some(u32::from_be_bytes(bytes)))
}

// The next word of the input; 0 past its end.
pub fn word(input: &mut impl Read) -> io::Result<u32> {
    Ok(next_word(input)?.unwrap_or(0))
}

// Fills a buffer with the next words of the input; whether all were there.
pub fn fill(input: &mut impl Read, words: &mut [u32]) -> io::Result<bool> {
    for place in words {
        let Some(w) = next_word(input)? else {
            return Ok(false);
        };
        *place = w;
    }
    Ok(true)
}

// Fills a buffer with a pattern, so that words which stay can be told.
pub fn pattern(buffer: &mut [u32]) {
    buffer.fill(0xA5A5_A5A5);
}
