// Numbers from standard input, as big-endian words of 32 bits.
ghost use Rattle.std.specs.Prelude.{◌≡◌, ◌≤◌, IfOk, length};

use std::io;
use std::io::Read;

// The next word as a number of at most 4,096.
pub fn count(input: &mut impl Read) -> io::Result<usize>
    ensures { IfOk result (λ n. n ≤ 4096) }
{
    let n = lines::inner::word(input)?;
    if n <= 4096 {
        return Ok(n as usize);
    }
    Ok(4096)
}

// n words, and zeros after them.
pub fn read_words(input: &mut impl Read, n: usize) -> io::Result<[u32; 4096]>
    requires { n ≤ 4096 }
    ensures { IfOk result (λ out. 4096 ≡ length out) }
{
    let mut out = [0u32; 4096];
    for place in &mut out[..n] {
        *place = lines::inner::word(input)?;
    }
    Ok(out)
}

// n items, each as two words, high first, and zeros after them.
pub fn read_items(input: &mut impl Read, n: usize) -> io::Result<[u64; 4096]>
    requires { n ≤ 4096 }
    ensures { IfOk result (λ out. 4096 ≡ length out) }
{
    let mut out = [0u64; 4096];
    for place in &mut out[..n] {
        let high = lines::inner::word(input)?;
        let low = lines::inner::word(input)?;
        *place = words::inner::high_first(high, low);
    }
    Ok(out)
}

// n event tags, each the last eight bits of a word, and zeros after them.
pub fn read_events(input: &mut impl Read, n: usize) -> io::Result<[u8; 4096]>
    requires { n ≤ 4096 }
    ensures { IfOk result (λ out. 4096 ≡ length out) }
{
    let mut out = [0u8; 4096];
    for place in &mut out[..n] {
        *place = (lines::inner::word(input)? % 0x100) as u8;
    }
    Ok(out)
}

// n channel tags, each the last sixteen bits of a word, and zeros after them.
pub fn read_channels(input: &mut impl Read, n: usize) -> io::Result<[u16; 4096]>
    requires { n ≤ 4096 }
    ensures { IfOk result (λ out. 4096 ≡ length out) }
{
    let mut out = [0u16; 4096];
    for place in &mut out[..n] {
        *place = (lines::inner::word(input)? % 0x1_0000) as u16;
    }
    Ok(out)
}
