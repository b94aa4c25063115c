// Bits of words, read by their place.
//
// Lay the words end to end, each with its high bit at the left, and number all bits from 0. Bit b lies in word b / 32, at offset b % 32. Where all 32
// bits of a word carry fields, field k of f bits begins at bit k * f. With f = 12:
//
//     word    0                               1                               2
//             |-------------------------------|-------------------------------|----------
//     field   0           1           2           3           4           5
//             |-----------|-----------|-----------|-----------|-----------|--------------
//     bit     0           12          24          36          48          60
//
// Field 2 begins at bit 24: in word 0, at offset 24, and its last 4 bits are the first of word 1. From any offset on, a word and the next hold 32 bits,
// enough for a field of up to 32 (`bits`), and three words hold 64 (`bits_wide`). The last fields are read otherwise, since no word stands behind them:
// a field of up to 32 bits that begins in the last word lies in it whole (`bits_last`), and a longer one may end in the second of its words
// (`bits_wide_last`).
ghost use Rattle.std.specs.Prelude.{◌≡◌, ◌+◌, ◌*◌, ◌/◌, ◌%◌, ◌-◌, ◌^◌, ◌<◌, ◌≤◌, length};
ghost use Rattle.bitstream.specs.Stream.{span};
ghost use Rattle.bitstream.specs.Carried.{stream_bits};

// A word without its first o bits, and behind it the first o bits of the next. Two shifts, since one by 32 is not allowed.
fn join(high: u32, low: u32, o: usize) -> u32
    requires { o < 32 }
    ensures { result ≡ high * 2 ^ o % 2 ^ 32 + low / 2 ^ (32 - o) }
{
    (high << o) + ((low >> 1) >> (31 - o))
}

// The same of two words and the next. The two stay apart: `join` is compiled to one instruction, which takes its bits from two words of 32 bits.
fn join_wide(high: u64, low: u32, o: usize) -> u64
    requires { o < 32 }
    ensures { result ≡ high * 2 ^ o % 2 ^ 64 + low / 2 ^ (32 - o) }
{
    (high << o) + (low as u64 >> (32 - o))
}

// The 32 bits from bit b on. The word's number is worked out in 32 bits, which compiles to fewer instructions.
pub fn bits(payload: &[u32], b: usize) -> u32
    requires { (b < 2 ^ 32) × (b + 32 < length payload.now * 32) }
    ensures { result ≡ span 32 (stream_bits 32 payload.now) b 32 }
{
    let i = (b as u32 / 32) as usize;
    join(payload[i], payload[i + 1], b % 32)
}

// How many fields of f bits begin before the last word.
pub fn fields_before_last(payload: &[u32], f: usize) -> usize
    requires { (0 < length payload.now) × (length payload.now < 2 ^ 26) × (0 < f) × (f ≤ 32) }
    ensures { result ≡ (32 * (length payload.now - 1) + (f - 1)) / f }
{
    let last_begins = 32 * (payload.len() - 1) as u32;
    ((last_begins + (f as u32 - 1)) / f as u32) as usize
}

// The 32 bits from bit b on, which lies in this word, the last; those past it are 0.
pub fn bits_last(word: u32, b: usize) -> u32
    ensures { result ≡ word * 2 ^ (b % 32) % 2 ^ 32 }
{
    word << (b % 32)
}

// The 64 bits from bit b on, of three words where `bits` takes two.
pub fn bits_wide(payload: &[u32], b: usize) -> u64
    requires { b + 64 < length payload.now * 32 }
    ensures { result ≡ span 32 (stream_bits 32 payload.now) b 64 }
{
    let i = b / 32;
    join_wide(
        words::inner::high_first(payload[i], payload[i + 1]),
        payload[i + 2],
        b % 32,
    )
}

// The same where the third word may be past the last: its bits are then 0.
pub fn bits_wide_last(payload: &[u32], b: usize) -> u64
    requires { b + 32 < length payload.now * 32 }
    ensures { result ≡ span 32 (stream_bits 32 payload.now) b 64 }
{
    let i = b / 32;
    let next = words::inner::word_at(payload, i + 2);
    join_wide(
        words::inner::high_first(payload[i], payload[i + 1]),
        next,
        b % 32,
    )
}
