// One number for many words.

// The sum of the words, modulo 2^32.
pub fn sum_of(words: &[u32]) -> u32 {
    words.iter().fold(0, |sum: u32, w| sum.wrapping_add(*w))
}

// A check number after one more word.
pub fn folded(y: u32, w: u64) -> u32 {
    let low = u64::from(y) % 0x1_0000 * 65497;
    let high = u64::from(y) / 0x1_0000;
    ((low + high + w % 0x1_0000_0000) % 0x1_0000_0000) as u32
}

// The check number of words.
pub fn fold_of(words: &[u32]) -> u32 {
    words.iter().fold(0, |y, w| folded(y, u64::from(*w)))
}
