// What the crates above use: reads and copies of words, places as numbers, tests, and powers of two.
mod copies;
mod places;
mod powers;
mod reads;
mod tests;

pub use copies::{copy_eleven, copy_one, copy_part, copy_two};
pub use places::{place_bit, place_word};
pub use powers::{low, ones, power};
pub use reads::{high_first, word_at, word_inside};
pub use tests::{both_of, when_so};
