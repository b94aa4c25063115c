// The payload format: what its two words say, the words that items take under it, and an item as a signed number.
#![tactic(auto)]

pub mod inner;
mod needed;
mod signs;

pub use needed::words_needed;
pub use signs::signed;
