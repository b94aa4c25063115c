// The refusals, total reads, and the pieces of code that every crate above uses. The laws that the crates above cite are in proofs/.
#![tactic(auto)]

pub mod inner;
mod refusals;

pub use refusals::{Refusal, Unlisted};

// Where the word stands that a packet is refused for, in words from the packet's start: nowhere, at a word, or at the first word of a field, with the field's
// bit.
#[derive(Clone, Copy)]
pub enum Where {
    Nowhere,
    Word(usize),
    Field(usize, u32),
}

// What a reading that is refused says: why, and where.
#[derive(Clone, Copy)]
pub struct RefusedAt {
    pub refusal: Refusal,
    pub place: Where,
}
