// An accumulator of bits.
pub mod accumulator;
