// Streams of bits: what packing and unpacking are said with, the laws of both, and the leaves of code that work on single bits.
#![tactic(auto)]

pub mod inner;
