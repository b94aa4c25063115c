// What the programs share: big-endian words from an input, and lines of names and numbers to an output, those of a packet among them.
// The input is any reader and the output any writer, and an error of theirs is handed on. No clause says which bytes are read or written: these functions
// promise only that they are safe and end.
#![tactic(auto)]

pub mod inner;
mod input;
mod line;
mod output;
mod packets;
mod sums;
