// Unpacking: items and their tags from the words of a payload, under a payload format.
#![tactic(auto)]

mod plain;
mod tagged;
mod unpacking;
mod window;

pub use unpacking::unpack;
