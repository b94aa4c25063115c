// What the crates above use of play.
pub use crate::run::{ENTRY_WORDS, run_on};
pub use crate::step::{Happened, step};
