// What the programs use.
pub use crate::input::{big_endian, fill, next_word, pattern, read_full, word};
pub use crate::line::Line;
pub use crate::output::{list, named, named_flag, number, signed, text};
pub use crate::packets::{show_packet, show_refusal, show_survey};
pub use crate::sums::{fold_of, folded, sum_of};
