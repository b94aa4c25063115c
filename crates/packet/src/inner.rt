// What the crates above use of a packet: its steps of reading, and what its header says.
pub use crate::checks::{check_body, check_prologue, check_sized, check_survey, fraction_over};
pub use crate::header::{
    body_at, count_of, has_class, has_fraction, has_seconds, has_stream, size_of, type_of,
};
pub use crate::places::{where_of, where_refused};
pub use crate::prologue::{body_end, identifier_of};
