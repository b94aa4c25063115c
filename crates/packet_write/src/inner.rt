// What the crates above use of writing.
pub use crate::writing::{write_parts, write_survey_parts};
