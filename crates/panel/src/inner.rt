// What the crates above use of readings.
pub use crate::records::show_at;
