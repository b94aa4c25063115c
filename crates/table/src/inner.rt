// What the crates above use of a table.
pub use crate::identifiers::list_good;
pub use crate::layout::{layout_words, record_at, record_in, streams};
pub use crate::numbered::check_stream;
