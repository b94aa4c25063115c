// What the crates above use of a record.
mod after;
mod copies;
mod counts;
mod good;
mod held;
mod state;

pub use after::{hear_context, hear_data};
pub use copies::copy_field;
pub use counts::{count_at, type_order};
pub use good::{head_good, record_good};
pub use held::{SLOTTED, is_held, refill, slot_at};
pub use state::state_good;

// The words of a record before its slots, those of its slots, and all.
pub const HEAD_WORDS: usize = 15;

pub const SLOT_WORDS: usize = 74;

pub const RECORD_WORDS: usize = HEAD_WORDS + SLOT_WORDS;

// Where the held indicator and the choice stand in a record.
pub const HELD_AT: usize = 1;

pub const CHOICE_AT: usize = 14;
