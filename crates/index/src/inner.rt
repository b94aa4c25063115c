// What the crates above use of an index.
pub use crate::contents::{
    FEW_STREAMS, FEW_TABLE, MOST_ENTRIES, MOST_TABLE, SPACING, entries_in, entry_length,
    entry_offset, entry_place, packets_taken, place_reached,
};
pub use crate::good::index_good;
pub use crate::writing::{make_entry, write_reached};
