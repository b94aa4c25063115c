// The calls for C: include/vrt49.h has them, each with its promise in words. Each export calls the function of its name in `vrt49`, and states its clauses again; it
// does nothing else.
#![tactic(auto)]

mod indexes;
mod packets;
mod pages;
mod payloads;
mod readings;
mod streams;
mod tables;

pub use indexes::{vrt49_grow, vrt49_jump, vrt49_start_index};
pub use packets::{
    vrt49_check_body, vrt49_field_count, vrt49_find, vrt49_read, vrt49_read_survey,
    vrt49_trailer_parts, vrt49_trailer_word, vrt49_write, vrt49_write_survey,
};
pub use pages::{vrt49_page_length, vrt49_put_back, vrt49_save};
pub use payloads::{
    vrt49_coordinates_of, vrt49_item_at, vrt49_pack, vrt49_signed, vrt49_unpack, vrt49_words_needed,
};
pub use readings::{vrt49_held_words, vrt49_reading, vrt49_readings};
pub use streams::{vrt49_changed, vrt49_counts, vrt49_identity, vrt49_own_table};
pub use tables::{vrt49_play, vrt49_play_run, vrt49_start, vrt49_well_made};
