// What the crates above and this one's calls use of the fields: formats, sizes, rules, the layout of a body, and its highest broken field.
mod carried;
mod format;
mod highest;
mod layout;
mod rules;
mod sizes;

pub use format::{channel_size, event_size, format_ok, item_size, packing_size, real_complex};
pub use highest::broken;
pub use layout::{behind, end_of, rules_kept};
pub use rules::{first_ok, more_ok};
pub use sizes::{field_size, fixed_words, words_of};
