// The table of streams: a fresh one, and whether one is well made.
#![tactic(auto)]

mod identifiers;
pub mod inner;
mod layout;
mod numbered;
mod records;

ghost use Rattle.std.specs.Prelude.{◌≡◌};
ghost use Rattle.words.specs.Listed.{on_paper};
ghost use Rattle.words.specs.Outcome.{Meets};
ghost use Rattle.table.specs.Well.{well_made};
ghost use Rattle.table.specs.Start.{start_of};

use words::Refusal;

// Starts a table for a list of identifiers and their choices, 0 for plain 49.0 and 1 for 49A, and answers the layout's length: LIST for 0 or over 32
// identifiers, one twice, choices unlike them in number, or another choice; ROOM where the table is shorter than the layout. Words past the layout stay.
pub fn start(ids: &[u32], choices: &[u32], table: &mut [u32]) -> Result<usize, Refusal>
    ensures { Meets on_paper (start_of ids.now choices.now table.old) table.old result table.new }
{
    let n = ids.len();
    if !identifiers::list_good(ids, 0, 1, n) {
        return Err(Refusal::List);
    }
    if !identifiers::choices_good(choices, n) {
        return Err(Refusal::List);
    }
    let length = layout::layout_words(n);
    if table.len() < length {
        return Err(Refusal::Room);
    }
    table[0] = n as u32;
    records::write_records(table, ids, choices);
    Ok(length)
}

// Whether a table is well made: the whole layout is there, its list is valid, and each record is good.
pub fn well_made(table: &[u32]) -> bool
    ensures { result ≡ well_made table.now }
{
    let n = layout::streams(table);
    if table.len() < layout::layout_words(n) {
        return false;
    }
    if !identifiers::list_good(table, 1, record::inner::RECORD_WORDS, n) {
        return false;
    }
    records::records_good(table, n)
}
