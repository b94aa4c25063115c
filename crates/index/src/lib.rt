// The index beside a recording: its contents, and an index started. Growing and jumping have crates of their own, index_grow and index_jump.
#![tactic(auto)]

mod contents;
mod good;
pub mod inner;
mod writing;

ghost use Rattle.words.specs.Listed.{on_paper};
ghost use Rattle.words.specs.Outcome.{Meets};
ghost use Rattle.index.specs.Start.{start_index_of};

use words::Refusal;

// Starts an index beside a recording whose boundary 0 finds a table so, and answers the words that it takes: TABLE where the table is not well made; ROOM where
// the index is shorter than the contents and the table's page. A refusal changes nothing; other words stay.
pub fn start_index(table: &[u32], index: &mut [u32]) -> Result<usize, Refusal>
    ensures { Meets on_paper (start_index_of table.now index.old) index.old result index.new }
{
    if index.len() < contents::CONTENTS_WORDS {
        if table::well_made(table) {
            return Err(Refusal::Room);
        }
        return Err(Refusal::Table);
    }
    let size = writing::make_entry(table, index, 0, 0, contents::CONTENTS_WORDS)?;
    writing::write_reached(index, 0, 0);
    Ok(contents::CONTENTS_WORDS + size)
}
