// Packets played on a table of streams.
#![tactic(auto)]

mod entries;
pub mod inner;
mod run;
mod step;
mod streams;

ghost use Rattle.words.specs.Listed.{on_paper};
ghost use Rattle.words.specs.Outcome.{Meets};
ghost use Rattle.words.specs.Told.{told_paper};
ghost use Rattle.play.specs.Play.{play_told};
ghost use Rattle.play.specs.Run.{run_of};

pub use run::Reached;
use words::{Refusal, RefusedAt, Where};

// What play says of an accepted packet: its size in words, its type, its stream's number, and what it added to missing.
#[derive(Clone, Copy)]
pub struct Heard {
    pub size: usize,
    pub kind: u32,
    pub stream: usize,
    pub missing: u32,
}

// Plays the packet at the front of the words: its type is counted in the record of its stream, and a Context packet's fields are held there. TABLE for a
// table that is not well made, then what reading refuses, then STREAM, each but TABLE with its place. A refusal changes nothing; words past the table's layout
// are not looked at.
pub fn play(table: &mut [u32], given: &[u32]) -> Result<Heard, RefusedAt>
    ensures { Meets told_paper (play_told table.old given.now) table.old result table.new }
{
    let true = table::well_made(table) else {
        return Err(RefusedAt {
            refusal: Refusal::Table,
            place: Where::Nowhere,
        });
    };
    entries::answer_of(run::run_one(table, given, 0))
}

// Plays packets one after the other from a place of a recording on: until the words end, the answers are full, or a refusal other than STREAM. Of each packet
// it writes five words into the answers: the refusal's number or 0, the words that the walk goes on by, and type, stream and missing, or of a refusal its word,
// its bit or 0, and 0. The table is tested once; TABLE where it is not well made, and then nothing is written.
pub fn play_run(
    table: &mut [u32],
    recording: &[u32],
    from: usize,
    answers: &mut [u32],
) -> Result<Reached, Refusal>
    ensures { Meets on_paper (run_of table.old recording.now from answers.old) (table.old, answers.old) result (table.new, answers.new) }
{
    let true = table::well_made(table) else {
        return Err(Refusal::Table);
    };
    Ok(run::run_on(table, recording, from, answers))
}
