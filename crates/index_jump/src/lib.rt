// A jump to a packet of a recording that has an index.
#![tactic(auto)]

mod copies;
mod landing;

ghost use Rattle.words.specs.Listed.{on_paper};
ghost use Rattle.words.specs.Outcome.{Meets};
ghost use Rattle.index_jump.specs.Jump.{jump_of};

use index::inner::{FEW_TABLE, MOST_TABLE};
use words::Refusal;

// Where a jump has landed: the layout's length, and the word place in the recording of the packet that was asked for.
#[derive(Clone, Copy, Debug, PartialEq, Eq)]
pub struct Landed {
    pub length: usize,
    pub place: u64,
}

// Leaves the table just before packet n of a recording: the page of the last entry before it is put back, and the packets from there on, at most 1,023, are
// played. The words are those of the recording from the word place `first` on: from 0 on, all of it. PAGE for contents that are not well made; PLACE where n is
// above the packets taken in; PAGE for a page that is not well made, or an entry from which the words do not go on to packet n; ROOM where the table is shorter
// than the layout. A refusal changes nothing; words past the layout stay.
pub fn jump(
    given: &[u32],
    first: u64,
    index: &[u32],
    n: u64,
    table: &mut [u32],
) -> Result<Landed, Refusal>
    ensures { Meets on_paper (jump_of given.now first index.now n table.old) table.old result table.new }
{
    if !index::inner::index_good(index) {
        return Err(Refusal::Page);
    }
    if (index::inner::packets_taken(index) as u64) < n {
        return Err(Refusal::Place);
    }
    let packet = n as usize;
    if packet % index::inner::SPACING == 0 {
        return copies::jump_back(given, first, index, packet, table);
    }
    if landing::few_before(index, packet) {
        return copies::jump_apart::<FEW_TABLE>(given, first, index, packet, table);
    }
    copies::jump_apart::<MOST_TABLE>(given, first, index, packet, table)
}
