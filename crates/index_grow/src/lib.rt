// An index grown by a recording's next packet.
#![tactic(auto)]

mod boundary;
mod packets;

ghost use Rattle.words.specs.Outcome.{Meets};
ghost use Rattle.words.specs.Told.{told_paper};
ghost use Rattle.index_grow.specs.Grow.{grow_told};

use words::{Refusal, RefusedAt};

// What growing says of a packet that no declared stream has: its size in words, and the word that says so, the identifier or the header.
#[derive(Clone, Copy)]
pub struct Stranger {
    pub size: usize,
    pub place: usize,
}

// What growing says of a packet that is taken in: what play heard, or that it is of no declared stream.
#[derive(Clone, Copy)]
pub enum Taken {
    Declared(play::Heard),
    Undeclared(Stranger),
}

// Takes the recording's next packet in: it is played on the table, which is handed on from packet to packet, and the index counts it; at every 1,024th boundary
// the index keeps the table's page. The words are those of the recording from that packet on. TABLE, PAGE for contents that are not well made, what reading
// refuses with its place, and ROOM where the contents or the index are full. A refusal changes neither table nor index.
pub fn grow(table: &mut [u32], given: &[u32], index: &mut [u32]) -> Result<Taken, RefusedAt>
    ensures { Meets told_paper (grow_told table.old given.now index.old) (table.old, index.old) result (table.new, index.new) }
{
    if !table::well_made(table) {
        return packets::refuse(Refusal::Table);
    }
    if !index::inner::index_good(index) {
        return packets::refuse(Refusal::Page);
    }
    if packets::reaches_entry(index) {
        return boundary::grow_to_entry(table, given, index);
    }
    packets::grow_on(table, given, index)
}
