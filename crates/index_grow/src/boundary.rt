// A packet taken in behind which the index keeps a page. Where that page may not fit, the packet is played on a copy of the table: if it does not, nothing has
// changed, and nothing is undone.
ghost use Rattle.std.specs.Prelude.{◌≡◌, true, ◌^◌, ◌≤◌, ◌<◌, length};
ghost use Rattle.words.specs.Outcome.{Meets};
ghost use Rattle.words.specs.Told.{told_paper};
ghost use Rattle.index.specs.Layout.{pages_end};
ghost use Rattle.index.specs.Good.{index_good};
ghost use Rattle.index_grow.specs.Grow.{reaches_entry, grow_told};
ghost use Rattle.index_grow.specs.inner.Steps.{Ready, GrownOn, EntryMade, EntryTaken, room_for_any, layout_in, given_back};

use crate::Taken;
use words::{Refusal, RefusedAt};

// Where the pages of an index end.
fn pages_end(index: &[u32]) -> usize
    requires { index_good index.now ≡ true }
    ensures { result ≡ pages_end index.now }
{
    let last = index::inner::entries_in(index) - 1;
    index::inner::entry_offset(index, last) + index::inner::entry_length(index, last)
}

// Makes the next entry of an index, of a table at a word place, and tells whether there was room for it.
fn make_next(table: &[u32], index: &mut [u32], place: u64) -> bool
    requires { Ready table.now index.old }
    ensures { EntryMade table.now place index.old result index.new }
{
    let j = index::inner::entries_in(index);
    if index::inner::MOST_ENTRIES <= j {
        return false;
    }
    let offset = pages_end(index);
    if 0xFFFF_FFFF < offset {
        return false;
    }
    index::inner::make_entry(table, index, j, place, offset).is_ok()
}

// Makes the next entry, of a table behind a packet of so many words, and counts the packet; tells whether there was room.
fn take_entry(table: &[u32], index: &mut [u32], size: usize) -> bool
    requires { Ready table.now index.old × (size < 2 ^ 16) }
    ensures { EntryTaken table.now size index.old result index.new }
{
    let n = index::inner::packets_taken(index) + 1;
    let place = index::inner::place_reached(index) + size as u64;
    if !make_next(table, index, place) {
        return false;
    }
    index::inner::write_reached(index, n, place);
    true
}

// Takes the packet in on a table that may be changed.
fn grow_played(table: &mut [u32], given: &[u32], index: &mut [u32]) -> Result<Taken, RefusedAt>
    requires { Ready table.old index.old × (reaches_entry index.old ≡ true) }
    ensures { GrownOn table.old given.now index.old result table.new index.new }
{
    let s = crate::packets::play_next(table, given);
    let answer = s.answer;
    let Some(size) = s.next else {
        return crate::packets::answer_of(answer, None);
    };
    if !take_entry(table, index, size) {
        return crate::packets::refuse(Refusal::Room);
    }
    crate::packets::answer_of(answer, Some(size))
}

// Copies a table back that a packet was taken in on; where it was refused the lent table stays.
fn give_back(answer: Result<Taken, RefusedAt>, table: &mut [u32], copy: &[u32])
    requires { length copy.now ≤ length table.old }
    ensures { table.new ≡ given_back answer copy.now table.old }
{
    if let Ok(_) = answer {
        words::inner::copy_part(table, 0, copy, 0, copy.len());
    }
}

// Takes the packet in on a copy of the table's layout.
fn grow_given(
    copy: &mut [u32],
    table: &mut [u32],
    given: &[u32],
    index: &mut [u32],
) -> Result<Taken, RefusedAt>
    requires { Ready table.old index.old × (reaches_entry index.old ≡ true) × (copy.old ≡ layout_in table.old) }
    ensures { Meets told_paper (grow_told table.old given.now index.old) (table.old, index.old) result (table.new, index.new) }
{
    let answer = grow_played(copy, given, index);
    give_back(answer, table, copy);
    answer
}

// Takes the packet in, with words that have room for the longest table.
fn grow_in(
    space: &mut [u32],
    table: &mut [u32],
    given: &[u32],
    index: &mut [u32],
) -> Result<Taken, RefusedAt>
    requires { Ready table.old index.old × (reaches_entry index.old ≡ true) × (length space.old ≡ 2849) }
    ensures { Meets told_paper (grow_told table.old given.now index.old) (table.old, index.old) result (table.new, index.new) }
{
    let size = table::inner::layout_words(table::inner::streams(table));
    words::inner::copy_part(space, 0, table, 0, size);
    grow_given(&mut space[0..size], table, given, index)
}

// Takes the packet in on a copy, for which it has words of its own.
fn grow_apart(table: &mut [u32], given: &[u32], index: &mut [u32]) -> Result<Taken, RefusedAt>
    requires { Ready table.old index.old × (reaches_entry index.old ≡ true) }
    ensures { Meets told_paper (grow_told table.old given.now index.old) (table.old, index.old) result (table.new, index.new) }
{
    let mut space = [0u32; index::inner::MOST_TABLE];
    grow_in(&mut space, table, given, index)
}

// Whether there is room for the page whatever the packet is: an entry is left, a word says where the page begins, and the longest page of so many streams fits.
fn room_for_any(table: &[u32], index: &[u32]) -> bool
    requires { Ready table.now index.now }
    ensures { result ≡ room_for_any table.now index.now }
{
    if index::inner::MOST_ENTRIES <= index::inner::entries_in(index) {
        return false;
    }
    let end = pages_end(index);
    if 0xFFFF_FFFF < end {
        return false;
    }
    end + (2 + 90 * table::inner::streams(table)) <= index.len()
}

// Takes the packet in: on the lent table, where there is room for any page.
pub fn grow_to_entry(
    table: &mut [u32],
    given: &[u32],
    index: &mut [u32],
) -> Result<Taken, RefusedAt>
    requires { Ready table.old index.old × (reaches_entry index.old ≡ true) }
    ensures { Meets told_paper (grow_told table.old given.now index.old) (table.old, index.old) result (table.new, index.new) }
{
    if room_for_any(table, index) {
        return grow_played(table, given, index);
    }
    grow_apart(table, given, index)
}
