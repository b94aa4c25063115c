// What is written into the contents of an index.
ghost use Rattle.std.specs.Prelude.{◌≡◌, [], ◌∷◌, ◌+◌, ◌/◌, ◌%◌, ◌^◌, ◌≤◌, ◌<◌, length};
ghost use Rattle.words.specs.Part.{put};
ghost use Rattle.words.specs.Listed.{on_paper};
ghost use Rattle.words.specs.Outcome.{Meets};
ghost use Rattle.index.specs.Layout.{most_entries, entry_from, index_contents, place_words, with_reached};
ghost use Rattle.index.specs.inner.Entered.{saved_at, entered_at};

use words::Refusal;

// Four words of the contents, from a place on.
fn write_four(index: &mut [u32], at: usize, a: u32, b: u32, c: u32, d: u32)
    requires { at + 4 ≤ length index.old }
    ensures { index.new ≡ put at 4 (a ∷ b ∷ c ∷ d ∷ []) index.old }
{
    index[at] = a;
    index[at + 1] = b;
    index[at + 2] = c;
    index[at + 3] = d;
}

// The high word of a word place, and its low word.
fn high_of(place: u64) -> u32
    ensures { result ≡ place / 2 ^ 32 }
{
    (place / 0x1_0000_0000) as u32
}

fn low_of(place: u64) -> u32
    ensures { result ≡ place % 2 ^ 32 }
{
    (place % 0x1_0000_0000) as u32
}

// The number of packets that were taken in, with that of the entries, and the word place behind them.
pub fn write_reached(index: &mut [u32], n: usize, place: u64)
    requires { (index_contents ≤ length index.old) × (n < 2 ^ 32) }
    ensures { index.new ≡ with_reached n place index.old }
{
    let entries = n / crate::contents::SPACING + 1;
    write_four(
        index,
        0,
        entries as u32,
        n as u32,
        high_of(place),
        low_of(place),
    );
}

// Entry j: its word place, and its page's offset and length.
fn write_entry(index: &mut [u32], j: usize, place: u64, offset: usize, size: usize)
    requires { (index_contents ≤ length index.old) × (j < most_entries) × (offset < 2 ^ 32) × (size < 2 ^ 32) }
    ensures { index.new ≡ put (entry_from j) 4 (place_words place (offset ∷ size ∷ [])) index.old }
{
    let at = crate::contents::entry_from(j);
    write_four(
        index,
        at,
        high_of(place),
        low_of(place),
        offset as u32,
        size as u32,
    );
}

// Saves the page of a table into an index, at an offset: TABLE, and ROOM where it does not fit.
fn save_at(table: &[u32], index: &mut [u32], offset: usize) -> Result<usize, Refusal>
    requires { offset ≤ length index.old }
    ensures { Meets on_paper (saved_at table.now offset index.old) index.old result index.new }
{
    page::save(table, &mut index[offset..])
}

// Makes entry j, of a table at a word place: its page is saved at an offset behind the contents.
pub fn make_entry(
    table: &[u32],
    index: &mut [u32],
    j: usize,
    place: u64,
    offset: usize,
) -> Result<usize, Refusal>
    requires { (index_contents ≤ offset) × (offset ≤ length index.old) × (offset < 2 ^ 32) × (j < most_entries) }
    ensures { Meets on_paper (entered_at table.now j place offset index.old) index.old result index.new }
{
    let size = save_at(table, index, offset)?;
    write_entry(index, j, place, offset, size);
    Ok(size)
}
