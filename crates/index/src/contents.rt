// What the contents of an index say.
ghost use Rattle.std.specs.Prelude.{◌≡◌, ◌^◌, ◌≤◌, ◌<◌, length};
ghost use Rattle.index.specs.Layout.{most_entries, entry_from, index_contents, entries_in, packets_taken, place_reached};
ghost use Rattle.index.specs.Layout.{entry_place, entry_offset, entry_length};

// The words of the contents.
pub const CONTENTS_WORDS: usize = 4100;

// The entries that they have room for.
pub const MOST_ENTRIES: usize = 1024;

// The packets from one entry's boundary to the next.
pub const SPACING: usize = 1024;

// The words of the longest table: those that growing and jumping have of their own to play on. A jump has those of four streams where there are no more, since
// they are cleared first.
pub const MOST_TABLE: usize = 2849;

pub const FEW_TABLE: usize = 357;

pub const FEW_STREAMS: usize = 4;

// The entries.
pub fn entries_in(index: &[u32]) -> usize
    requires { index_contents ≤ length index.now }
    ensures { (result ≡ entries_in index.now) × (result < 2 ^ 32) }
{
    words::inner::word_inside(index, 0) as usize
}

// The packets that were taken in.
pub fn packets_taken(index: &[u32]) -> usize
    requires { index_contents ≤ length index.now }
    ensures { (result ≡ packets_taken index.now) × (result < 2 ^ 32) }
{
    words::inner::word_inside(index, 1) as usize
}

// The word place behind them.
pub fn place_reached(index: &[u32]) -> u64
    requires { index_contents ≤ length index.now }
    ensures { result ≡ place_reached index.now }
{
    words::inner::high_first(index[2], index[3])
}

// Where entry j begins.
pub fn entry_from(j: usize) -> usize
    requires { j < most_entries }
    ensures { (result ≡ entry_from j) × (result ≤ 4096) }
{
    4 + 4 * j
}

// The word place of entry j.
pub fn entry_place(index: &[u32], j: usize) -> u64
    requires { (index_contents ≤ length index.now) × (j < most_entries) }
    ensures { result ≡ entry_place index.now j }
{
    let at = entry_from(j);
    words::inner::high_first(index[at], index[at + 1])
}

// Where the page of entry j stands.
pub fn entry_offset(index: &[u32], j: usize) -> usize
    requires { (index_contents ≤ length index.now) × (j < most_entries) }
    ensures { (result ≡ entry_offset index.now j) × (result < 2 ^ 32) }
{
    words::inner::word_inside(index, entry_from(j) + 2) as usize
}

// Its length.
pub fn entry_length(index: &[u32], j: usize) -> usize
    requires { (index_contents ≤ length index.now) × (j < most_entries) }
    ensures { (result ≡ entry_length index.now j) × (result < 2 ^ 32) }
{
    words::inner::word_inside(index, entry_from(j) + 3) as usize
}
