// Whether the contents of an index are well made.
ghost use Rattle.std.specs.Prelude.{◌≡◌, ◌^◌, ◌≤◌, ◌<◌, length};
ghost use Rattle.index.specs.Layout.{most_entries, index_contents, pages_from};
ghost use Rattle.index.specs.Good.{most_place, entry_good, entries_good, index_good};

// The most words of a packet.
const MOST_WORDS: u64 = 65535;

// The highest word place that there can be behind n packets.
fn most_place(n: usize) -> u64
    requires { n < 2 ^ 32 }
    ensures { result ≡ most_place n }
{
    MOST_WORDS * n as u64
}

// Whether entry j is right, where the pages before it end at a place: its word place can be that of its boundary, and its page begins there.
fn entry_good(index: &[u32], j: usize, at: usize) -> bool
    requires { (index_contents ≤ length index.now) × (j < most_entries) × (at ≡ pages_from index.now j) }
    ensures { result ≡ entry_good index.now j }
{
    crate::contents::entry_place(index, j) <= most_place(crate::contents::SPACING * j)
        && crate::contents::entry_offset(index, j) == at
}

// Whether n entries are right, and the last page ends inside the index.
fn entries_good(index: &[u32], n: usize) -> bool
    requires { (index_contents ≤ length index.now) × (n ≤ most_entries) }
    ensures { result ≡ entries_good index.now n }
{
    let mut at = crate::contents::CONTENTS_WORDS;
    for j in 0..n {
        if !entry_good(index, j, at) {
            return false;
        }
        at += crate::contents::entry_length(index, j);
    }
    at <= index.len()
}

// Whether contents are well made.
pub fn index_good(index: &[u32]) -> bool
    ensures { result ≡ index_good index.now }
{
    if index.len() < crate::contents::CONTENTS_WORDS {
        return false;
    }
    let n = crate::contents::entries_in(index);
    let packets = crate::contents::packets_taken(index);
    if n != packets / crate::contents::SPACING + 1 {
        return false;
    }
    if crate::contents::MOST_ENTRIES < n {
        return false;
    }
    if most_place(packets) < crate::contents::place_reached(index) {
        return false;
    }
    entries_good(index, n)
}
