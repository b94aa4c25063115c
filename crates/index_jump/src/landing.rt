// A landing in words of its own: the entry's page put back there, and the packets from its boundary on.
ghost use Rattle.std.specs.Prelude.{◌≡◌, true, ◌*◌, ◌≤◌, ◌<◌, leb, length};
ghost use Rattle.table.specs.Well.{well_made};
ghost use Rattle.play.specs.Run.{entry_words};
ghost use Rattle.page.specs.Layout.{bodies_in};
ghost use Rattle.index.specs.Layout.{packets_taken, entries_in, page_in};
ghost use Rattle.index.specs.Good.{index_good};
ghost use Rattle.index_jump.specs.Onward.{behind_packets};
ghost use Rattle.index_jump.specs.Jump.{page_before};
ghost use Rattle.index_jump.specs.inner.Steps.{WalkedTo, Spacious, LandedIn};

use crate::Landed;
use words::Refusal;

// The packets that are played at a time, and the words of their entries.
const RUN_PACKETS: usize = 32;

const RUN_WORDS: usize = 160;

// Plays n packets in one run, from a place on, on a table that is known to be well made, and gives the place behind them; PAGE where the recording ends before:
// there are fewer, or the last is not gone past, which its entry's second word tells.
fn walk_run(
    table: &mut [u32],
    given: &[u32],
    from: usize,
    entries: &mut [u32],
    n: usize,
) -> Result<usize, Refusal>
    requires { (well_made table.old ≡ true) × (1 ≤ n) × (entry_words * n ≤ length entries.old) }
    ensures { WalkedTo (behind_packets n given.now from table.old) result table.new }
{
    let end = play::inner::ENTRY_WORDS * n;
    let reached = play::inner::run_on(table, given, from, &mut entries[0..end]);
    if reached.packets != n {
        return Err(Refusal::Page);
    }
    if entries[end - 4] == 0 {
        return Err(Refusal::Page);
    }
    Ok(reached.next)
}

// Plays n packets from a place on, on a table that is known to be well made, and gives the place behind them; PAGE where the recording ends before. They are
// played in runs, of which the last has those that are left.
fn walk_on(
    table: &mut [u32],
    given: &[u32],
    from: usize,
    n: usize,
    entries: &mut [u32],
) -> Result<usize, Refusal>
    requires { (well_made table.old ≡ true) × (length entries.old ≡ 160) }
    ensures { WalkedTo (behind_packets n given.now from table.old) result table.new }
{
    let mut at = from;
    let mut i = 0;
    while i < n {
        let k = (n - i).min(RUN_PACKETS);
        at = walk_run(table, given, at, entries, k)?;
        i += k;
    }
    Ok(at)
}

// The same, with words for the entries of a run.
fn walk(table: &mut [u32], given: &[u32], from: usize, n: usize) -> Result<usize, Refusal>
    requires { well_made table.old ≡ true }
    ensures { WalkedTo (behind_packets n given.now from table.old) result table.new }
{
    let mut entries = [0u32; RUN_WORDS];
    walk_on(table, given, from, n, &mut entries)
}

// The page of entry j.
pub fn page_in(index: &[u32], j: usize) -> &[u32]
    requires { (index_good index.now ≡ true) × (j < entries_in index.now) }
    ensures { result.now ≡ page_in index.now j }
{
    let at = index::inner::entry_offset(index, j);
    let end = at + index::inner::entry_length(index, j);
    &index[at..end]
}

// Whether the page of the last entry before packet n says that it has at most four streams.
pub fn few_before(index: &[u32], n: usize) -> bool
    requires { (index_good index.now ≡ true) × (n ≤ packets_taken index.now) }
    ensures { result ≡ leb (bodies_in (page_before index.now n)) 4 }
{
    let page = page_in(index, n / index::inner::SPACING);
    words::inner::word_at(page, 0) as usize <= index::inner::FEW_STREAMS
}

// Lands just before packet n in the words that are lent, which have room for the table; tells the layout's length, and the word place in the recording.
pub fn land(
    given: &[u32],
    first: u64,
    index: &[u32],
    n: usize,
    space: &mut [u32],
) -> Result<Landed, Refusal>
    requires { (index_good index.now ≡ true) × (n ≤ packets_taken index.now) × Spacious index.now n (length space.old) }
    ensures { LandedIn given.now first index.now n result space.new }
{
    let j = n / index::inner::SPACING;
    let length = page::put_back(page_in(index, j), space)?;
    let place = index::inner::entry_place(index, j);
    if place < first {
        return Err(Refusal::Page);
    }
    if (given.len() as u64) < place - first {
        return Err(Refusal::Page);
    }
    let from = (place - first) as usize;
    let at = walk(
        &mut space[0..length],
        given,
        from,
        n % index::inner::SPACING,
    )?;
    Ok(Landed {
        length,
        place: first + at as u64,
    })
}
