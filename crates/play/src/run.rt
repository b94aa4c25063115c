// A run of packets over a recording, with an entry of answers for each. A packet by itself is a run with room for one entry, so that `enter` is called in one
// place and the compiler puts it in line there: a call for each packet would cost a third more.
ghost use Rattle.std.specs.Prelude.{◌≡◌, true, ◌+◌, ◌^◌, ◌≤◌, ◌<◌, length};
ghost use Rattle.words.specs.Part.{put};
ghost use Rattle.table.specs.Well.{well_made};
ghost use Rattle.play.specs.Run.{entry_words, words_of_entry, whole_walk, WalkDone};
ghost use Rattle.play.specs.inner.Entered.{Entered};

// The words that are written of each packet.
pub const ENTRY_WORDS: usize = 5;

// An entry. An enum in its place would be kept in memory and cost a third more.
#[derive(Clone, Copy)]
pub struct Entry {
    // the refusal's number, or 0
    pub number: u32,
    // the words that the walk goes on by
    pub size: usize,
    // the type; of a refusal, the word that is told
    pub what: u32,
    // the stream; of a refusal, the bit that is told, or 0
    pub which: u32,
    // the missing that the packet adds; 0 of a refusal
    pub missing: u32,
}

// How many packets have an entry, and the place after them: of the next packet, or of the one whose refusal stopped the run.
#[derive(Clone, Copy)]
pub struct Reached {
    pub packets: usize,
    pub next: usize,
}

// Stores an entry.
fn store(place: &mut [u32], e: Entry)
    requires { (length place.old ≡ entry_words) × (e.size < 2 ^ 16) }
    ensures { place.new ≡ words_of_entry e }
{
    place[0] = e.number;
    place[1] = e.size as u32;
    place[2] = e.what;
    place[3] = e.which;
    place[4] = e.missing;
}

// The entry that words hold.
fn load(entry: [u32; ENTRY_WORDS]) -> Entry
    ensures { words_of_entry result ≡ entry }
{
    Entry {
        number: entry[0],
        size: entry[1] as usize,
        what: entry[2],
        which: entry[3],
        missing: entry[4],
    }
}

// Stores an entry at a place of the answers.
fn write_entry(answers: &mut [u32], at: usize, e: Entry)
    requires { (at + entry_words ≤ length answers.old) × (e.size < 2 ^ 16) }
    ensures { answers.new ≡ put at entry_words (words_of_entry e) answers.old }
{
    let end = at + ENTRY_WORDS;
    store(&mut answers[at..end], e);
}

// Plays packets one after the other on a table that is known to be well made.
pub fn run_on(table: &mut [u32], recording: &[u32], from: usize, answers: &mut [u32]) -> Reached
    requires { well_made table.old ≡ true }
    ensures { WalkDone (whole_walk table.old recording.now from answers.old) answers.old result table.new answers.new }
{
    let most = answers.len() / ENTRY_WORDS;
    let mut at = from;
    for n in 0..most {
        if recording.len() <= at {
            return Reached {
                packets: n,
                next: at,
            };
        }
        let e = crate::entries::enter(table, &recording[at..]);
        if e.size == 0 {
            let told = crate::entries::entry_unread(e.number, &recording[at..]);
            write_entry(answers, ENTRY_WORDS * n, told);
            return Reached {
                packets: n + 1,
                next: at,
            };
        }
        write_entry(answers, ENTRY_WORDS * n, e);
        at += e.size;
    }
    Reached {
        packets: most,
        next: at,
    }
}

// Plays the packet at a place of a recording on a table that is known to be well made, and gives its entry. The words begin as EMPTY's entry, and the run
// writes over them where a word is left.
pub fn run_one(table: &mut [u32], recording: &[u32], at: usize) -> Entry
    requires { well_made table.old ≡ true }
    ensures { Entered table.old recording.now at result table.new }
{
    let mut entry = [u32::from(words::Refusal::Empty), 0, 0, 0, 0];
    run_on(table, recording, at, &mut entry);
    load(entry)
}
