// A packet taken in: played, and counted.
ghost use Rattle.std.specs.Prelude.{◌≡◌, true, false, ◌^◌, ◌<◌};
ghost use Rattle.words.specs.declared.Where.TheVariants.{Nowhere};
ghost use Rattle.words.specs.Outcome.{refused, Meets};
ghost use Rattle.words.specs.Listed.{list_number};
ghost use Rattle.words.specs.Told.{refusal as told, told_paper};
ghost use Rattle.table.specs.Well.{well_made};
ghost use Rattle.play.specs.Run.{Stepped};
ghost use Rattle.index.specs.Good.{index_good};
ghost use Rattle.index_grow.specs.Grow.{reaches_entry, grow_told};
ghost use Rattle.index_grow.specs.inner.Steps.{Ready, answer_by, counted_in};

use crate::{Stranger, Taken};
use words::{Refusal, RefusedAt, Where};

// A refusal that has no place.
pub fn refuse(refusal: Refusal) -> Result<Taken, RefusedAt>
    ensures { told_paper result ≡ refused (told (list_number refusal) Nowhere) }
{
    Err(RefusedAt {
        refusal,
        place: Where::Nowhere,
    })
}

// Plays the packet at the front of the words on a table that is known to be well made.
pub fn play_next(table: &mut [u32], given: &[u32]) -> play::inner::Happened
    requires { well_made table.old ≡ true }
    ensures { Stepped table.old given.now 0 result table.new }
{
    if given.len() == 0 {
        return play::inner::Happened {
            answer: Err(RefusedAt {
                refusal: Refusal::Empty,
                place: Where::Word(0),
            }),
            next: None,
        };
    }
    play::inner::step(table, given, 0)
}

// What growing answers of a packet that play refuses: where the recording goes on, that it is of no declared stream.
fn answer_unheard(r: RefusedAt, next: Option<usize>) -> Result<Taken, RefusedAt>
    ensures { told_paper result ≡ answer_by (refused (told (list_number r.refusal) r.place)) next }
{
    let Some(size) = next else {
        return Err(r);
    };
    let place = r.place;
    Ok(Taken::Undeclared(Stranger {
        size,
        place: words::inner::place_word(place),
    }))
}

// What growing answers, from play's answer.
pub fn answer_of(
    answer: Result<play::Heard, RefusedAt>,
    next: Option<usize>,
) -> Result<Taken, RefusedAt>
    ensures { told_paper result ≡ answer_by (told_paper answer) next }
{
    match answer {
        Ok(h) => Ok(Taken::Declared(h)),
        Err(r) => answer_unheard(r, next),
    }
}

// Whether the boundary behind the next packet has an entry.
pub fn reaches_entry(index: &[u32]) -> bool
    requires { index_good index.now ≡ true }
    ensures { result ≡ reaches_entry index.now }
{
    (index::inner::packets_taken(index) + 1) % index::inner::SPACING == 0
}

// Counts a packet of so many words.
pub fn count_packet(index: &mut [u32], size: usize)
    requires { (index_good index.old ≡ true) × (size < 2 ^ 16) }
    ensures { index.new ≡ counted_in size index.old }
{
    let n = index::inner::packets_taken(index) + 1;
    let place = index::inner::place_reached(index) + size as u64;
    index::inner::write_reached(index, n, place);
}

// Takes a packet in behind which there is no entry.
pub fn grow_on(table: &mut [u32], given: &[u32], index: &mut [u32]) -> Result<Taken, RefusedAt>
    requires { Ready table.old index.old × (reaches_entry index.old ≡ false) }
    ensures { Meets told_paper (grow_told table.old given.now index.old) (table.old, index.old) result (table.new, index.new) }
{
    let s = play_next(table, given);
    let answer = s.answer;
    let Some(size) = s.next else {
        return answer_of(answer, None);
    };
    count_packet(index, size);
    answer_of(answer, Some(size))
}
