// The entry of one packet, from its words: what play says of the packet, as plain numbers. The header and the size are checked first, and a body only of type
// 4, so that a data packet pays for no body. Data and Context packets have a function each, so that the compiler puts both in line where a run calls `enter`.
ghost use Rattle.std.specs.Prelude.{◌≡◌, true, ◌<◌, eqb};
ghost use Rattle.words.specs.declared.Where.TheVariants.{Word, Field};
ghost use Rattle.words.specs.Numbers.{FIELD, STREAM};
ghost use Rattle.words.specs.Tests.{pick};
ghost use Rattle.words.specs.Listed.{list_number};
ghost use Rattle.words.specs.Outcome.{accepted};
ghost use Rattle.words.specs.Told.{told_paper};
ghost use Rattle.packet.specs.Header.{type_of, size_of};
ghost use Rattle.packet.specs.inner.Steps.{Placeable};
ghost use Rattle.table.specs.Well.{well_made};
ghost use Rattle.play.specs.inner.Entered.{Sized, sought_in, chosen_at, Noted, Sayable, said_by, unread_note, unread_entry, undeclared_entry};

use crate::Heard;
use crate::run::Entry;
use words::{Refusal, RefusedAt, Where};

// What is noted of words that reading refuses: the number. A walk does not go on behind it.
fn note_unread(refusal: Refusal) -> Entry
    ensures { result ≡ unread_note (list_number refusal) }
{
    Entry {
        number: u32::from(refusal),
        size: 0,
        what: 0,
        which: 0,
        missing: 0,
    }
}

// The entry of a packet with the header w that is of no stream: STREAM, told at the identifier, or at the header where there is none. It looks at no other word,
// so that none is kept at hand while a stream is sought.
fn entry_undeclared(w: u32) -> Entry
    ensures { result ≡ undeclared_entry STREAM w }
{
    Entry {
        number: u32::from(Refusal::Stream),
        size: packet::inner::size_of(w),
        what: words::inner::when_so(packet::inner::has_stream(w), 1) as u32,
        which: 0,
        missing: 0,
    }
}

// The entry of a packet with the header w that stream s has heard.
fn entry_heard(w: u32, s: usize, missing: u32) -> Entry
    requires { s < 32 }
    ensures { result ≡ record { number = 0; size = size_of w; what = type_of w; which = s; missing = missing } }
{
    Entry {
        number: 0,
        size: packet::inner::size_of(w),
        what: packet::inner::type_of(w),
        which: s as u32,
        missing,
    }
}

// The entry of a packet of stream s, of a type other than 4, whose header and size are right, where 49A is chosen for the stream.
fn enter_survey(table: &mut [u32], given: &[u32], w: u32, s: usize) -> Entry
    requires survey_packet { (well_made table.old ≡ true) × Sized w given.now × (type_of w ≡ 4 → ⊥) }
    requires stream_found { (sought_in w given.now table.old ≡ accepted s) × (chosen_at s table.old ≡ true) }
    ensures { Noted table.old given.now result table.new }
{
    let rest = packet::inner::check_survey(w, given);
    let Ok(()) = rest else {
        return note_unread(rest.unwrap_err());
    };
    let missing = crate::streams::hear_data(table, s, w);
    entry_heard(w, s, missing)
}

// The entry of a packet of a type other than 4 whose header and size are right. Its stream is sought first, since its class is read by the stream's choice; a
// packet of no stream is plain, and else STREAM. A plain packet's checks are asked here, so that the compiler puts them in line.
fn enter_data(table: &mut [u32], given: &[u32], w: u32) -> Entry
    requires { (well_made table.old ≡ true) × Sized w given.now × (type_of w ≡ 4 → ⊥) }
    ensures { Noted table.old given.now result table.new }
{
    let Some(s) = crate::streams::seek(table, given, w) else {
        let prologue = packet::inner::check_prologue(false, w, given);
        let Ok(()) = prologue else {
            return note_unread(prologue.unwrap_err());
        };
        return entry_undeclared(w);
    };
    if crate::streams::is_survey(table, s) {
        return enter_survey(table, given, w, s);
    }
    let prologue = packet::inner::check_prologue(false, w, given);
    let Ok(()) = prologue else {
        return note_unread(prologue.unwrap_err());
    };
    let missing = crate::streams::hear_data(table, s, w);
    entry_heard(w, s, missing)
}

// The entry of a Context packet whose header and size are right.
fn enter_context(table: &mut [u32], given: &[u32], w: u32) -> Entry
    requires { (well_made table.old ≡ true) × Sized w given.now × (type_of w ≡ 4) }
    ensures { Noted table.old given.now result table.new }
{
    let prologue = packet::inner::check_prologue(false, w, given);
    let Ok(()) = prologue else {
        return note_unread(prologue.unwrap_err());
    };
    let body = packet::inner::check_body(w, given);
    let Ok(()) = body else {
        return note_unread(body.unwrap_err());
    };
    let Some(s) = crate::streams::seek(table, given, w) else {
        return entry_undeclared(w);
    };
    let missing = crate::streams::hear_context(table, s, given, w);
    entry_heard(w, s, missing)
}

// The entry of words that reading refuses with a number: the number, and where. It is made once, where a run ends, and so away from the packets that are heard.
pub fn entry_unread(number: u32, given: &[u32]) -> Entry
    requires { Placeable number given.now }
    ensures { result ≡ unread_entry number given.now }
{
    let place = packet::inner::where_of(number, given);
    Entry {
        number,
        size: 0,
        what: words::inner::place_word(place) as u32,
        which: words::inner::place_bit(place),
        missing: 0,
    }
}

// Plays the packet at the front of the words on a table that is known to be well made, and gives its entry; of words that reading refuses, without the place.
pub fn enter(table: &mut [u32], given: &[u32]) -> Entry
    requires { well_made table.old ≡ true }
    ensures { Noted table.old given.now result table.new }
{
    let sized = packet::inner::check_sized(given);
    let Ok(()) = sized else {
        return note_unread(sized.unwrap_err());
    };
    let w = given[0];
    if packet::inner::type_of(w) != 4 {
        return enter_data(table, given, w);
    }
    enter_context(table, given, w)
}

// Where an entry's packet is refused: at a field with FIELD, and at a word with another number.
fn place_of(refusal: Refusal, e: Entry) -> Where
    ensures { result ≡ pick (eqb (list_number refusal) FIELD) (Field e.what e.which) (Word e.what) }
{
    match refusal {
        Refusal::Field => Where::Field(e.what as usize, e.which),
        _ => Where::Word(e.what as usize),
    }
}

// What play answers, from an entry: the packet is refused where the number is in the list, and heard where it is 0.
pub fn answer_of(e: Entry) -> Result<Heard, RefusedAt>
    requires { Sayable e.number }
    ensures { told_paper result ≡ said_by e }
{
    match Refusal::try_from(e.number) {
        Ok(refusal) => Err(RefusedAt {
            refusal,
            place: place_of(refusal, e),
        }),
        Err(_) => Ok(Heard {
            size: e.size,
            kind: e.what,
            stream: e.which as usize,
            missing: e.missing,
        }),
    }
}
