// Where a packet is refused. This is worked out for a refusal alone, from the refusal and the words.
ghost use Rattle.std.specs.Prelude.{◌≡◌, ◌^◌, ◌≤◌, ◌<◌, length};
ghost use Rattle.words.specs.Listed.{list_number};
ghost use Rattle.words.specs.Told.{place_word, place_further};
ghost use Rattle.fields.specs.Broken.{broken_of};
ghost use Rattle.packet.specs.Header.{size_of};
ghost use Rattle.packet.specs.Parts.{required_of, body_at, body_of};
ghost use Rattle.packet.specs.Told.{where_of};
ghost use Rattle.packet.specs.inner.Steps.{FieldFits};

use words::{Refusal, RefusedAt, Where};

// A place so many words further on.
fn moved(n: usize, place: Where) -> Where
    requires { (n ≤ 7) × (place_word place < 2 ^ 40) }
    ensures { result ≡ place_further n place }
{
    match place {
        Where::Nowhere => Where::Nowhere,
        Where::Word(at) => Where::Word(n + at),
        Where::Field(at, bit) => Where::Field(n + at, bit),
    }
}

// Where the highest broken field stands of a packet whose header and size are right.
fn broken_at(w: u32, ws: &[u32]) -> Where
    requires { (required_of w ≤ size_of w) × (size_of w ≤ length ws.now) }
    ensures { result ≡ place_further (body_at w) (broken_of (body_of w ws.now)) }
{
    let at = crate::header::body_at(w);
    let end = crate::prologue::body_end(w);
    moved(at, fields::inner::broken(&ws[at..end]))
}

// Where the words are refused; with FIELD, of a packet whose header and size are right.
pub fn where_refused(refusal: Refusal, ws: &[u32]) -> Where
    requires { FieldFits (list_number refusal) ws.now }
    ensures { result ≡ where_of ws.now (list_number refusal) }
{
    let w = words::inner::word_at(ws, 0);
    match refusal {
        Refusal::Empty | Refusal::Kind | Refusal::Bits | Refusal::Short | Refusal::Cut => {
            Where::Word(0)
        }
        Refusal::Class => Where::Word(crate::header::class_at(w)),
        Refusal::Time => Where::Word(crate::header::fraction_at(w)),
        Refusal::Indicator | Refusal::Layout => Where::Word(crate::header::body_at(w)),
        Refusal::Field => broken_at(w, ws),
        Refusal::Pad => Where::Word(words::inner::when_so(
            crate::header::has_class(w),
            crate::header::class_at(w),
        )),
        Refusal::Stream => Where::Word(words::inner::when_so(crate::header::has_stream(w), 1)),
        Refusal::List
        | Refusal::Room
        | Refusal::Value
        | Refusal::Size
        | Refusal::Format
        | Refusal::Count
        | Refusal::Table
        | Refusal::Page
        | Refusal::Place => Where::Nowhere,
    }
}

// Where the words are refused with a number; with FIELD, of a packet whose header and size are right. A number that is not in the list has no place.
pub fn where_of(number: u32, ws: &[u32]) -> Where
    requires { FieldFits number ws.now }
    ensures { result ≡ where_of ws.now number }
{
    match Refusal::try_from(number) {
        Ok(refusal) => where_refused(refusal, ws),
        Err(_) => Where::Nowhere,
    }
}

// The refusal of the words, and where.
pub fn refusal_of(refusal: Refusal, ws: &[u32]) -> RefusedAt
    requires { FieldFits (list_number refusal) ws.now }
    ensures { result ≡ record { refusal = refusal; place = where_of ws.now (list_number refusal) } }
{
    RefusedAt {
        refusal,
        place: where_refused(refusal, ws),
    }
}
