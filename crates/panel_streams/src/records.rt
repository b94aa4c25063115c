// What the record of a stream says.
ghost use Rattle.std.specs.Prelude.{◌≡◌, true, ◌<◌};
ghost use Rattle.words.specs.Tests.{among};
ghost use Rattle.words.specs.Listed.{on_paper};
ghost use Rattle.words.specs.Outcome.{Meets};
ghost use Rattle.record.specs.Layout.{counted_types};
ghost use Rattle.table.specs.Layout.{Has, record_at};
ghost use Rattle.panel_streams.specs.Identity.{declared_in, declared_as};
ghost use Rattle.panel_streams.specs.TypeCounts.{type_count_in, count_as, type_counts_paper};
ghost use Rattle.panel_streams.specs.inner.Asked.{count_asked, own_asked};

use words::Refusal;

// Who a stream is: its identifier, its choice, and its held indicator.
#[derive(Clone, Copy)]
pub struct Identity {
    pub identifier: u32,
    pub choice: u32,
    pub held: u32,
}

// What a stream counted of a type: how many packets it saw, how many are missing, and the last count.
#[derive(Clone, Copy)]
pub struct TypeCounts {
    pub seen: u32,
    pub missing: u32,
    pub last: u32,
}

// Who a stream of a table is.
pub fn identity_at(table: &[u32], stream: usize) -> Identity
    requires { (stream < 32) × Has stream table.now }
    ensures { declared_as result ≡ declared_in (record_at stream table.now) }
{
    let at = table::inner::record_at(stream);
    Identity {
        identifier: table[at],
        choice: table[at + record::inner::CHOICE_AT],
        held: table[at + record::inner::HELD_AT],
    }
}

// Whether packets of a type are counted: those of types 1, 3, 4 and 5.
fn is_counted(kind: u32) -> bool
    ensures { result ≡ among kind counted_types }
{
    matches!(kind, 1 | 3 | 4 | 5)
}

// The count of a type in the record of a stream; nothing where none of it came.
fn count_in(table: &[u32], stream: usize, kind: u32) -> Option<TypeCounts>
    requires { (stream < 32) × Has stream table.now × (among kind counted_types ≡ true) }
    ensures { count_as result ≡ type_count_in kind (record_at stream table.now) }
{
    let at = table::inner::record_at(stream)
        + record::inner::count_at(record::inner::type_order(kind));
    let last = table[at + 2];
    if last == 0 {
        return None;
    }
    Some(TypeCounts {
        seen: table[at],
        missing: table[at + 1],
        last: last - 1,
    })
}

// What a stream of a table counted of a type; VALUE for one that is not counted.
pub fn counts_at(table: &[u32], stream: usize, kind: u32) -> Result<Option<TypeCounts>, Refusal>
    requires { (stream < 32) × Has stream table.now }
    ensures { type_counts_paper result ≡ count_asked kind (record_at stream table.now) }
{
    if !is_counted(kind) {
        return Err(Refusal::Value);
    }
    Ok(count_in(table, stream, kind))
}

// The record of a stream of a table as a table of its own, at the front of out; ROOM where out is shorter.
pub fn copy_own(table: &[u32], stream: usize, out: &mut [u32]) -> Result<usize, Refusal>
    requires { (stream < 32) × Has stream table.now }
    ensures { Meets on_paper (own_asked (record_at stream table.now) out.old) out.old result out.new }
{
    let n = table::inner::layout_words(1);
    if out.len() < n {
        return Err(Refusal::Room);
    }
    out[0] = 1;
    let at = table::inner::record_at(stream);
    words::inner::copy_part(out, 1, table, at, record::inner::RECORD_WORDS);
    Ok(n)
}
