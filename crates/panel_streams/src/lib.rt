// What a table says of a stream beside its readings: who it is, how its packets are read and which fields it holds, what it counted, its record as a table of
// its own, and which held fields two records have not the same.
#![tactic(auto)]

mod changes;
mod records;

ghost use Rattle.std.specs.Prelude.{◌≡◌};
ghost use Rattle.words.specs.Listed.{on_paper};
ghost use Rattle.words.specs.Outcome.{Meets};
ghost use Rattle.panel_streams.specs.Identity.{identity_of, identity_paper};
ghost use Rattle.panel_streams.specs.TypeCounts.{type_counts_of, type_counts_paper};
ghost use Rattle.panel_streams.specs.OwnTable.{own_table_of};
ghost use Rattle.panel_streams.specs.Changed.{changed_of};

pub use records::{Identity, TypeCounts};
use words::Refusal;

// The identifier of a stream, its choice, which is 0 for plain 49.0 and 1 for 49A, and its held indicator, which has the bit of each field that is held. TABLE
// for a table that is not well made, STREAM for a stream number that is not in it.
pub fn identity(table: &[u32], stream: usize) -> Result<Identity, Refusal>
    ensures { identity_paper result ≡ identity_of table.now stream }
{
    table::inner::check_stream(table, stream)?;
    Ok(records::identity_at(table, stream))
}

// What a stream counted of a type: nothing where none of it came. TABLE and STREAM as for an identity, then VALUE for a type that is not counted: not 1, 3, 4 or 5.
pub fn counts(table: &[u32], stream: usize, kind: u32) -> Result<Option<TypeCounts>, Refusal>
    ensures { type_counts_paper result ≡ type_counts_of table.now stream kind }
{
    table::inner::check_stream(table, stream)?;
    records::counts_at(table, stream, kind)
}

// The record of a stream as a table of its own, of one stream, at the front of out; answers its words, 90. TABLE and STREAM as for an identity, then ROOM where out
// is shorter. Other words of out stay.
pub fn own_table(table: &[u32], stream: usize, out: &mut [u32]) -> Result<usize, Refusal>
    ensures { Meets on_paper (own_table_of table.now stream out.old) out.old result out.new }
{
    table::inner::check_stream(table, stream)?;
    records::copy_own(table, stream, out)
}

// The bits, of 30 to 10, of the fields for which two streams do not hold the same words; an absent field holds none. TABLE where either table is not well made,
// STREAM where either number is not in its table.
pub fn changed(before: &[u32], stream: usize, after: &[u32], other: usize) -> Result<u32, Refusal>
    ensures { on_paper result ≡ changed_of before.now stream after.now other }
{
    changes::check(before, stream, after, other)?;
    Ok(changes::changed_at(before, stream, after, other))
}
