// Which held fields are not the same in two records.
ghost use Rattle.std.specs.Prelude.{◌≡◌, ◌+◌, ◌^◌, ◌≤◌, ◌<◌, length};
ghost use Rattle.words.specs.Tests.{when, same_words};
ghost use Rattle.words.specs.Part.{part};
ghost use Rattle.words.specs.Listed.{on_paper};
ghost use Rattle.fields.specs.Sizes.{field_size};
ghost use Rattle.record.specs.Held.{slot_at};
ghost use Rattle.record.specs.Layout.{record_words};
ghost use Rattle.table.specs.Layout.{Has, record_at};
ghost use Rattle.panel_streams.specs.Changed.{differs, changed_in};
ghost use Rattle.panel_streams.specs.inner.Asked.{changed_checks};

use words::Refusal;

// TABLE where either table is not well made, then STREAM where either number is not in its table.
pub fn check(before: &[u32], stream: usize, after: &[u32], other: usize) -> Result<(), Refusal>
    ensures { on_paper result ≡ changed_checks before.now stream after.now other }
{
    if !table::well_made(before) || !table::well_made(after) {
        return Err(Refusal::Table);
    }
    if table::inner::streams(before) <= stream || table::inner::streams(after) <= other {
        return Err(Refusal::Stream);
    }
    Ok(())
}

// Whether the words that two records hold for the field of a bit, whose slot is at a place among the slots and has so many words, are not the same.
fn field_differs(one: &[u32], other: &[u32], bit: u32, slot: usize, size: usize) -> bool
    requires { (length one.now ≡ record_words) × (length other.now ≡ record_words) × (10 ≤ bit) × (bit ≤ 30) × (slot ≡ slot_at bit) × (size ≡ field_size bit) }
    ensures { result ≡ differs one.now other.now bit }
{
    let n = words::inner::when_so(record::inner::is_held(one, bit), size);
    let m = words::inner::when_so(record::inner::is_held(other, bit), size);
    if n != m {
        return true;
    }
    let at = record::inner::HEAD_WORDS + slot;
    let end = at + n;
    one[at..end] != other[at..end]
}

// A word below the weight of a bit, with that bit set where a test holds.
fn mark(word: u32, bit: u32, test: bool) -> u32
    requires { (bit ≤ 30) × (word < 2 ^ bit) }
    ensures { result ≡ word + when test (2 ^ bit) }
{
    if test {
        return word + words::inner::power(bit as usize) as u32;
    }
    word
}

// The bits of the fields whose held words are not the same in two records. The place among the slots runs along, from their end.
fn changed_fields(one: &[u32], other: &[u32]) -> u32
    requires { (length one.now ≡ record_words) × (length other.now ≡ record_words) }
    ensures { result ≡ changed_in one.now other.now }
{
    let mut word = 0;
    let mut slot = record::inner::SLOT_WORDS;
    for bit in 10..31 {
        let size = fields::inner::field_size(bit);
        slot -= size;
        word = mark(word, bit, field_differs(one, other, bit, slot, size));
    }
    word
}

// The same of the records of two streams.
pub fn changed_at(before: &[u32], stream: usize, after: &[u32], other: usize) -> u32
    requires { (stream < 32) × Has stream before.now × (other < 32) × Has other after.now }
    ensures { result ≡ changed_in (record_at stream before.now) (record_at other after.now) }
{
    let at = table::inner::record_at(stream);
    let end = at + record::inner::RECORD_WORDS;
    let to = table::inner::record_at(other);
    let past = to + record::inner::RECORD_WORDS;
    changed_fields(&before[at..end], &after[to..past])
}
