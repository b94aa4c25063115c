// A field in the record of a stream: what it shows, and its words.
ghost use Rattle.std.specs.Prelude.{map, ◌≡◌, ◌≤◌, ◌<◌, length};
ghost use Rattle.words.specs.Listed.{on_paper};
ghost use Rattle.words.specs.Outcome.{Meets};
ghost use Rattle.record.specs.Held.{slot_at};
ghost use Rattle.record.specs.Layout.{record_words, held_words_in};
ghost use Rattle.table.specs.Layout.{Has, record_at};
ghost use Rattle.panel.specs.Readings.{record_shows, shown_in};
ghost use Rattle.panel.specs.AllReadings.{record_readings};
ghost use Rattle.panel.specs.inner.Copied.{copy_of};

use crate::FieldReading;
use words::Refusal;

// The record of a stream.
fn record_of(table: &[u32], stream: usize) -> &[u32]
    requires { (stream < 32) × Has stream table.now }
    ensures { (result.now ≡ record_at stream table.now) × (length result.now ≡ record_words) }
{
    let at = table::inner::record_at(stream);
    let end = at + record::inner::RECORD_WORDS;
    &table[at..end]
}

// What each field shows in a record: entry i is that of bit 30 - i. The place among the slots runs along.
fn read_all(rec: &[u32]) -> [FieldReading; 21]
    requires { length rec.now ≡ record_words }
    ensures { map shown_in result ≡ record_readings rec.now }
{
    let mut dials = [FieldReading::Absent; 21];
    let mut slot = 0;
    for i in 0..21 {
        let bit = 30 - i as u32;
        dials[i] = crate::shows::show_in(rec, bit, slot);
        slot += fields::inner::field_size(bit);
    }
    dials
}

// The words of a field that a record holds, copied to the front of out.
fn copy_record(rec: &[u32], bit: u32, out: &mut [u32]) -> Result<usize, Refusal>
    requires { (length rec.now ≡ record_words) × (10 ≤ bit) × (bit ≤ 30) }
    ensures { Meets on_paper (copy_of (held_words_in bit rec.now) out.old) out.old result out.new }
{
    let held = record::inner::is_held(rec, bit);
    let n = words::inner::when_so(held, fields::inner::field_size(bit));
    if out.len() < n {
        return Err(Refusal::Room);
    }
    let at = record::inner::HEAD_WORDS + record::inner::slot_at(bit);
    words::inner::copy_part(out, 0, rec, at, n);
    Ok(n)
}

// What the field of a bit shows in the record of a stream.
pub fn read_at(table: &[u32], stream: usize, bit: u32) -> FieldReading
    requires { (stream < 32) × Has stream table.now × (10 ≤ bit) × (bit ≤ 30) }
    ensures { shown_in result ≡ record_shows bit (record_at stream table.now) }
{
    crate::shows::show_in(record_of(table, stream), bit, record::inner::slot_at(bit))
}

// What the field of a bit, whose slot is at a place among the slots, shows in the record of a stream, for a loop over all fields.
pub fn show_at(table: &[u32], stream: usize, bit: u32, slot: usize) -> FieldReading
    requires { (stream < 32) × Has stream table.now × (10 ≤ bit) × (bit ≤ 30) × (slot ≡ slot_at bit) }
    ensures { shown_in result ≡ record_shows bit (record_at stream table.now) }
{
    crate::shows::show_in(record_of(table, stream), bit, slot)
}

// What each field shows in the record of a stream.
pub fn read_all_at(table: &[u32], stream: usize) -> [FieldReading; 21]
    requires { (stream < 32) × Has stream table.now }
    ensures { map shown_in result ≡ record_readings (record_at stream table.now) }
{
    read_all(record_of(table, stream))
}

// The words of a field that a stream holds, copied to the front of out.
pub fn copy_at(table: &[u32], stream: usize, bit: u32, out: &mut [u32]) -> Result<usize, Refusal>
    requires { (stream < 32) × Has stream table.now × (10 ≤ bit) × (bit ≤ 30) }
    ensures { Meets on_paper (copy_of (held_words_in bit (record_at stream table.now)) out.old) out.old result out.new }
{
    copy_record(record_of(table, stream), bit, out)
}
