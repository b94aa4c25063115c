// Readings for the panel: what a stream's held fields show, and the held words themselves.
#![tactic(auto)]

mod asked;
pub mod inner;
mod records;
mod shows;
mod values;

ghost use Rattle.std.specs.Prelude.{◌≡◌};
ghost use Rattle.words.specs.Listed.{on_paper};
ghost use Rattle.words.specs.Outcome.{Meets};
ghost use Rattle.panel.specs.Readings.{reading_of, reading_paper};
ghost use Rattle.panel.specs.AllReadings.{readings_of, readings_paper};
ghost use Rattle.panel.specs.HeldWords.{held_words_of};

use words::Refusal;

// The two stages of a gain.
#[derive(Clone, Copy)]
pub struct Stages {
    pub stage1: f32,
    pub stage2: f32,
}

// What a reading shows: whole hertz rounded down and parts of 2^20, a level, both stages of a gain, a temperature, a field of which no more is said, or no
// field.
#[derive(Clone, Copy)]
pub enum FieldReading {
    Frequency { hertz: i64, parts: u32 },
    Level(f32),
    Gain(Stages),
    Temperature(f32),
    Other,
    Absent,
}

// What the field of a bit shows in a stream's record. TABLE for a table that is not well made, STREAM for a stream number that is not in it, VALUE for a bit
// that is not 30 to 10.
pub fn reading(table: &[u32], stream: usize, bit: u32) -> Result<FieldReading, Refusal>
    ensures { reading_paper result ≡ reading_of table.now stream bit }
{
    asked::check(table, stream, bit)?;
    Ok(records::read_at(table, stream, bit))
}

// What each field of a stream shows: entry i is the reading of bit 30 - i. TABLE and STREAM as for a reading.
pub fn readings(table: &[u32], stream: usize) -> Result<[FieldReading; 21], Refusal>
    ensures { readings_paper result ≡ readings_of table.now stream }
{
    table::inner::check_stream(table, stream)?;
    Ok(records::read_all_at(table, stream))
}

// The words of a field that a stream holds, at the front of out; answers how many, 0 where the field is absent. TABLE, STREAM and VALUE as for a reading, then
// ROOM where out is shorter. Other words of out stay.
pub fn held_words(table: &[u32], stream: usize, bit: u32, out: &mut [u32]) -> Result<usize, Refusal>
    ensures { Meets on_paper (held_words_of table.now stream bit out.old) out.old result out.new }
{
    asked::check(table, stream, bit)?;
    records::copy_at(table, stream, bit, out)
}
