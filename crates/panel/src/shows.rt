// What the words of a field show.
ghost use Rattle.std.specs.Prelude.{◌≡◌, ◌≤◌, length};
ghost use Rattle.record.specs.Held.{slot_at};
ghost use Rattle.record.specs.Layout.{record_words};
ghost use Rattle.panel.specs.Readings.{is_frequency, record_shows, shown_in};

use crate::{FieldReading, Stages};

// Whether the field of a bit is a frequency.
fn is_frequency(bit: u32) -> bool
    ensures { result ≡ is_frequency bit }
{
    matches!(bit, 21 | 25..=29)
}

// What the field of a bit, whose slot is at a place among the slots, shows in a record. It is put in line where one field is read and where all are: the loop
// over all fields then knows each bit (docs/DECISIONS.md, 72).
#[inline(always)]
pub fn show_in(rec: &[u32], bit: u32, slot: usize) -> FieldReading
    requires { (length rec.now ≡ record_words) × (10 ≤ bit) × (bit ≤ 30) × (slot ≡ slot_at bit) }
    ensures { shown_in result ≡ record_shows bit rec.now }
{
    if !record::inner::is_held(rec, bit) {
        return FieldReading::Absent;
    }
    let at = record::inner::HEAD_WORDS + slot;
    let first = words::inner::word_at(rec, at);
    if is_frequency(bit) {
        let low = words::inner::word_at(rec, at + 1);
        return FieldReading::Frequency {
            hertz: crate::values::whole_hertz(crate::values::units(first, low)),
            parts: low % 0x10_0000,
        };
    }
    match bit {
        24 => FieldReading::Level(crate::values::decibels(first % 0x1_0000)),
        23 => FieldReading::Gain(Stages {
            stage1: crate::values::decibels(first % 0x1_0000),
            stage2: crate::values::decibels(first / 0x1_0000 % 0x1_0000),
        }),
        18 => FieldReading::Temperature(crate::values::degrees(first % 0x1_0000)),
        _ => FieldReading::Other,
    }
}
