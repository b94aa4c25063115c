// What the panel shows of a stream's fields, one by one and all at once, and their held words.
ghost use Rattle.std.specs.Prelude.{replicate, ◌≡◌, ◌++◌, ◌+◌, ◌-◌, ◌*◌, ◌<◌, take};
ghost use Rattle.record.specs.Held.{slot_at};
ghost use Rattle.table.specs.Layout.{Has, record_at};
ghost use Rattle.panel.specs.Readings.{absent, reading_of, shown_in};
ghost use Rattle.panel.specs.AllReadings.{record_readings, readings_of};
ghost use Rattle.panel.specs.HeldWords.{held_words_of};
ghost use Rattle.vrt49.specs.Answers.{Tells, plain, beside};
ghost use Rattle.vrt49.specs.Readings.{levelled_of, numbers_of, reading_values, readings_values};

// A reading as numbers, as the interface for C has it. A frequency has its parts and its whole hertz; a level and a temperature have `first`; a gain has its two stages, `first` and `second`. The
// numbers that a kind of reading has not are zero.
#[derive(Clone, Copy)]
pub struct Values {
    pub kind: u32,
    pub parts: u32,
    pub hertz: i64,
    pub first: f32,
    pub second: f32,
}

// The numbers of a reading that is no frequency.
fn levelled(kind: u32, first: f32, second: f32) -> Values
    ensures { result ≡ levelled_of kind first second }
{
    Values {
        kind,
        parts: 0,
        hertz: 0,
        first,
        second,
    }
}

// The numbers of a reading.
fn numbers_of(dial: panel::FieldReading) -> Values
    ensures { result ≡ numbers_of (shown_in dial) }
{
    match dial {
        panel::FieldReading::Frequency { hertz, parts } => Values {
            kind: 1,
            parts,
            hertz,
            first: 0.0,
            second: 0.0,
        },
        panel::FieldReading::Level(x) => levelled(2, x, 0.0),
        panel::FieldReading::Gain(g) => levelled(3, g.stage1, g.stage2),
        panel::FieldReading::Temperature(x) => levelled(4, x, 0.0),
        panel::FieldReading::Other => levelled(5, 0.0, 0.0),
        panel::FieldReading::Absent => levelled(6, 0.0, 0.0),
    }
}

// Seven rows of the columns, those from entry 7 * part on, where the rows before them are there and the others are those of absent fields. Each field is read
// and its numbers are stored where the caller wants them, the five columns of the interface for C, since arrays would be copied on their way. The place among the slots runs along; gives that of the
// next part.
fn rows_of(
    table: &[u32],
    stream: usize,
    part: usize,
    slot: usize,
    kinds: &mut [u32; 21],
    parts: &mut [u32; 21],
    hertz: &mut [i64; 21],
    first: &mut [f32; 21],
    second: &mut [f32; 21],
) -> usize
    requires { (stream < 32) × Has stream table.now × (part < 3) × (slot ≡ slot_at (30 - 7 * part)) × ((kinds.old, parts.old, hertz.old, first.old, second.old) ≡ readings_values (take (7 * part) (record_readings (record_at stream table.now)) ++ replicate (21 - 7 * part) absent)) }
    ensures { (result ≡ slot_at (30 - 7 * (part + 1))) × ((kinds.new, parts.new, hertz.new, first.new, second.new) ≡ readings_values (take (7 * (part + 1)) (record_readings (record_at stream table.now)) ++ replicate (21 - 7 * (part + 1)) absent)) }
{
    let mut next = slot;
    for i in 7 * part..7 * part + 7 {
        let bit = 30 - i as u32;
        let v = numbers_of(panel::inner::show_at(table, stream, bit, next));
        next += fields::inner::field_size(bit);
        kinds[i] = v.kind;
        parts[i] = v.parts;
        let whole = v.hertz;
        hertz[i] = whole;
        first[i] = v.first;
        second[i] = v.second;
    }
    next
}

// The columns of a stream's record, three times seven rows: the compiler unrolls loops of so few turns, and then knows the kind, the size and the place of each
// field. It does so where `rows_of` is called in one place only, since it is then put in line. The columns are first those of absent fields.
fn columns_of(
    table: &[u32],
    stream: usize,
    kinds: &mut [u32; 21],
    parts: &mut [u32; 21],
    hertz: &mut [i64; 21],
    first: &mut [f32; 21],
    second: &mut [f32; 21],
)
    requires { (stream < 32) × Has stream table.now }
    ensures { (kinds.new, parts.new, hertz.new, first.new, second.new) ≡ readings_values (record_readings (record_at stream table.now)) }
{
    *kinds = [6; 21];
    *parts = [0; 21];
    *hertz = [0; 21];
    *first = [0.0; 21];
    *second = [0.0; 21];
    let mut slot = 0;
    for part in 0..3 {
        slot = rows_of(
            table, stream, part, slot, kinds, parts, hertz, first, second,
        );
    }
}

// What the panel shows of a stream's field; answers TABLE, STREAM or VALUE. The kind, the parts, the whole hertz, and two levels.
pub fn vrt49_reading(
    table: &[u32],
    stream: usize,
    bit: u32,
    kind: &mut u32,
    parts: &mut u32,
    hertz: &mut i64,
    levels: &mut [f32; 2],
) -> u32
    ensures { Tells reading_values (reading_of table.now stream bit) (kind.old, parts.old, hertz.old, levels.old) result (kind.new, parts.new, hertz.new, levels.new) }
{
    match panel::reading(table, stream, bit) {
        Err(refusal) => u32::from(refusal),
        Ok(dial) => {
            let v = numbers_of(dial);
            *kind = v.kind;
            *parts = v.parts;
            let whole = v.hertz;
            *hertz = whole;
            *levels = [v.first, v.second];
            0
        }
    }
}

// What the panel shows of every field of a stream; answers TABLE or STREAM. Each number of a reading has a column, whose entry i is of bit 30 - i.
pub fn vrt49_readings(
    table: &[u32],
    stream: usize,
    kinds: &mut [u32; 21],
    parts: &mut [u32; 21],
    hertz: &mut [i64; 21],
    first: &mut [f32; 21],
    second: &mut [f32; 21],
) -> u32
    ensures { Tells readings_values (readings_of table.now stream) (kinds.old, parts.old, hertz.old, first.old, second.old) result (kinds.new, parts.new, hertz.new, first.new, second.new) }
{
    match table::inner::check_stream(table, stream) {
        Err(refusal) => u32::from(refusal),
        Ok(_) => {
            columns_of(table, stream, kinds, parts, hertz, first, second);
            0
        }
    }
}

// The held words of a stream's field, at the front of a buffer; answers TABLE, STREAM, VALUE or ROOM. `length` takes how many.
pub fn vrt49_held_words(
    table: &[u32],
    stream: usize,
    bit: u32,
    out: &mut [u32],
    length: &mut usize,
) -> u32
    ensures { Tells (beside plain) (held_words_of table.now stream bit out.old) (out.old, length.old) result (out.new, length.new) }
{
    crate::answers::give_value(panel::held_words(table, stream, bit, out), length)
}
