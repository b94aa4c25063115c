// What the panel shows of a stream's fields, one by one and all at once, and their held words.
ghost use Rattle.panel.specs.Readings.{reading_of};
ghost use Rattle.panel.specs.AllReadings.{readings_of};
ghost use Rattle.panel.specs.HeldWords.{held_words_of};
ghost use Rattle.vrt49.specs.Answers.{Tells, plain, beside};
ghost use Rattle.vrt49.specs.Readings.{reading_values, readings_values};

#[unsafe(no_mangle)]
pub extern "C" fn vrt49_reading(
    table: &[u32],
    stream: usize,
    bit: u32,
    kind: &mut u32,
    parts: &mut u32,
    hertz: &mut i64,
    levels: &mut [f32; 2],
) -> u32
    ensures { Tells reading_values (reading_of table.now stream bit) (kind.old, parts.old, hertz.old, levels.old) result (kind.new, parts.new, hertz.new, levels.new) }
{
    vrt49::vrt49_reading(table, stream, bit, kind, parts, hertz, levels)
}

#[unsafe(no_mangle)]
pub extern "C" fn vrt49_readings(
    table: &[u32],
    stream: usize,
    kinds: &mut [u32; 21],
    parts: &mut [u32; 21],
    hertz: &mut [i64; 21],
    first: &mut [f32; 21],
    second: &mut [f32; 21],
) -> u32
    ensures { Tells readings_values (readings_of table.now stream) (kinds.old, parts.old, hertz.old, first.old, second.old) result (kinds.new, parts.new, hertz.new, first.new, second.new) }
{
    vrt49::vrt49_readings(table, stream, kinds, parts, hertz, first, second)
}

#[unsafe(no_mangle)]
pub extern "C" fn vrt49_held_words(
    table: &[u32],
    stream: usize,
    bit: u32,
    out: &mut [u32],
    length: &mut usize,
) -> u32
    ensures { Tells (beside plain) (held_words_of table.now stream bit out.old) (out.old, length.old) result (out.new, length.new) }
{
    vrt49::vrt49_held_words(table, stream, bit, out, length)
}
