// Asks what standard input says with `panel::reading`, `panel::readings` and `panel::held_words`, and writes what they answer and leave.
// A case begins with what is asked: 1, a reading, by the table (n, and n words), stream and bit; 2, held words, by the same and the room of the buffer;
// 3, a sweep over every half of a word; 4, all readings, by the table and the stream.
#![tactic(auto)]

mod decimal;

use panel::FieldReading;
use std::io;
use std::io::{Read, Write};
use words::Refusal;

// A frequency: whole hertz and parts of 2^20.
fn show_frequency(output: &mut impl Write, hertz: i64, parts: u32) -> io::Result<()> {
    lines::inner::text(output, b" frequency ")?;
    lines::inner::signed(output, hertz)?;
    lines::inner::named(output, b"parts", parts as u64)
}

// A gain: both stages.
fn show_gain(output: &mut impl Write, stage1: f32, stage2: f32) -> io::Result<()> {
    lines::inner::text(output, b" gain ")?;
    decimal::print(output, stage1, 7)?;
    lines::inner::text(output, b" ")?;
    decimal::print(output, stage2, 7)
}

// A level, a multiple of 1/128.
fn show_level(output: &mut impl Write, x: f32) -> io::Result<()> {
    lines::inner::text(output, b" level ")?;
    decimal::print(output, x, 7)
}

// A temperature, a multiple of 1/64.
fn show_temperature(output: &mut impl Write, x: f32) -> io::Result<()> {
    lines::inner::text(output, b" temperature ")?;
    decimal::print(output, x, 6)
}

// What a reading shows.
fn show(output: &mut impl Write, answer: FieldReading) -> io::Result<()> {
    match answer {
        FieldReading::Frequency { hertz, parts } => show_frequency(output, hertz, parts),
        FieldReading::Level(x) => show_level(output, x),
        FieldReading::Gain(g) => show_gain(output, g.stage1, g.stage2),
        FieldReading::Temperature(x) => show_temperature(output, x),
        FieldReading::Other => lines::inner::text(output, b" other"),
        FieldReading::Absent => lines::inner::text(output, b" absent"),
    }
}

// A refusal.
fn show_refusal(output: &mut impl Write, refusal: Refusal) -> io::Result<()> {
    lines::inner::named(output, b"refused", u32::from(refusal) as u64)
}

// A reading, or its refusal.
fn show_answer(output: &mut impl Write, answer: Result<FieldReading, Refusal>) -> io::Result<()> {
    match answer {
        Ok(reading) => show(output, reading),
        Err(refusal) => show_refusal(output, refusal),
    }
}

// The reading of a table that was read.
fn ask_reading(
    input: &mut impl Read,
    output: &mut impl Write,
    k: u64,
    table: &[u32],
) -> io::Result<()> {
    let stream = lines::inner::word(input)? as usize;
    let bit = lines::inner::word(input)?;
    lines::inner::number(output, k)?;
    show_answer(output, panel::reading(table, stream, bit))?;
    lines::inner::text(output, b"\n")
}

// All readings, one after the other, or 21 times their refusal.
fn show_all(
    output: &mut impl Write,
    answer: Result<[FieldReading; 21], Refusal>,
) -> io::Result<()> {
    match answer {
        Ok(readings) => {
            for reading in readings {
                show(output, reading)?;
            }
        }
        Err(refusal) => {
            for _ in 0..21 {
                show_refusal(output, refusal)?;
            }
        }
    }
    Ok(())
}

// All readings of a stream of a table that was read.
fn ask_readings(
    input: &mut impl Read,
    output: &mut impl Write,
    k: u64,
    table: &[u32],
) -> io::Result<()> {
    let stream = lines::inner::word(input)? as usize;
    lines::inner::number(output, k)?;
    show_all(output, panel::readings(table, stream))?;
    lines::inner::text(output, b"\n")
}

// The line of `held_words`: how many, or the refusal.
fn show_copied(output: &mut impl Write, k: u64, answer: Result<usize, Refusal>) -> io::Result<()> {
    lines::inner::number(output, k)?;
    match answer {
        Ok(n) => lines::inner::named(output, b"held", n as u64)?,
        Err(refusal) => show_refusal(output, refusal)?,
    }
    lines::inner::text(output, b"\n")
}

// The held words of a table that was read, in a buffer of the room that is asked for.
fn ask_words(
    input: &mut impl Read,
    output: &mut impl Write,
    k: u64,
    table: &[u32],
    out: &mut [u32],
) -> io::Result<()> {
    let stream = lines::inner::word(input)? as usize;
    let bit = lines::inner::word(input)?;
    let room = lines::inner::word(input)? as usize;
    if out.len() < room {
        return Ok(());
    }
    lines::inner::pattern(&mut out[0..room]);
    show_copied(
        output,
        k,
        panel::held_words(table, stream, bit, &mut out[0..room]),
    )?;
    lines::inner::text(output, b"  words")?;
    lines::inner::list(output, &out[0..room])?;
    lines::inner::text(output, b"\n")
}

// The line of a half in the sweep: the three readings of its table.
fn show_half(output: &mut impl Write, h: u32, table: &[u32; 90]) -> io::Result<()> {
    lines::inner::number(output, h as u64)?;
    show_answer(output, panel::reading(table, 0, 24))?;
    show_answer(output, panel::reading(table, 0, 23))?;
    show_answer(output, panel::reading(table, 0, 18))?;
    lines::inner::text(output, b"\n")
}

// Every half as a level and a temperature, and as the first stage of a gain beside another half. The table has one stream, 7, which holds fields 24, 23 and 18.
fn sweep(output: &mut impl Write, k: u64) -> io::Result<()> {
    lines::inner::number(output, k)?;
    lines::inner::text(output, b" sweep\n")?;
    let mut table = [0u32; 90];
    table[0] = 1;
    table[1] = 7;
    table[2] = 0x0184_0000;
    table[9] = 1;
    table[11] = 1;
    for h in 0..0x1_0000 {
        table[27] = h;
        table[28] = h + h * 40503 % 0x1_0000 * 0x1_0000;
        table[35] = h;
        show_half(output, h, &table)?;
    }
    Ok(())
}

// A case that asks something of a table: reads the table first.
fn ask(
    input: &mut impl Read,
    output: &mut impl Write,
    k: u64,
    asked: u32,
    table: &mut [u32],
    out: &mut [u32],
) -> io::Result<()> {
    let n = lines::inner::word(input)? as usize;
    if table.len() < n {
        return Ok(());
    }
    lines::inner::fill(input, &mut table[0..n])?;
    if asked == 1 {
        ask_reading(input, output, k, &table[0..n])
    } else if asked == 4 {
        ask_readings(input, output, k, &table[0..n])
    } else {
        ask_words(input, output, k, &table[0..n], out)
    }
}

// Case k; whether there was one.
fn one_case(
    input: &mut impl Read,
    output: &mut impl Write,
    k: u64,
    table: &mut [u32],
    out: &mut [u32],
) -> io::Result<bool> {
    let Some(asked) = lines::inner::next_word(input)? else {
        return Ok(false);
    };
    if asked == 3 {
        sweep(output, k)?;
    } else {
        ask(input, output, k, asked, table, out)?;
    }
    Ok(true)
}

// A table here has at most 2,900 words, a buffer for held words 20.
fn main(rt: HostRuntime) -> io::Result<()> {
    let mut input = rt.stdin();
    let mut output = rt.stdout();
    let mut table_space = [0u32; 2900];
    let mut out_space = [0u32; 20];
    let table: &mut [u32] = &mut table_space;
    let out: &mut [u32] = &mut out_space;
    for k in 0..0xFFFF_FFFF {
        if !one_case(&mut input, &mut output, k, table, out)? {
            break;
        }
    }
    Ok(())
}
