// Plays the recordings of standard input with `table::start` and `play::play`, and writes what they answer and the table that they leave.
// A recording is the room of the table, S and S identifiers, C and C choices, D and D stores (place, word) after the start, P, and P packets (n, and n words).
#![tactic(auto)]

use play::Heard;
use std::io;
use std::io::{Read, Write};
use words::RefusedAt;

// The line of a table that was played on: the words of its layout.
fn show_table(output: &mut impl Write, table: &[u32], length: usize) -> io::Result<()> {
    if table.len() < length {
        return Ok(());
    }
    lines::inner::text(output, b"  table")?;
    lines::inner::list(output, &table[0..length])?;
    lines::inner::text(output, b"\n")
}

// The line of the words past a place: their sum, modulo 2^32.
fn show_past(output: &mut impl Write, table: &[u32], from: usize) -> io::Result<()> {
    if table.len() < from {
        return Ok(());
    }
    lines::inner::text(output, b"  past ")?;
    lines::inner::number(output, lines::inner::sum_of(&table[from..]) as u64)?;
    lines::inner::text(output, b"\n")
}

// The line of packet j.
fn show_played(
    output: &mut impl Write,
    j: u64,
    answer: Result<Heard, RefusedAt>,
) -> io::Result<()> {
    lines::inner::text(output, b"  ")?;
    lines::inner::number(output, j)?;
    match answer {
        Ok(h) => {
            lines::inner::named(output, b"type", h.kind as u64)?;
            lines::inner::named(output, b"stream", h.stream as u64)?;
            lines::inner::named(output, b"missing", h.missing as u64)?;
            lines::inner::named(output, b"size", h.size as u64)?;
        }
        Err(r) => lines::inner::show_refusal(output, u32::from(r.refusal), r.place)?,
    }
    lines::inner::text(output, b"\n")
}

// Stores a word at a place, where there is one.
fn store_one(table: &mut [u32], at: usize, w: u32) {
    if at < table.len() {
        table[at] = w;
    }
}

// The stores after a start: each a place and a word.
fn store(input: &mut impl Read, table: &mut [u32], stores: u32) -> io::Result<()> {
    for _ in 0..stores {
        let at = lines::inner::word(input)? as usize;
        store_one(table, at, lines::inner::word(input)?);
    }
    Ok(())
}

// Plays the next packet of the input.
fn play_next(
    input: &mut impl Read,
    output: &mut impl Write,
    j: u64,
    table: &mut [u32],
    ws: &mut [u32],
) -> io::Result<()> {
    let n = lines::inner::word(input)? as usize;
    if ws.len() < n {
        return Ok(());
    }
    lines::inner::fill(input, &mut ws[0..n])?;
    show_played(output, j, play::play(table, &ws[0..n]))
}

// Plays the packets of a recording.
fn play_all(
    input: &mut impl Read,
    output: &mut impl Write,
    table: &mut [u32],
    ws: &mut [u32],
    packets: u32,
) -> io::Result<()> {
    for j in 0..packets {
        play_next(input, output, j as u64, table, ws)?;
    }
    Ok(())
}

// Passes over the next n words of the input.
fn skip(input: &mut impl Read, n: u32) -> io::Result<()> {
    for _ in 0..n {
        lines::inner::word(input)?;
    }
    Ok(())
}

// Passes over the packets of a recording that is not played.
fn skip_packets(input: &mut impl Read, packets: u32) -> io::Result<()> {
    for _ in 0..packets {
        let n = lines::inner::word(input)?;
        skip(input, n)?;
    }
    Ok(())
}

// A recording whose table was started: stores, packets, and the table afterwards.
fn play_recording(
    input: &mut impl Read,
    output: &mut impl Write,
    length: usize,
    table: &mut [u32],
    ws: &mut [u32],
) -> io::Result<()> {
    lines::inner::named(output, b"started", length as u64)?;
    lines::inner::text(output, b"\n")?;
    let stores = lines::inner::word(input)?;
    store(input, table, stores)?;
    let packets = lines::inner::word(input)?;
    play_all(input, output, table, ws, packets)?;
    show_table(output, table, length)?;
    show_past(output, table, length)
}

// A recording whose table was refused.
fn pass_over(
    input: &mut impl Read,
    output: &mut impl Write,
    n: u32,
    table: &[u32],
) -> io::Result<()> {
    lines::inner::named(output, b"refused", n as u64)?;
    lines::inner::text(output, b"\n")?;
    show_past(output, table, 0)?;
    let stores = lines::inner::word(input)?;
    if stores < 0x8000_0000 {
        skip(input, 2 * stores)?;
    }
    let packets = lines::inner::word(input)?;
    skip_packets(input, packets)
}

// Starts a table for a list, and plays the recording.
fn recording(
    input: &mut impl Read,
    output: &mut impl Write,
    ids: &[u32],
    choices: &[u32],
    table: &mut [u32],
    ws: &mut [u32],
) -> io::Result<()> {
    lines::inner::pattern(table);
    match table::start(ids, choices, table) {
        Ok(length) => play_recording(input, output, length, table, ws),
        Err(refusal) => pass_over(input, output, u32::from(refusal), table),
    }
}

// Reads the next list of the input, S identifiers and C choices, and plays its recording.
fn listed(
    input: &mut impl Read,
    output: &mut impl Write,
    table: &mut [u32],
    ids: &mut [u32],
    choices: &mut [u32],
    ws: &mut [u32],
) -> io::Result<()> {
    let n = lines::inner::word(input)? as usize;
    if ids.len() < n {
        return Ok(());
    }
    lines::inner::fill(input, &mut ids[0..n])?;
    let m = lines::inner::word(input)? as usize;
    if choices.len() < m {
        return Ok(());
    }
    lines::inner::fill(input, &mut choices[0..m])?;
    recording(input, output, &ids[0..n], &choices[0..m], table, ws)
}

// Plays recording k; whether there was one.
fn one_case(
    input: &mut impl Read,
    output: &mut impl Write,
    k: u64,
    table: &mut [u32],
    ids: &mut [u32],
    choices: &mut [u32],
    ws: &mut [u32],
) -> io::Result<bool> {
    let Some(w) = lines::inner::next_word(input)? else {
        return Ok(false);
    };
    let room = w as usize;
    if table.len() < room {
        return Ok(false);
    }
    lines::inner::number(output, k)?;
    listed(input, output, &mut table[0..room], ids, choices, ws)?;
    Ok(true)
}

// A table has at most 2,900 words; a packet here at most 4,096.
fn main(rt: HostRuntime) -> io::Result<()> {
    let mut input = rt.stdin();
    let mut output = rt.stdout();
    let mut table_space = [0u32; 2900];
    let mut id_space = [0u32; 64];
    let mut choice_space = [0u32; 64];
    let mut word_space = [0u32; 4096];
    let table: &mut [u32] = &mut table_space;
    let ids: &mut [u32] = &mut id_space;
    let choices: &mut [u32] = &mut choice_space;
    let ws: &mut [u32] = &mut word_space;
    for k in 0..0xFFFF_FFFF {
        if !one_case(&mut input, &mut output, k, table, ids, choices, ws)? {
            break;
        }
    }
    Ok(())
}
