// Asks what standard input says with the calls of `panel_streams`, and writes what they answer and leave.
// A case begins with what is asked: 1, an identity, by the table (n, and n words) and stream; 2, counts, by the same and the type; 3, an own table, by the table,
// the stream and the room of the buffer; 4, changed fields, by two tables, each with its stream.
#![tactic(auto)]

use panel_streams::{Identity, TypeCounts};
use std::io;
use std::io::{Read, Write};
use words::Refusal;

// The refusal of a case.
fn show_refusal(output: &mut impl Write, refusal: Refusal) -> io::Result<()> {
    lines::inner::named(output, b"refused", u32::from(refusal) as u64)
}

// An identifier, a choice and a held indicator.
fn show_identity(output: &mut impl Write, who: Identity) -> io::Result<()> {
    lines::inner::named(output, b"identifier", who.identifier as u64)?;
    lines::inner::named(output, b"choice", who.choice as u64)?;
    lines::inner::named(output, b"held", who.held as u64)
}

// A count that has started.
fn show_counts(output: &mut impl Write, counts: TypeCounts) -> io::Result<()> {
    lines::inner::text(output, b" started")?;
    lines::inner::named(output, b"seen", counts.seen as u64)?;
    lines::inner::named(output, b"missing", counts.missing as u64)?;
    lines::inner::named(output, b"last", counts.last as u64)
}

// The identity of a stream of a table that was read.
fn ask_identity(
    input: &mut impl Read,
    output: &mut impl Write,
    k: u64,
    table: &[u32],
) -> io::Result<()> {
    let stream = lines::inner::word(input)? as usize;
    lines::inner::number(output, k)?;
    match panel_streams::identity(table, stream) {
        Ok(who) => show_identity(output, who)?,
        Err(refusal) => show_refusal(output, refusal)?,
    }
    lines::inner::text(output, b"\n")
}

// What a stream of a table that was read counted of a type.
fn ask_counts(
    input: &mut impl Read,
    output: &mut impl Write,
    k: u64,
    table: &[u32],
) -> io::Result<()> {
    let stream = lines::inner::word(input)? as usize;
    let kind = lines::inner::word(input)?;
    lines::inner::number(output, k)?;
    match panel_streams::counts(table, stream, kind) {
        Ok(Some(counts)) => show_counts(output, counts)?,
        Ok(None) => lines::inner::text(output, b" not started")?,
        Err(refusal) => show_refusal(output, refusal)?,
    }
    lines::inner::text(output, b"\n")
}

// The line of `own_table`: the words of the layout, or the refusal.
fn show_own(output: &mut impl Write, k: u64, answer: Result<usize, Refusal>) -> io::Result<()> {
    lines::inner::number(output, k)?;
    match answer {
        Ok(n) => lines::inner::named(output, b"table", n as u64)?,
        Err(refusal) => show_refusal(output, refusal)?,
    }
    lines::inner::text(output, b"\n")
}

// The own table of a stream of a table that was read, in a buffer of the room that is asked for.
fn ask_own(
    input: &mut impl Read,
    output: &mut impl Write,
    k: u64,
    table: &[u32],
    out: &mut [u32],
) -> io::Result<()> {
    let stream = lines::inner::word(input)? as usize;
    let room = lines::inner::word(input)? as usize;
    if out.len() < room {
        return Ok(());
    }
    lines::inner::pattern(&mut out[0..room]);
    show_own(
        output,
        k,
        panel_streams::own_table(table, stream, &mut out[0..room]),
    )?;
    lines::inner::text(output, b"  words")?;
    lines::inner::list(output, &out[0..room])?;
    lines::inner::text(output, b"\n")
}

// The changed fields of two tables, of which the first was read.
fn ask_changed(
    input: &mut impl Read,
    output: &mut impl Write,
    k: u64,
    before: &[u32],
    after: &mut [u32],
) -> io::Result<()> {
    let stream = lines::inner::word(input)? as usize;
    let n = lines::inner::word(input)? as usize;
    if after.len() < n {
        return Ok(());
    }
    lines::inner::fill(input, &mut after[0..n])?;
    let other = lines::inner::word(input)? as usize;
    lines::inner::number(output, k)?;
    match panel_streams::changed(before, stream, &after[0..n], other) {
        Ok(bits) => lines::inner::named(output, b"changed", bits as u64)?,
        Err(refusal) => show_refusal(output, refusal)?,
    }
    lines::inner::text(output, b"\n")
}

// What is asked of a table that was read.
fn ask(
    input: &mut impl Read,
    output: &mut impl Write,
    k: u64,
    asked: u32,
    table: &[u32],
    more: &mut [u32],
    out: &mut [u32],
) -> io::Result<()> {
    if asked == 1 {
        ask_identity(input, output, k, table)
    } else if asked == 2 {
        ask_counts(input, output, k, table)
    } else if asked == 3 {
        ask_own(input, output, k, table, out)
    } else {
        ask_changed(input, output, k, table, more)
    }
}

// Case k; whether there was one.
fn one_case(
    input: &mut impl Read,
    output: &mut impl Write,
    k: u64,
    table: &mut [u32],
    more: &mut [u32],
    out: &mut [u32],
) -> io::Result<bool> {
    let Some(asked) = lines::inner::next_word(input)? else {
        return Ok(false);
    };
    let n = lines::inner::word(input)? as usize;
    if table.len() < n {
        return Ok(false);
    }
    lines::inner::fill(input, &mut table[0..n])?;
    ask(input, output, k, asked, &table[0..n], more, out)?;
    Ok(true)
}

// A table here has at most 2,900 words, a buffer for an own table 200.
fn main(rt: HostRuntime) -> io::Result<()> {
    let mut input = rt.stdin();
    let mut output = rt.stdout();
    let mut table_space = [0u32; 2900];
    let mut more_space = [0u32; 2900];
    let mut out_space = [0u32; 200];
    let table: &mut [u32] = &mut table_space;
    let more: &mut [u32] = &mut more_space;
    let out: &mut [u32] = &mut out_space;
    for k in 0..0xFFFF_FFFF {
        if !one_case(&mut input, &mut output, k, table, more, out)? {
            break;
        }
    }
    Ok(())
}
