// Plays a recording from standard input, as document 01 says of `vrtplay`: big-endian words, S, S identifiers, packets. It writes a line for each packet,
// each by one write.
#![tactic(auto)]

ghost use Rattle.std.specs.Prelude.{◌≡◌, true, ◌*◌, ◌≤◌, length};
ghost use Rattle.table.specs.Well.{well_made};

use lines::inner::Line;
use play::Heard;
use std::io;
use std::io::Write;
use words::{Refusal, RefusedAt};

// The words of bytes, four for each.
fn words_of(ws: &mut [u32], bytes: &[u8])
    requires { 4 * length ws.old ≤ length bytes.now }
{
    for i in 0..ws.len() {
        let at = 4 * i;
        ws[i] = lines::inner::big_endian(bytes[at], bytes[at + 1], bytes[at + 2], bytes[at + 3]);
    }
}

// The line of a packet that was refused: the number, and the word of the packet that was disliked. On a table that is well made each refusal has one.
fn show_refused(output: &mut impl Write, at: usize, r: RefusedAt) -> io::Result<()> {
    let place = r.place;
    Line::new(output)
        .text(b"at ")?
        .number(at as u64)?
        .named(b"refused", u32::from(r.refusal) as u64)?
        .named(b"place", words::inner::place_word(place) as u64)?
        .text(b"\n")?
        .write()
}

// The line of a packet that was played.
fn show_heard(output: &mut impl Write, at: usize, h: Heard) -> io::Result<()> {
    Line::new(output)
        .text(b"at ")?
        .number(at as u64)?
        .named(b"type", h.kind as u64)?
        .named(b"stream", h.stream as u64)?
        .named(b"missing", h.missing as u64)?
        .text(b"\n")?
        .write()
}

// The line of the packet at a place.
fn show_played(
    output: &mut impl Write,
    at: usize,
    answer: Result<Heard, RefusedAt>,
) -> io::Result<()> {
    match answer {
        Ok(h) => show_heard(output, at, h),
        Err(r) => show_refused(output, at, r),
    }
}

// The last line: the stopping place, and the bytes modulo 4.
fn show_end(output: &mut impl Write, at: usize, tail: usize) -> io::Result<()> {
    Line::new(output)
        .text(b"end ")?
        .number(at as u64)?
        .named(b"tail", tail as u64)?
        .text(b"\n")?
        .write()
}

// Walks the packets from a place on, on a table that is well made. Gives the place where the walk stops.
fn walk(output: &mut impl Write, table: &mut [u32], ws: &[u32], from: usize) -> io::Result<usize>
    requires { well_made table.old ≡ true }
{
    let mut at = from;
    while at < ws.len() {
        let s = play::inner::step(table, ws, at);
        let answer = s.answer;
        show_played(output, at, answer)?;
        let Some(next) = s.next else {
            return Ok(at);
        };
        at = next;
    }
    Ok(at)
}

// A list that is refused, or not there: the walk does not begin.
fn refuse_list(output: &mut impl Write) -> io::Result<usize> {
    Line::new(output)
        .text(b"at 0")?
        .named(b"refused", u32::from(Refusal::List) as u64)?
        .text(b"\n")?
        .write()?;
    Ok(0)
}

// Starts a table for the S identifiers behind word 0, each with the choice of plain 49.0, and walks the packets after them. Gives the place where the walk
// stops. A list has at most 32 identifiers.
fn play_packets(
    output: &mut impl Write,
    table: &mut [u32],
    ws: &[u32],
    s: u32,
) -> io::Result<usize> {
    let streams = s as usize;
    if ws.len() <= streams {
        return refuse_list(output);
    }
    if 32 < streams {
        return refuse_list(output);
    }
    let plain = [0u32; 32];
    let first = 1 + streams;
    match table::start(&ws[1..first], &plain[0..streams], table) {
        Ok(_) => walk(output, table, ws, first),
        Err(_) => refuse_list(output),
    }
}

// A recording: S, S identifiers, packets.
fn play_words(output: &mut impl Write, ws: &[u32]) -> io::Result<usize> {
    if ws.len() == 0 {
        return refuse_list(output);
    }
    let mut space = [0u32; 2849];
    let table: &mut [u32] = &mut space;
    play_packets(output, table, ws, ws[0])
}

// Reads up to 65,536 bytes, plays them, and writes where it stopped.
fn main(rt: HostRuntime) -> io::Result<()> {
    let mut input = rt.stdin();
    let mut output = rt.stdout();
    let mut byte_space = [0u8; 65536];
    let bytes: &mut [u8] = &mut byte_space;
    let mut word_space = [0u32; 16384];
    let ws: &mut [u32] = &mut word_space;
    let n = lines::inner::read_full(&mut input, bytes)?;
    let whole = n / 4;
    words_of(&mut ws[0..whole], bytes);
    let recording: &[u32] = ws;
    let end = play_words(&mut output, &recording[0..whole])?;
    show_end(&mut output, end, n % 4)
}
