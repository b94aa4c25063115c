// A recording that is stopped and resumed: played on one table up to a cut, saved, put back into a second table, and played on.
use play::Heard;
use std::io;
use std::io::{Read, Write};
use words::RefusedAt;

// Where a walk over the packets stands, and the check number of their answers so far.
#[derive(Clone, Copy)]
pub struct Walk {
    pub at: usize,
    pub answers: u32,
}

// The check number after a packet: five words, 0, size, type, stream and missing, or of a refusal its number, 0, its word, its bit or 0, and 0.
fn fold_answer(y: u32, answer: Result<Heard, RefusedAt>) -> u32 {
    match answer {
        Ok(h) => {
            let size = lines::inner::folded(lines::inner::folded(y, 0), h.size as u64);
            let kind = lines::inner::folded(size, h.kind as u64);
            let stream = lines::inner::folded(kind, h.stream as u64);
            lines::inner::folded(stream, h.missing as u64)
        }
        Err(r) => {
            let place = r.place;
            let size = lines::inner::folded(
                lines::inner::folded(y, u32::from(r.refusal) as u64),
                0,
            );
            let word = lines::inner::folded(size, words::inner::place_word(place) as u64);
            let bit = lines::inner::folded(word, words::inner::place_bit(place) as u64);
            lines::inner::folded(bit, 0)
        }
    }
}

// Plays the packet where the walk stands: one word n, and n words.
fn play_next(table: &mut [u32], ws: &[u32], walk: Walk) -> Walk {
    let at = walk.at;
    if ws.len() <= at {
        return walk;
    }
    let from = at + 1;
    let end = from + words::inner::word_at(ws, at) as usize;
    if ws.len() < end {
        return walk;
    }
    let answer = play::play(table, &ws[from..end]);
    Walk {
        at: end,
        answers: fold_answer(walk.answers, answer),
    }
}

// Plays some packets, from where the walk stands on.
fn play_part(table: &mut [u32], ws: &[u32], from: Walk, packets: u32) -> Walk {
    let mut walk = from;
    for _ in 0..packets {
        walk = play_next(table, ws, walk);
    }
    walk
}

// Puts the page back into the second table, and plays the packets that are left.
fn resume(
    output: &mut impl Write,
    page: &[u32],
    table: &mut [u32],
    ws: &[u32],
    walk: Walk,
    packets: u32,
) -> io::Result<()> {
    match page::put_back(page, table) {
        Ok(length) => {
            lines::inner::named(output, b"put", length as u64)?;
            let end = play_part(table, ws, walk, packets);
            lines::inner::named(output, b"answers", end.answers as u64)?;
            crate::showing::show_table(output, length, table)
        }
        Err(refusal) => lines::inner::named(output, b"put refused", u32::from(refusal) as u64),
    }
}

// Saves the first table, puts its page back into the second, and plays the packets that are left.
fn stop(
    output: &mut impl Write,
    first: &[u32],
    page: &mut [u32],
    second: &mut [u32],
    ws: &[u32],
    walk: Walk,
    packets: u32,
) -> io::Result<()> {
    let answer = page::save(first, page);
    crate::showing::show_saved(output, answer, page)?;
    let Ok(length) = answer else {
        return Ok(());
    };
    if page.len() < length {
        return Ok(());
    }
    resume(output, &page[0..length], second, ws, walk, packets)
}

// Plays the packets before a cut on the first table, and stops there.
fn play_cut(
    output: &mut impl Write,
    first: &mut [u32],
    page: &mut [u32],
    second: &mut [u32],
    ws: &[u32],
    cut: u32,
    packets: u32,
) -> io::Result<()> {
    if packets < cut {
        return Ok(());
    }
    let start = Walk { at: 0, answers: 0 };
    let walk = play_part(first, ws, start, cut);
    stop(output, first, page, second, ws, walk, packets - cut)
}

// The line of a cut. The list has the identifiers, and then as many choices.
fn one_cut(
    input: &mut impl Read,
    output: &mut impl Write,
    list: &[u32],
    first: &mut [u32],
    page: &mut [u32],
    second: &mut [u32],
    ws: &[u32],
    packets: u32,
) -> io::Result<()> {
    let cut = lines::inner::word(input)?;
    lines::inner::text(output, b" ")?;
    lines::inner::named(output, b"cut", cut as u64)?;
    lines::inner::pattern(first);
    lines::inner::pattern(page);
    lines::inner::pattern(second);
    let n = list.len() / 2;
    let _ = table::start(&list[0..n], &list[n..], first);
    play_cut(output, first, page, second, ws, cut, packets)?;
    crate::showing::end_line(output)
}

// The cuts of a recording.
fn all_cuts(
    input: &mut impl Read,
    output: &mut impl Write,
    list: &[u32],
    first: &mut [u32],
    page: &mut [u32],
    second: &mut [u32],
    ws: &[u32],
    packets: u32,
) -> io::Result<()> {
    let cuts = lines::inner::word(input)?;
    for _ in 0..cuts {
        one_cut(input, output, list, first, page, second, ws, packets)?;
    }
    Ok(())
}

// The packets of a recording, and its cuts.
fn read_packets(
    input: &mut impl Read,
    output: &mut impl Write,
    list: &[u32],
    first: &mut [u32],
    page: &mut [u32],
    second: &mut [u32],
    ws: &mut [u32],
) -> io::Result<()> {
    let packets = lines::inner::word(input)?;
    let n = lines::inner::word(input)? as usize;
    if ws.len() < n {
        return Ok(());
    }
    lines::inner::fill(input, &mut ws[0..n])?;
    all_cuts(input, output, list, first, page, second, &ws[0..n], packets)
}

// The identifiers and the choices of a recording, its packets, and its cuts.
fn read_list(
    input: &mut impl Read,
    output: &mut impl Write,
    list: &mut [u32],
    first: &mut [u32],
    page: &mut [u32],
    second: &mut [u32],
    ws: &mut [u32],
) -> io::Result<()> {
    let n = 2 * lines::inner::word(input)? as usize;
    if list.len() < n {
        return Ok(());
    }
    lines::inner::fill(input, &mut list[0..n])?;
    read_packets(input, output, &list[0..n], first, page, second, ws)
}

// A recording: the rooms of the two tables, its list, its packets, and its cuts.
pub fn recording(
    input: &mut impl Read,
    output: &mut impl Write,
    list: &mut [u32],
    first: &mut [u32],
    page: &mut [u32],
    second: &mut [u32],
    ws: &mut [u32],
) -> io::Result<()> {
    lines::inner::text(output, b" recording\n")?;
    let room = lines::inner::word(input)? as usize;
    let other = lines::inner::word(input)? as usize;
    if first.len() < room {
        return Ok(());
    }
    if second.len() < other {
        return Ok(());
    }
    read_list(
        input,
        output,
        list,
        &mut first[0..room],
        page,
        &mut second[0..other],
        ws,
    )
}
