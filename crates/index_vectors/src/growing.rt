// An index that is started, and grown packet by packet.
use crate::State;
use index_grow::Taken;
use std::io;
use std::io::{Read, Write};
use words::{Refusal, RefusedAt};

// Where growing stands: the packets taken in, and how many of them were undeclared; the check number of their answers; the place in the recording; and the
// refusal that ended it.
#[derive(Clone, Copy)]
pub struct Growth {
    pub taken: u32,
    pub undeclared: u32,
    pub answers: u32,
    pub at: usize,
    pub ended: Option<RefusedAt>,
}

// Starts the index with the table.
pub fn start(
    output: &mut impl Write,
    s: State,
    table: &[u32],
    index: &mut [u32],
) -> io::Result<State> {
    let answer = index::start_index(table, index);
    let at = match answer {
        Ok(n) => {
            lines::inner::named(output, b"start", n as u64)?;
            0
        }
        Err(refusal) => {
            lines::inner::named(output, b"start refused", u32::from(refusal) as u64)?;
            s.at
        }
    };
    lines::inner::named(output, b"fold", lines::inner::fold_of(index) as u64)?;
    Ok(State { at, ..s })
}

// The check number after the five words of an answer.
fn fold_five(y: u32, number: u64, size: u64, a: u64, b: u64, c: u64) -> u32 {
    let sized = lines::inner::folded(lines::inner::folded(y, number), size);
    lines::inner::folded(lines::inner::folded(lines::inner::folded(sized, a), b), c)
}

// The place behind a packet of so many words; the recording has n.
fn behind(at: usize, size: usize, n: usize) -> usize {
    if n < at {
        return at;
    }
    if n - at < size {
        return n;
    }
    at + size
}

// Growth with a packet that was taken in.
fn grown_by(g: Growth, packet: Taken, n: usize) -> Growth {
    let taken = g.taken.wrapping_add(1);
    match packet {
        Taken::Declared(h) => Growth {
            taken,
            answers: fold_five(
                g.answers,
                0,
                h.size as u64,
                h.kind as u64,
                h.stream as u64,
                h.missing as u64,
            ),
            at: behind(g.at, h.size, n),
            ..g
        },
        Taken::Undeclared(p) => Growth {
            taken,
            undeclared: g.undeclared.wrapping_add(1),
            answers: fold_five(
                g.answers,
                u32::from(Refusal::Stream) as u64,
                p.size as u64,
                p.place as u64,
                0,
                0,
            ),
            at: behind(g.at, p.size, n),
            ..g
        },
    }
}

// Growth by the packet at the front of the words; the recording has n.
fn grow_by(g: Growth, table: &mut [u32], given: &[u32], index: &mut [u32], n: usize) -> Growth {
    match index_grow::grow(table, given, index) {
        Ok(packet) => grown_by(g, packet, n),
        Err(r) => Growth {
            ended: Some(r),
            ..g
        },
    }
}

// Growth by the packet where it stands; no word is left at the recording's end or past it. Where alone is 1 the packet's words are handed on, and else those
// behind it too.
fn grow_once(g: Growth, table: &mut [u32], given: &[u32], index: &mut [u32], alone: u32) -> Growth {
    let from = g.at;
    let n = given.len();
    if n <= from {
        return grow_by(g, table, &given[0..0], index, n);
    }
    let end = from + (given[from] % 0x1_0000) as usize;
    if alone != 1 {
        return grow_by(g, table, &given[from..], index, n);
    }
    if n < end {
        return grow_by(g, table, &given[from..], index, n);
    }
    grow_by(g, table, &given[from..end], index, n)
}

// Growth up to so many times.
fn grow_all(
    start: Growth,
    table: &mut [u32],
    given: &[u32],
    index: &mut [u32],
    most: u32,
    alone: u32,
) -> Growth {
    let mut g = start;
    for _ in 0..most {
        if g.ended.is_some() {
            return g;
        }
        g = grow_once(g, table, given, index, alone);
    }
    g
}

// What growing answered.
fn show(output: &mut impl Write, g: Growth) -> io::Result<()> {
    lines::inner::named(output, b"grow", g.taken as u64)?;
    lines::inner::named(output, b"undeclared", g.undeclared as u64)?;
    lines::inner::named(output, b"answers", g.answers as u64)?;
    if let Some(r) = g.ended {
        let place = r.place;
        lines::inner::named(output, b"refused", u32::from(r.refusal) as u64)?;
        lines::inner::named(output, b"place", words::inner::place_word(place) as u64)?;
        lines::inner::named(output, b"bit", words::inner::place_bit(place) as u64)?;
    }
    Ok(())
}

// Reads how often, and whether with each packet alone, and grows.
pub fn grow(
    input: &mut impl Read,
    output: &mut impl Write,
    s: State,
    table: &mut [u32],
    given: &[u32],
    index: &mut [u32],
) -> io::Result<State> {
    let most = lines::inner::word(input)?;
    let alone = lines::inner::word(input)?;
    let start = Growth {
        taken: 0,
        undeclared: 0,
        answers: 0,
        at: s.at,
        ended: None,
    };
    let g = grow_all(start, table, given, index, most, alone);
    show(output, g)?;
    lines::inner::named(output, b"table", lines::inner::fold_of(table) as u64)?;
    lines::inner::named(output, b"index", lines::inner::fold_of(index) as u64)?;
    Ok(State { at: g.at, ..s })
}
