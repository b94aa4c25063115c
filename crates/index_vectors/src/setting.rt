// What is set before an index is started, grown or jumped over, and an entry that is shown.
use crate::State;
use std::io;
use std::io::{Read, Write};

// A table for a list: its identifiers, and as many choices.
fn start_for(output: &mut impl Write, list: &[u32], table: &mut [u32]) -> io::Result<()> {
    lines::inner::pattern(table);
    let n = list.len() / 2;
    match table::start(&list[0..n], &list[n..], table) {
        Ok(length) => lines::inner::named(output, b"table", length as u64),
        Err(refusal) => lines::inner::named(output, b"table refused", u32::from(refusal) as u64),
    }
}

// Reads S, S identifiers, S choices and the room, and starts the table.
pub fn start_table(
    input: &mut impl Read,
    output: &mut impl Write,
    s: State,
    list: &mut [u32],
    table: &mut [u32],
) -> io::Result<State> {
    let n = 2 * lines::inner::word(input)? as usize;
    if list.len() < n {
        return Ok(s);
    }
    lines::inner::fill(input, &mut list[0..n])?;
    let room = lines::inner::word(input)? as usize;
    if table.len() < room {
        return Ok(s);
    }
    start_for(output, &list[0..n], &mut table[0..room])?;
    Ok(State { table: room, ..s })
}

// Reads n, and the n words of the recording.
pub fn read_words(
    input: &mut impl Read,
    output: &mut impl Write,
    s: State,
    given: &mut [u32],
) -> io::Result<State> {
    let n = lines::inner::word(input)? as usize;
    if given.len() < n {
        return Ok(s);
    }
    lines::inner::fill(input, &mut given[0..n])?;
    lines::inner::named(output, b"words", n as u64)?;
    Ok(State { recorded: n, ..s })
}

// An index of as many words as the input says.
pub fn make_room(
    input: &mut impl Read,
    output: &mut impl Write,
    s: State,
    index: &mut [u32],
) -> io::Result<State> {
    let m = lines::inner::word(input)? as usize;
    if index.len() < m {
        return Ok(s);
    }
    lines::inner::pattern(&mut index[0..m]);
    lines::inner::named(output, b"room", m as u64)?;
    Ok(State { indexed: m, ..s })
}

// Reads a place, n, and the n words that those of a buffer from there on become; the buffer has so many words here.
pub fn poke(
    input: &mut impl Read,
    output: &mut impl Write,
    size: usize,
    buffer: &mut [u32],
) -> io::Result<()> {
    let place = lines::inner::word(input)? as usize;
    let n = lines::inner::word(input)? as usize;
    let end = place + n;
    if size < end {
        return Ok(());
    }
    if buffer.len() < end {
        return Ok(());
    }
    lines::inner::fill(input, &mut buffer[place..end])?;
    lines::inner::named(output, b"poke", n as u64)
}

// A longer index, of as many words as the input says.
pub fn lengthen(
    input: &mut impl Read,
    output: &mut impl Write,
    s: State,
    index: &mut [u32],
) -> io::Result<State> {
    let from = s.indexed;
    let m = lines::inner::word(input)? as usize;
    if m < from {
        return Ok(s);
    }
    if index.len() < m {
        return Ok(s);
    }
    lines::inner::pattern(&mut index[from..m]);
    lines::inner::named(output, b"longer", m as u64)?;
    Ok(State { indexed: m, ..s })
}

// The place in the recording, as the input says.
pub fn move_place(input: &mut impl Read, output: &mut impl Write, s: State) -> io::Result<State> {
    let at = lines::inner::word(input)? as usize;
    lines::inner::named(output, b"at", at as u64)?;
    Ok(State { at, ..s })
}

// The four words of the entry that the input says.
pub fn show_entry(input: &mut impl Read, output: &mut impl Write, index: &[u32]) -> io::Result<()> {
    let from = 4 + 4 * lines::inner::word(input)? as usize;
    let end = from + 4;
    if index.len() < end {
        return Ok(());
    }
    lines::inner::text(output, b" entry")?;
    lines::inner::list(output, &index[from..end])
}
