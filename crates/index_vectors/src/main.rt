// Keeps an index beside a recording, as standard input asks, and writes what `index::start_index`, `index_grow::grow` and `index_jump::jump` answer and leave.
// An operation begins with what is done: 1, a table is started; 2, the recording's words; 3, the words of the index; 4 and 5, words of the index or of the table
// are stored; 6, the index is started; 7, it is grown; 8, a jump; 9, a longer index; 10, the place in the recording; 11, an entry is shown.
#![tactic(auto)]

mod growing;
mod jumping;
mod setting;

use std::io;
use std::io::{Read, Write};

// What is there at an operation: the words of the table, of the recording and of the index, and the place in the recording.
#[derive(Clone, Copy)]
pub struct State {
    pub table: usize,
    pub recorded: usize,
    pub indexed: usize,
    pub at: usize,
}

// Ends a line.
pub fn end_line(output: &mut impl Write) -> io::Result<()> {
    lines::inner::text(output, b"\n")
}

// An operation that sets or shows something.
fn set(
    input: &mut impl Read,
    output: &mut impl Write,
    kind: u32,
    s: State,
    table: &mut [u32],
    given: &mut [u32],
    index: &mut [u32],
) -> io::Result<State> {
    if kind == 1 {
        let mut list = [0u32; 80];
        return setting::start_table(input, output, s, &mut list, table);
    }
    if kind == 2 {
        return setting::read_words(input, output, s, given);
    }
    if kind == 3 {
        return setting::make_room(input, output, s, index);
    }
    if kind == 4 {
        setting::poke(input, output, s.indexed, index)?;
        return Ok(s);
    }
    if kind == 5 {
        setting::poke(input, output, s.table, table)?;
        return Ok(s);
    }
    if kind == 9 {
        return setting::lengthen(input, output, s, index);
    }
    if kind == 10 {
        return setting::move_place(input, output, s);
    }
    setting::show_entry(input, output, index)?;
    Ok(s)
}

// An operation on the words that are there.
fn work(
    input: &mut impl Read,
    output: &mut impl Write,
    kind: u32,
    s: State,
    table: &mut [u32],
    given: &[u32],
    index: &mut [u32],
) -> io::Result<State> {
    if kind == 6 {
        return growing::start(output, s, table, index);
    }
    if kind == 7 {
        return growing::grow(input, output, s, table, given, index);
    }
    jumping::jump(input, output, given, index)?;
    Ok(s)
}

// An operation: 6, 7 and 8 work on the words that are there, and the others set or show something.
fn done(
    input: &mut impl Read,
    output: &mut impl Write,
    kind: u32,
    s: State,
    table: &mut [u32],
    given: &mut [u32],
    index: &mut [u32],
) -> io::Result<State> {
    let held = s.table;
    let recorded = s.recorded;
    let indexed = s.indexed;
    if kind < 6 {
        return set(input, output, kind, s, table, given, index);
    }
    if 8 < kind {
        return set(input, output, kind, s, table, given, index);
    }
    if table.len() < held {
        return Ok(s);
    }
    if given.len() < recorded {
        return Ok(s);
    }
    if index.len() < indexed {
        return Ok(s);
    }
    work(
        input,
        output,
        kind,
        s,
        &mut table[0..held],
        &given[0..recorded],
        &mut index[0..indexed],
    )
}

// A table has at most 2,900 words, a recording at most 40,000, and an index at most 24,000.
fn main(rt: HostRuntime) -> io::Result<()> {
    let mut input = rt.stdin();
    let mut output = rt.stdout();
    let mut table_space = [0u32; 2900];
    let mut word_space = [0u32; 40000];
    let mut index_space = [0u32; 24000];
    let table: &mut [u32] = &mut table_space;
    let given: &mut [u32] = &mut word_space;
    let index: &mut [u32] = &mut index_space;
    let mut s = State {
        table: 0,
        recorded: 0,
        indexed: 0,
        at: 0,
    };
    for k in 0..0xFFFF_FFFF {
        let Some(kind) = lines::inner::next_word(&mut input)? else {
            return Ok(());
        };
        lines::inner::number(&mut output, k)?;
        s = done(&mut input, &mut output, kind, s, table, given, index)?;
        end_line(&mut output)?;
    }
    Ok(())
}
