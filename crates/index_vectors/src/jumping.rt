// A jump, in a table of its own.
use index_jump::Landed;
use std::io;
use std::io::{Read, Write};
use words::Refusal;

// What a jump answers.
fn show(output: &mut impl Write, answer: Result<Landed, Refusal>) -> io::Result<()> {
    match answer {
        Ok(l) => {
            lines::inner::named(output, b"jump", l.length as u64)?;
            lines::inner::named(output, b"place", l.place)
        }
        Err(refusal) => lines::inner::named(output, b"jump refused", u32::from(refusal) as u64),
    }
}

// A jump over words of a recording, of which the first stands at the word place first, and the lent table afterwards.
fn jump_from(
    output: &mut impl Write,
    given: &[u32],
    first: u64,
    index: &[u32],
    n: u64,
    table: &mut [u32],
) -> io::Result<()> {
    lines::inner::pattern(table);
    show(output, index_jump::jump(given, first, index, n, table))?;
    lines::inner::named(output, b"table", lines::inner::fold_of(table) as u64)
}

// The number of the next two words of the input, high and low.
fn two_words(input: &mut impl Read) -> io::Result<u64> {
    let high = lines::inner::word(input)?;
    Ok(words::inner::high_first(high, lines::inner::word(input)?))
}

// Reads how many words of the recording are left out, the word place first of the next one, the packet, both high and low, and the room of the table, and
// jumps; there are no words where more are left out than there are.
pub fn jump(
    input: &mut impl Read,
    output: &mut impl Write,
    given: &[u32],
    index: &[u32],
) -> io::Result<()> {
    let mut space = [0u32; 2900];
    let left_out = lines::inner::word(input)? as usize;
    let first = two_words(input)?;
    let n = two_words(input)?;
    let room = lines::inner::word(input)? as usize;
    if 2900 < room {
        return Ok(());
    }
    if given.len() < left_out {
        return jump_from(output, &given[0..0], first, index, n, &mut space[0..room]);
    }
    jump_from(
        output,
        &given[left_out..],
        first,
        index,
        n,
        &mut space[0..room],
    )
}
