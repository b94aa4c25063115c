// Saves tables and puts pages back, as standard input asks, and writes what `page::save`, `page::put_back` and `page::page_length` answer and leave.
// A case begins with 1, 2 or 3: a recording that is stopped and resumed, a page to be put back, a table to be saved.
#![tactic(auto)]

mod resuming;
mod showing;

use std::io;
use std::io::{Read, Write};

// A page to be put back: the answer, the table, and the page that is saved of it again.
fn put_case(
    output: &mut impl Write,
    ws: &[u32],
    table: &mut [u32],
    page: &mut [u32],
) -> io::Result<()> {
    lines::inner::pattern(table);
    lines::inner::pattern(page);
    match page::put_back(ws, table) {
        Ok(length) => {
            lines::inner::named(output, b"put", length as u64)?;
            showing::end_line(output)?;
            showing::show_words(output, b"table", table)?;
            let answer = page::save(table, page);
            lines::inner::text(output, b" ")?;
            showing::show_saved(output, answer, page)?;
            showing::end_line(output)
        }
        Err(refusal) => {
            lines::inner::named(output, b"refused", u32::from(refusal) as u64)?;
            showing::end_line(output)?;
            showing::show_words(output, b"table", table)
        }
    }
}

// A table to be saved: the answer, the buffer, and the page's length.
fn save_case(output: &mut impl Write, ws: &[u32], page: &mut [u32]) -> io::Result<()> {
    lines::inner::pattern(page);
    match page::save(ws, page) {
        Ok(length) => lines::inner::named(output, b"saved", length as u64)?,
        Err(refusal) => lines::inner::named(output, b"refused", u32::from(refusal) as u64)?,
    }
    showing::end_line(output)?;
    showing::show_words(output, b"page", page)?;
    lines::inner::text(output, b" ")?;
    match page::page_length(ws) {
        Ok(length) => lines::inner::named(output, b"length", length as u64)?,
        Err(refusal) => {
            lines::inner::named(output, b"length refused", u32::from(refusal) as u64)?
        }
    }
    showing::end_line(output)
}

// The room and the words of a page to be put back.
fn read_put(
    input: &mut impl Read,
    output: &mut impl Write,
    ws: &mut [u32],
    table: &mut [u32],
    page: &mut [u32],
) -> io::Result<()> {
    let room = lines::inner::word(input)? as usize;
    let n = lines::inner::word(input)? as usize;
    if ws.len() < n {
        return Ok(());
    }
    if table.len() < room {
        return Ok(());
    }
    lines::inner::fill(input, &mut ws[0..n])?;
    put_case(output, &ws[0..n], &mut table[0..room], page)
}

// The room and the words of a table to be saved.
fn read_save(
    input: &mut impl Read,
    output: &mut impl Write,
    ws: &mut [u32],
    page: &mut [u32],
) -> io::Result<()> {
    let room = lines::inner::word(input)? as usize;
    let n = lines::inner::word(input)? as usize;
    if ws.len() < n {
        return Ok(());
    }
    if page.len() < room {
        return Ok(());
    }
    lines::inner::fill(input, &mut ws[0..n])?;
    save_case(output, &ws[0..n], &mut page[0..room])
}

// The case of a word: 1 a recording, 2 a page to be put back, 3 a table to be saved. Pages are saved into 2,882 words but in a case of saving.
fn asked(
    input: &mut impl Read,
    output: &mut impl Write,
    kind: u32,
    list: &mut [u32],
    table: &mut [u32],
    second: &mut [u32],
    page: &mut [u32],
    ws: &mut [u32],
) -> io::Result<()> {
    if page.len() < 2882 {
        return Ok(());
    }
    if kind == 1 {
        return resuming::recording(input, output, list, table, &mut page[0..2882], second, ws);
    }
    if kind == 2 {
        return read_put(input, output, ws, table, &mut page[0..2882]);
    }
    read_save(input, output, ws, page)
}

// Case k; whether there was one.
fn one_case(
    input: &mut impl Read,
    output: &mut impl Write,
    k: u64,
    list: &mut [u32],
    table: &mut [u32],
    second: &mut [u32],
    page: &mut [u32],
    ws: &mut [u32],
) -> io::Result<bool> {
    let Some(kind) = lines::inner::next_word(input)? else {
        return Ok(false);
    };
    lines::inner::number(output, k)?;
    asked(input, output, kind, list, table, second, page, ws)?;
    Ok(true)
}

// A list has at most 32 identifiers and as many choices here, a table at most 2,900 words, a page at most 3,000, and the packets of a recording at most
// 60,000.
fn main(rt: HostRuntime) -> io::Result<()> {
    let mut input = rt.stdin();
    let mut output = rt.stdout();
    let mut list_space = [0u32; 64];
    let mut table_space = [0u32; 2900];
    let mut second_space = [0u32; 2900];
    let mut page_space = [0u32; 3000];
    let mut word_space = [0u32; 60000];
    let list: &mut [u32] = &mut list_space;
    let table: &mut [u32] = &mut table_space;
    let second: &mut [u32] = &mut second_space;
    let page: &mut [u32] = &mut page_space;
    let ws: &mut [u32] = &mut word_space;
    for k in 0..0xFFFF_FFFF {
        if !one_case(&mut input, &mut output, k, list, table, second, page, ws)? {
            break;
        }
    }
    Ok(())
}
