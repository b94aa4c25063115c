// What the lines of output say of buffers and pages.
use std::io;
use std::io::Write;
use words::Refusal;

// Ends a line.
pub fn end_line(output: &mut impl Write) -> io::Result<()> {
    lines::inner::text(output, b"\n")
}

// The line of a buffer: all its words where they are at most 200, and else their check number.
pub fn show_words(output: &mut impl Write, name: &[u8], ws: &[u32]) -> io::Result<()> {
    lines::inner::text(output, b"  ")?;
    if ws.len() <= 200 {
        lines::inner::text(output, name)?;
        lines::inner::list(output, ws)?;
    } else {
        lines::inner::text(output, b"fold ")?;
        lines::inner::number(output, lines::inner::fold_of(ws) as u64)?;
    }
    end_line(output)
}

// A page that was saved: its length, and the check number of its words.
fn show_page(output: &mut impl Write, length: usize, page: &[u32]) -> io::Result<()> {
    lines::inner::named(output, b"saved", length as u64)?;
    if page.len() < length {
        return Ok(());
    }
    lines::inner::named(
        output,
        b"fold",
        lines::inner::fold_of(&page[0..length]) as u64,
    )
}

// What saving answered, and the page.
pub fn show_saved(
    output: &mut impl Write,
    answer: Result<usize, Refusal>,
    page: &[u32],
) -> io::Result<()> {
    match answer {
        Ok(length) => show_page(output, length, page),
        Err(refusal) => lines::inner::named(output, b"saved refused", u32::from(refusal) as u64),
    }
}

// A table of this layout: the check number of its layout, and the sum of the words past it.
pub fn show_table(output: &mut impl Write, length: usize, table: &[u32]) -> io::Result<()> {
    if table.len() < length {
        return Ok(());
    }
    lines::inner::named(
        output,
        b"table",
        lines::inner::fold_of(&table[0..length]) as u64,
    )?;
    lines::inner::named(
        output,
        b"past",
        lines::inner::sum_of(&table[length..]) as u64,
    )
}
