// The values of a packet, as lines of names and numbers, and a refusal.
use crate::output::{named, named_flag, text};
use packet::{Packet, Parts, Survey};
use std::io;
use std::io::Write;
use words::Where;

// Writes a refusal: its number, and the word and the field's bit where they are told.
pub fn show_refusal(output: &mut impl Write, number: u32, place: Where) -> io::Result<()> {
    named(output, b"refused", number as u64)?;
    match place {
        Where::Nowhere => Ok(()),
        Where::Word(at) => named(output, b"place", at as u64),
        Where::Field(at, bit) => {
            named(output, b"place", at as u64)?;
            named(output, b"bit", bit as u64)
        }
    }
}

// The line of the header's values.
fn show_header(output: &mut impl Write, p: Parts, size: usize) -> io::Result<()> {
    named(output, b"type", p.kind as u64)?;
    named_flag(output, b"class", p.classed)?;
    named_flag(output, b"trailer", p.trailed)?;
    named_flag(output, b"tsm", p.tsm)?;
    named(output, b"tsi", p.tsi as u64)?;
    named(output, b"tsf", p.tsf as u64)?;
    named(output, b"count", p.count as u64)?;
    named(output, b"size", size as u64)?;
    text(output, b"\n")
}

// The line of the prologue, the body's place and the trailer word.
fn show_prologue(output: &mut impl Write, p: Parts, body: usize, length: usize) -> io::Result<()> {
    text(output, b" ")?;
    named(output, b"identifier", p.identifier as u64)?;
    named(output, b"oui", p.oui as u64)?;
    named(output, b"information", p.information as u64)?;
    named(output, b"packet", p.code as u64)?;
    named(output, b"seconds", p.seconds as u64)?;
    named(output, b"fraction", p.fraction)?;
    named(output, b"body", body as u64)?;
    named(output, b"length", length as u64)?;
    named(output, b"word", p.trailer as u64)?;
    text(output, b"\n")
}

// The line of a trailer's parts.
fn show_trailer(output: &mut impl Write, word: u32) -> io::Result<()> {
    let t = packet_trailer::trailer_parts(word);
    text(output, b"  trailer")?;
    named(output, b"enables", t.enables as u64)?;
    named(output, b"indicators", t.indicators as u64)?;
    named_flag(output, b"e", t.e)?;
    named(output, b"associated", t.associated as u64)?;
    text(output, b"\n")
}

// The line of what 49A says of a payload: the pad count, the two words of its format, and its items.
fn show_payload(output: &mut impl Write, s: Survey) -> io::Result<()> {
    text(output, b"  survey")?;
    named(output, b"pad", s.pad as u64)?;
    named(output, b"first", s.first as u64)?;
    named(output, b"second", s.second as u64)?;
    named(output, b"items", s.items as u64)?;
    text(output, b"\n")
}

// The lines of a packet up to its body; the first begins with ` accepted`.
fn show_front(output: &mut impl Write, p: Packet) -> io::Result<()> {
    let parts = p.parts;
    text(output, b" accepted")?;
    show_header(output, parts, p.size)?;
    show_prologue(output, parts, p.place, p.length)
}

// The line of a packet's trailer, where it has one.
fn show_back(output: &mut impl Write, p: Packet) -> io::Result<()> {
    let parts = p.parts;
    if parts.trailed {
        show_trailer(output, parts.trailer)?;
    }
    Ok(())
}

// The lines of a packet that was read plainly.
pub fn show_packet(output: &mut impl Write, p: Packet) -> io::Result<()> {
    show_front(output, p)?;
    show_back(output, p)
}

// The lines of a packet that was read as 49A.
pub fn show_survey(output: &mut impl Write, s: Survey) -> io::Result<()> {
    let p = s.packet;
    show_front(output, p)?;
    show_payload(output, s)?;
    show_back(output, p)
}
