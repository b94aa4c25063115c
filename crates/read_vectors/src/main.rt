// Reads the cases of standard input with `packet::read` and `packet::read_survey` and writes what they answer. A case is 0 to read plainly or 1 to read a
// survey packet, a word n, and then n words.
#![tactic(auto)]

ghost use Rattle.std.specs.Prelude.{◌+◌, ◌≤◌, length};

use packet::Packet;
use std::io;
use std::io::{Read, Write};

// The line of a field of a type 4 body, where the body has it.
fn show_field(output: &mut impl Write, body: &[u32], bit: u32) -> io::Result<()> {
    let Some(found) = fields::find(body, bit) else {
        return Ok(());
    };
    lines::inner::text(output, b"  field ")?;
    lines::inner::number(output, bit as u64)?;
    lines::inner::named(output, b"at", found.at as u64)?;
    lines::inner::named(output, b"words", found.words as u64)?;
    lines::inner::text(output, b"\n")
}

// The lines of a type 4 body's fields, highest bit first.
fn show_fields(output: &mut impl Write, body: &[u32]) -> io::Result<()> {
    for bit in (0..31).rev() {
        show_field(output, body, bit)?;
    }
    Ok(())
}

// The lines of an accepted packet's fields, where it is of type 4.
fn show_context(output: &mut impl Write, p: Packet, ws: &[u32]) -> io::Result<()>
    requires { p.place + p.length ≤ length ws.now }
{
    let parts = p.parts;
    let body = p.place;
    let end = body + p.length;
    if parts.kind == 4 {
        show_fields(output, &ws[body..end])?;
    }
    Ok(())
}

// The line of a refusal.
fn show_refused(output: &mut impl Write, r: words::RefusedAt) -> io::Result<()> {
    lines::inner::show_refusal(output, u32::from(r.refusal), r.place)?;
    lines::inner::text(output, b"\n")
}

// The lines of words that are read plainly.
fn show_plain(output: &mut impl Write, ws: &[u32]) -> io::Result<()> {
    match packet::read(ws) {
        Ok(p) => {
            lines::inner::show_packet(output, p)?;
            show_context(output, p, ws)
        }
        Err(r) => show_refused(output, r),
    }
}

// The lines of words that are read as a survey packet.
fn show_survey(output: &mut impl Write, ws: &[u32]) -> io::Result<()> {
    match packet::read_survey(ws) {
        Ok(s) => {
            lines::inner::show_survey(output, s)?;
            show_context(output, s.packet, ws)
        }
        Err(r) => show_refused(output, r),
    }
}

// The lines of case k.
fn show(output: &mut impl Write, k: u64, survey: bool, ws: &[u32]) -> io::Result<()> {
    lines::inner::number(output, k)?;
    if survey {
        show_survey(output, ws)
    } else {
        show_plain(output, ws)
    }
}

// Reads case k into the buffer and writes its lines; whether there was one.
fn one_case(
    input: &mut impl Read,
    output: &mut impl Write,
    k: u64,
    buffer: &mut [u32],
) -> io::Result<bool> {
    let Some(choice) = lines::inner::next_word(input)? else {
        return Ok(false);
    };
    let n = lines::inner::word(input)? as usize;
    if buffer.len() < n {
        return Ok(false);
    }
    let whole = lines::inner::fill(input, &mut buffer[0..n])?;
    if whole {
        show(output, k, choice == 1, &buffer[0..n])?;
    }
    Ok(whole)
}

// A packet has at most 65,535 words; one more may follow it.
fn main(rt: HostRuntime) -> io::Result<()> {
    let mut input = rt.stdin();
    let mut output = rt.stdout();
    let mut space = [0u32; 65536];
    let buffer: &mut [u32] = &mut space;
    for k in 0..0xFFFF_FFFF {
        if !one_case(&mut input, &mut output, k, buffer)? {
            break;
        }
    }
    Ok(())
}
