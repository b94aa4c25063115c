// Runs the cases of standard input with `packet_write::write` and `write_survey`, `packet::read` and `read_survey`, and `packet_trailer::trailer_word`, and
// writes what they answer and leave. A case begins with a word that says what is asked: 1 to write, 2 to read, write again and read again, 3 to make a trailer
// word, 4 and 5 as 1 and 2 of a survey packet.
#![tactic(auto)]

use packet::{Packet, Parts};
use std::io;
use std::io::{Read, Write};
use words::Refusal;

// The line of a buffer: its words where they are few, and else their sum.
fn show_buffer(output: &mut impl Write, ws: &[u32]) -> io::Result<()> {
    if ws.len() <= 300 {
        lines::inner::text(output, b"  words")?;
        lines::inner::list(output, ws)?;
    } else {
        lines::inner::text(output, b"  sum ")?;
        lines::inner::number(output, lines::inner::sum_of(ws) as u64)?;
    }
    lines::inner::text(output, b"\n")
}

// The line of a refusal.
fn show_refused(output: &mut impl Write, refusal: Refusal) -> io::Result<()> {
    lines::inner::named(output, b"refused", u32::from(refusal) as u64)?;
    lines::inner::text(output, b"\n")
}

// The line of what was answered; whether it was accepted.
fn show_written(output: &mut impl Write, answer: Result<usize, Refusal>) -> io::Result<bool> {
    match answer {
        Ok(n) => {
            lines::inner::named(output, b"wrote", n as u64)?;
            lines::inner::text(output, b"\n")?;
            Ok(true)
        }
        Err(refusal) => {
            show_refused(output, refusal)?;
            Ok(false)
        }
    }
}

// The parts of the next case.
fn next_parts(input: &mut impl Read) -> io::Result<Parts> {
    let kind = lines::inner::word(input)?;
    let classed = lines::inner::word(input)? != 0;
    let trailed = lines::inner::word(input)? != 0;
    let tsm = lines::inner::word(input)? != 0;
    let tsi = lines::inner::word(input)?;
    let tsf = lines::inner::word(input)?;
    let count = lines::inner::word(input)?;
    let identifier = lines::inner::word(input)?;
    let oui = lines::inner::word(input)?;
    let information = lines::inner::word(input)?;
    let code = lines::inner::word(input)?;
    let seconds = lines::inner::word(input)?;
    let high = lines::inner::word(input)?;
    let low = lines::inner::word(input)?;
    let trailer = lines::inner::word(input)?;
    Ok(Parts {
        kind,
        classed,
        trailed,
        tsm,
        tsi,
        tsf,
        count,
        identifier,
        oui,
        information,
        code,
        seconds,
        fraction: words::inner::high_first(high, low),
        trailer,
    })
}

// The pad count of the next case, where it is a survey packet.
fn next_pad(input: &mut impl Read, survey: bool) -> io::Result<u32> {
    if survey {
        lines::inner::word(input)
    } else {
        Ok(0)
    }
}

// Writes some parts and a body at a place of a buffer, plainly or as a survey packet.
fn write_by(
    survey: bool,
    parts: Parts,
    pad: u32,
    body: &[u32],
    out: &mut [u32],
    at: usize,
) -> Result<usize, Refusal> {
    if survey {
        return packet_write::write_survey(parts, pad, body, out, at);
    }
    packet_write::write(parts, body, out, at)
}

// The same, and shows the answer and the buffer; whether it was accepted.
fn write(
    output: &mut impl Write,
    survey: bool,
    parts: Parts,
    pad: u32,
    body: &[u32],
    out: &mut [u32],
    at: usize,
) -> io::Result<bool> {
    lines::inner::pattern(out);
    let written = show_written(output, write_by(survey, parts, pad, body, out, at))?;
    show_buffer(output, out)?;
    Ok(written)
}

// Shows the packet at the front of the words, where it is accepted.
fn show_plain(output: &mut impl Write, ws: &[u32]) -> io::Result<()> {
    if let Ok(p) = packet::read(ws) {
        lines::inner::text(output, b" ")?;
        lines::inner::show_packet(output, p)?;
    }
    Ok(())
}

// The same of a survey packet.
fn show_survey(output: &mut impl Write, ws: &[u32]) -> io::Result<()> {
    if let Ok(s) = packet::read_survey(ws) {
        lines::inner::text(output, b" ")?;
        lines::inner::show_survey(output, s)?;
    }
    Ok(())
}

// Shows the packet at a place of a buffer.
fn show_again(output: &mut impl Write, survey: bool, ws: &[u32], at: usize) -> io::Result<()> {
    if ws.len() < at {
        return Ok(());
    }
    if survey {
        show_survey(output, &ws[at..])
    } else {
        show_plain(output, &ws[at..])
    }
}

// A case that writes.
fn write_case(
    input: &mut impl Read,
    output: &mut impl Write,
    survey: bool,
    body: &mut [u32],
    out: &mut [u32],
) -> io::Result<()> {
    let parts = next_parts(input)?;
    let pad = next_pad(input, survey)?;
    let at = lines::inner::word(input)? as usize;
    let room = lines::inner::word(input)? as usize;
    let n = lines::inner::word(input)? as usize;
    if body.len() < n {
        return Ok(());
    }
    if out.len() < room {
        return Ok(());
    }
    lines::inner::fill(input, &mut body[0..n])?;
    write(
        output,
        survey,
        parts,
        pad,
        &body[0..n],
        &mut out[0..room],
        at,
    )?;
    Ok(())
}

// A packet that was read, written again at a place of a buffer and read again.
fn write_again(
    output: &mut impl Write,
    survey: bool,
    p: Packet,
    pad: u32,
    ws: &[u32],
    out: &mut [u32],
    at: usize,
) -> io::Result<()> {
    let body = p.place;
    let length = p.length;
    if ws.len() < body {
        return Ok(());
    }
    if ws.len() - body < length {
        return Ok(());
    }
    let end = body + length;
    if write(output, survey, p.parts, pad, &ws[body..end], out, at)? {
        show_again(output, survey, out, at)?;
    }
    Ok(())
}

// The line of words that reading refuses.
fn show_unread(output: &mut impl Write, r: words::RefusedAt) -> io::Result<()> {
    lines::inner::show_refusal(output, u32::from(r.refusal), r.place)?;
    lines::inner::text(output, b"\n")
}

// Words that are read plainly, and written and read again.
fn plain_again(output: &mut impl Write, ws: &[u32], out: &mut [u32], at: usize) -> io::Result<()> {
    match packet::read(ws) {
        Err(r) => show_unread(output, r),
        Ok(p) => write_again(output, false, p, 0, ws, out, at),
    }
}

// The same as a survey packet.
fn survey_again(output: &mut impl Write, ws: &[u32], out: &mut [u32], at: usize) -> io::Result<()> {
    match packet::read_survey(ws) {
        Err(r) => show_unread(output, r),
        Ok(s) => write_again(output, true, s.packet, s.pad, ws, out, at),
    }
}

// A case that reads, writes again and reads again.
fn again_case(
    input: &mut impl Read,
    output: &mut impl Write,
    survey: bool,
    ws: &mut [u32],
    out: &mut [u32],
) -> io::Result<()> {
    let at = lines::inner::word(input)? as usize;
    let room = lines::inner::word(input)? as usize;
    let n = lines::inner::word(input)? as usize;
    if ws.len() < n {
        return Ok(());
    }
    if out.len() < room {
        return Ok(());
    }
    lines::inner::fill(input, &mut ws[0..n])?;
    if survey {
        survey_again(output, &ws[0..n], &mut out[0..room], at)
    } else {
        plain_again(output, &ws[0..n], &mut out[0..room], at)
    }
}

// A case that makes a trailer word.
fn trailer_case(input: &mut impl Read, output: &mut impl Write) -> io::Result<()> {
    let enables = lines::inner::word(input)?;
    let indicators = lines::inner::word(input)?;
    let e = lines::inner::word(input)?;
    let associated = lines::inner::word(input)?;
    match packet_trailer::trailer_word(enables, indicators, e, associated) {
        Ok(w) => lines::inner::named(output, b"trailer", w as u64)?,
        Err(r) => lines::inner::named(output, b"refused", u32::from(r) as u64)?,
    }
    lines::inner::text(output, b"\n")
}

// Runs case k; whether there was one.
fn one_case(
    input: &mut impl Read,
    output: &mut impl Write,
    k: u64,
    ws: &mut [u32],
    out: &mut [u32],
) -> io::Result<bool> {
    let Some(op) = lines::inner::next_word(input)? else {
        return Ok(false);
    };
    lines::inner::number(output, k)?;
    if op == 1 {
        write_case(input, output, false, ws, out)?;
    } else if op == 2 {
        again_case(input, output, false, ws, out)?;
    } else if op == 3 {
        trailer_case(input, output)?;
    } else if op == 4 {
        write_case(input, output, true, ws, out)?;
    } else {
        again_case(input, output, true, ws, out)?;
    }
    Ok(true)
}

// A packet has at most 65,535 words; a body may be longer by a little, to be refused.
fn main(rt: HostRuntime) -> io::Result<()> {
    let mut input = rt.stdin();
    let mut output = rt.stdout();
    let mut body_space = [0u32; 65600];
    let mut out_space = [0u32; 65600];
    let ws: &mut [u32] = &mut body_space;
    let out: &mut [u32] = &mut out_space;
    for k in 0..0xFFFF_FFFF {
        if !one_case(&mut input, &mut output, k, ws, out)? {
            break;
        }
    }
    Ok(())
}
