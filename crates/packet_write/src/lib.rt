// A packet written into words, from its parts and its body.
#![tactic(auto)]

mod fit;
pub mod inner;
mod laying;
mod parts;
mod writing;

ghost use Rattle.std.specs.Prelude.{◌≡◌};
ghost use Rattle.words.specs.Listed.{on_paper};
ghost use Rattle.words.specs.Outcome.{Meets};
ghost use Rattle.packet_write.specs.Write.{write_of, write_survey_of};
ghost use Rattle.packet_write.specs.AsWords.{parts_in};

use words::Refusal;

// The parts as fifteen words.
fn words_of(parts: packet::Parts) -> [u32; 15]
    ensures { parts_in result ≡ parts }
{
    let fraction = parts.fraction;
    [
        parts.kind,
        u32::from(parts.classed),
        u32::from(parts.trailed),
        u32::from(parts.tsm),
        parts.tsi,
        parts.tsf,
        parts.count,
        parts.identifier,
        parts.oui,
        parts.information,
        parts.code,
        parts.seconds,
        (fraction / 0x1_0000_0000) as u32,
        (fraction % 0x1_0000_0000) as u32,
        parts.trailer,
    ]
}

// Writes a packet, its body given as words, into the part of a buffer that starts at a word of the caller's choice, and answers how many words
// it has; or answers the first of TYPE, VALUE, SHORT, SIZE, TIME, INDICATOR, LAYOUT, FIELD and ROOM that applies, and leaves the buffer as it was.
pub fn write(
    parts: packet::Parts,
    body: &[u32],
    out: &mut [u32],
    at: usize,
) -> Result<usize, Refusal>
    ensures { Meets on_paper (write_of parts body.now out.old at) out.old result out.new }
{
    let q = words_of(parts);
    writing::write_parts(&q, body, out, at)
}

// Writes a packet as `write` does, by 49A, which governs type 1: there the pad count is written into the class, VALUE is given where it does not fit its five bits,
// and PAD after FIELD. Of other types the pad count is not looked at.
pub fn write_survey(
    parts: packet::Parts,
    pad: u32,
    body: &[u32],
    out: &mut [u32],
    at: usize,
) -> Result<usize, Refusal>
    ensures { Meets on_paper (write_survey_of pad parts body.now out.old at) out.old result out.new }
{
    let q = words_of(parts);
    writing::write_padded(pad, &q, body, out, at)
}
