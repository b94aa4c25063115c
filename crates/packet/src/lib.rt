// A packet: its header, prologue, body and trailer, read from words.
#![tactic(auto)]

mod checks;
mod header;
pub mod inner;
mod places;
mod prologue;
mod surveys;

ghost use Rattle.std.specs.Prelude.{◌≡◌};
ghost use Rattle.words.specs.Listed.{on_paper};
ghost use Rattle.words.specs.Told.{told_paper};
ghost use Rattle.packet.specs.Read.{read_of};
ghost use Rattle.packet.specs.Told.{read_told, survey_told};

use words::{Refusal, RefusedAt};

// The parts of a packet beside its body. A part that is absent is zero.
#[derive(Clone, Copy)]
pub struct Parts {
    // the type, 0 to 5
    pub kind: u32,
    // C: a class is there
    pub classed: bool,
    // T: a trailer is there
    pub trailed: bool,
    pub tsm: bool,
    pub tsi: u32,
    pub tsf: u32,
    pub count: u32,
    pub identifier: u32,
    pub oui: u32,
    // the codes of the information class and of the packet class
    pub information: u32,
    pub code: u32,
    pub seconds: u32,
    pub fraction: u64,
    pub trailer: u32,
}

// A packet that was read: its parts, its size in words, and its body's place and length.
#[derive(Clone, Copy)]
pub struct Packet {
    pub parts: Parts,
    pub size: usize,
    pub place: usize,
    pub length: usize,
}

// What a reading that follows 49A gives: the packet and, of type 1, its pad count, the two words of its payload's format, and n, the items of its payload. Of
// other types these are zero.
#[derive(Clone, Copy)]
pub struct Survey {
    pub packet: Packet,
    pub pad: u32,
    pub first: u32,
    pub second: u32,
    pub items: u32,
}

// The packet that stands at the front of the words, as plain 49.0, or the first of the refusals 1 to 10 that applies, and where. Words
// beyond its size are ignored.
pub fn read(ws: &[u32]) -> Result<Packet, RefusedAt>
    ensures { told_paper result ≡ read_told ws.now }
{
    match read_plain(ws) {
        Ok(packet) => Ok(packet),
        Err(r) => Err(places::refusal_of(r, ws)),
    }
}

// The packet, read as plain 49.0, or the refusal alone.
fn read_plain(ws: &[u32]) -> Result<Packet, Refusal>
    ensures { on_paper result ≡ read_of ws.now }
{
    checks::check_sized(ws)?;
    let w = ws[0];
    checks::check_prologue(false, w, ws)?;
    checks::check_body(w, ws)?;
    let high = prologue::class_high(w, ws);
    let low = prologue::class_low(w, ws);
    Ok(prologue::packet_of(w, high, low, ws))
}

// The packet that stands at the front of the words, as 49A, which governs type 1: there CLASS is not given, and PAD comes after the other refusals. Words beyond
// its size are ignored.
pub fn read_survey(ws: &[u32]) -> Result<Survey, RefusedAt>
    ensures { told_paper result ≡ survey_told ws.now }
{
    match surveys::read_either(ws) {
        Ok(survey) => Ok(survey),
        Err(r) => Err(places::refusal_of(r, ws)),
    }
}
