// Reading that follows 49A: packets of type 1, which it governs, and those of other types, which are plain.
ghost use Rattle.std.specs.Prelude.{◌≡◌, ◌^◌, ◌≤◌, ◌<◌, eqb, length, get_or};
ghost use Rattle.words.specs.Outcome.{accepted};
ghost use Rattle.words.specs.Listed.{on_paper};
ghost use Rattle.packet.specs.Header.{type_of, reserved_of, size_of};
ghost use Rattle.packet.specs.Parts.{required_of, body_length, class_high, class_low};
ghost use Rattle.packet.specs.Survey.{survey_of, read_survey_of};
ghost use Rattle.packet.specs.inner.Steps.{payload_checks};

use words::Refusal;

// Whether the words begin with a header of type 1.
fn is_governed(ws: &[u32]) -> bool
    ensures { result ≡ eqb (type_of (get_or ws.now 0 0)) 1 }
{
    if ws.len() == 0 {
        return false;
    }
    crate::header::type_of(ws[0]) == 1
}

// A packet that 49A governs, with a payload of so many words, and what its class, of the words high and low, says of it: the packet is not PAD.
fn survey_of(w: u32, high: u32, low: u32, payload: usize, ws: &[u32]) -> crate::Survey
    requires survey_packet { (required_of w ≤ size_of w) × (size_of w ≤ length ws.now) × (reserved_of w ≡ 0) × (type_of w ≡ 1) × (payload_checks w high low ≡ accepted tt) }
    requires class_and_payload { (high ≡ class_high w ws.now) × (low ≡ class_low w ws.now) × (payload ≡ body_length w) × (payload < 2 ^ 16) }
    ensures { result ≡ survey_of w ws.now }
{
    let packet = crate::Packet {
        parts: crate::prologue::parts_of(w, high, low, ws),
        size: crate::header::size_of(w),
        place: crate::header::body_at(w),
        length: payload,
    };
    let class = packet_survey::inner::Class { high, low };
    crate::Survey {
        packet,
        pad: class.pad(),
        first: class.format_first(),
        second: class.format_second(),
        items: class.items_in(payload),
    }
}

// A packet of another type.
fn other_of(w: u32, ws: &[u32]) -> crate::Survey
    requires { (required_of w ≤ size_of w) × (size_of w ≤ length ws.now) × (reserved_of w ≡ 0) × (type_of w ≡ 1 → ⊥) }
    ensures { result ≡ survey_of w ws.now }
{
    let high = crate::prologue::class_high(w, ws);
    let low = crate::prologue::class_low(w, ws);
    crate::Survey {
        packet: crate::prologue::packet_of(w, high, low, ws),
        pad: 0,
        first: 0,
        second: 0,
        items: 0,
    }
}

// Reads words that begin with a header of type 1. Its checks are asked here, so that the compiler puts them in line.
fn read_governed(ws: &[u32]) -> Result<crate::Survey, Refusal>
    requires { type_of (get_or ws.now 0 0) ≡ 1 }
    ensures { on_paper result ≡ read_survey_of ws.now }
{
    crate::checks::check_sized(ws)?;
    let w = ws[0];
    crate::checks::check_prologue(true, w, ws)?;
    let high = crate::prologue::class_high(w, ws);
    let low = crate::prologue::class_low(w, ws);
    let payload = crate::prologue::body_length(w);
    crate::checks::check_payload(w, high, low, payload)?;
    Ok(survey_of(w, high, low, payload, ws))
}

// Reads other words.
fn read_other(ws: &[u32]) -> Result<crate::Survey, Refusal>
    requires { type_of (get_or ws.now 0 0) ≡ 1 → ⊥ }
    ensures { on_paper result ≡ read_survey_of ws.now }
{
    crate::checks::check_sized(ws)?;
    let w = ws[0];
    crate::checks::check_survey(w, ws)?;
    Ok(other_of(w, ws))
}

// Reads words of either kind.
pub fn read_either(ws: &[u32]) -> Result<crate::Survey, Refusal>
    ensures { on_paper result ≡ read_survey_of ws.now }
{
    if is_governed(ws) {
        read_governed(ws)
    } else {
        read_other(ws)
    }
}
