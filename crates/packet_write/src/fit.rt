// The refusals of writing, of a packet whose parts are fifteen words q; at the end those of a packet of type 1 that is written as 49A, with a pad count. Each number
// of the list is given in one place, but for those that reading has too, and for SHORT and VALUE.
ghost use Rattle.std.specs.Prelude.{◌≡◌, true, ◌+◌, ◌^◌, ◌≤◌, ◌<◌, eqb, length};
ghost use Rattle.words.specs.Numbers.{SHORT, TIME};
ghost use Rattle.words.specs.Tests.{pick, both};
ghost use Rattle.words.specs.Listed.{list_number, on_paper};
ghost use Rattle.packet_survey.specs.Payload.{pad_bad};
ghost use Rattle.packet.specs.Header.{type_of};
ghost use Rattle.packet.specs.Read.{time_over};
ghost use Rattle.packet_write.specs.Write.{header_word, size_for, class_first, class_word, codes_fit, flags_fit, class_fits, pad_fits, parts_fit};
ghost use Rattle.packet_write.specs.inner.Steps.{plain_checks, content_checks, pad_checks, room_checks};
ghost use Rattle.packet_write.specs.AsWords.{parts_in};
ghost use Rattle.packet_write.specs.inner.Given.{Chosen, Governed};

use crate::parts;
use words::Refusal;

// Whether TSI, TSF and the count fit their bits. By `&&` what is left to prove has names that the check makes up.
fn codes_fit(tsi: u32, tsf: u32, count: u32) -> bool
    ensures { result ≡ codes_fit tsi tsf count }
{
    words::inner::both_of(tsi < 4, words::inner::both_of(tsf < 4, count < 16))
}

// Whether T and TSM are asked only of types that have them.
fn flags_fit(kind: u32, trailed: bool, tsm: bool) -> bool
    ensures { result ≡ flags_fit kind trailed tsm }
{
    if kind < 4 { !tsm } else { !trailed }
}

// Whether the class, where there is one, fits its bits.
fn class_fits(classed: bool, oui: u32, information: u32, code: u32) -> bool
    ensures { result ≡ class_fits classed oui information code }
{
    if classed {
        words::inner::both_of(
            oui < 0x100_0000,
            words::inner::both_of(information < 0x1_0000, code < 0x1_0000),
        )
    } else {
        true
    }
}

// TYPE and VALUE.
pub fn check_parts(q: &[u32]) -> Result<(), Refusal>
    requires { length q.now ≡ 15 }
    ensures { on_paper result ≡ plain_checks (parts_in q.now) }
{
    if 5 < q[parts::KIND] {
        return Err(Refusal::Kind);
    }
    if !codes_fit(q[parts::TSI], q[parts::TSF], q[parts::COUNT]) {
        return Err(Refusal::Value);
    }
    if !flags_fit(
        q[parts::KIND],
        q[parts::TRAILED] % 2 == 1,
        q[parts::TSM] % 2 == 1,
    ) {
        return Err(Refusal::Value);
    }
    if !class_fits(
        q[parts::CLASSED] % 2 == 1,
        q[parts::OUI],
        q[parts::INFORMATION],
        q[parts::CODE],
    ) {
        return Err(Refusal::Value);
    }
    Ok(())
}

// Whether the fraction is TIME.
fn time_over(q: &[u32]) -> bool
    requires { length q.now ≡ 15 }
    ensures { result ≡ time_over (parts_in q.now).tsf (parts_in q.now).fraction }
{
    if q[parts::TSF] != 2 {
        return false;
    }
    packet::inner::fraction_over(q[parts::HIGH], q[parts::LOW])
}

// The refusal of a packet of a type whose fraction is TIME, with a body of n words: SHORT comes first.
fn short_or_time(kind: u32, n: usize) -> Refusal
    ensures { list_number result ≡ pick (both (eqb kind 4) (eqb n 0)) SHORT TIME }
{
    if kind == 4 && n == 0 {
        return Refusal::Short;
    }
    Refusal::Time
}

// SHORT, SIZE, TIME, INDICATOR, LAYOUT and FIELD, of a packet of a size. SHORT is asked late, so that it costs nothing where the type is not 4: a packet that
// is SHORT is not SIZE, and where TIME is found, SHORT comes first.
pub fn check_content(q: &[u32], body: &[u32], size: usize) -> Result<(), Refusal>
    requires parts_given { length q.now ≡ 15 }
    requires size_told { (size ≡ size_for (parts_in q.now) (length body.now)) × (size ≤ length body.now + 8) }
    requires type_kept { type_of (header_word (parts_in q.now) 0) ≡ (parts_in q.now).kind }
    ensures { on_paper result ≡ content_checks (parts_in q.now) body.now }
{
    if 65535 < size {
        return Err(Refusal::Size);
    }
    if time_over(q) {
        return Err(short_or_time(q[parts::KIND], body.len()));
    }
    if q[parts::KIND] != 4 {
        return Ok(());
    }
    if body.len() == 0 {
        return Err(Refusal::Short);
    }
    fields::check_body(body)
}

// ROOM, of a packet of a size in a buffer with room words.
pub fn check_room(room: usize, at: usize, size: usize) -> Result<(), Refusal>
    requires { 1 ≤ size }
    ensures { on_paper result ≡ room_checks room at size }
{
    if room < at {
        return Err(Refusal::Room);
    }
    if room - at < size {
        return Err(Refusal::Room);
    }
    Ok(())
}

// Whether the pad count fits its five bits, where 49A governs the packet and there is a class.
pub fn pad_fits(governed: bool, pad: u32, q: &[u32]) -> bool
    requires { (length q.now ≡ 15) × Chosen governed pad (parts_in q.now) }
    ensures { result ≡ pad_fits governed pad (parts_in q.now) }
{
    if !governed {
        return true;
    }
    if q[parts::CLASSED] % 2 == 1 {
        return pad < 32;
    }
    true
}

// Whether a packet with a body of n words is PAD, as it is without a class: only where there is one do its numbers fit, and its words are made.
fn pad_bad(pad: u32, q: &[u32], n: usize) -> bool
    requires { (length q.now ≡ 15) × Governed pad (parts_in q.now) × (n < 2 ^ 16) }
    ensures { result ≡ pad_bad (parts_in q.now).classed (parts_in q.now).trailed (class_first pad (parts_in q.now).oui) (class_word (parts_in q.now).information (parts_in q.now).code) n }
{
    if q[parts::CLASSED] % 2 == 1 {
        let class = packet_survey::inner::Class {
            high: crate::laying::class_first(pad, q[parts::OUI]),
            low: crate::laying::class_word(q[parts::INFORMATION], q[parts::CODE]),
        };
        return class.pad_bad(true, q[parts::TRAILED] % 2 == 1, n);
    }
    true
}

// PAD, of the parts and the body, where 49A governs the packet.
pub fn check_pad(governed: bool, pad: u32, q: &[u32], body: &[u32]) -> Result<(), Refusal>
    requires chosen { (length q.now ≡ 15) × Chosen governed pad (parts_in q.now) }
    requires fitting { (parts_fit (parts_in q.now) ≡ true) × (pad_fits governed pad (parts_in q.now) ≡ true) × (length body.now ≤ 65535) }
    ensures { on_paper result ≡ pad_checks governed pad (parts_in q.now) body.now }
{
    if !governed {
        return Ok(());
    }
    if pad_bad(pad, q, body.len()) {
        return Err(Refusal::Pad);
    }
    Ok(())
}
