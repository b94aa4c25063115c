// The refusals of reading, each number in one place.
ghost use Rattle.std.specs.Prelude.{◌≡◌, true, false, ◌^◌, ◌≤◌, ◌<◌, leb, length};
ghost use Rattle.words.specs.Word.{high_first};
ghost use Rattle.words.specs.Listed.{on_paper};
ghost use Rattle.packet.specs.Header.{type_of, size_of};
ghost use Rattle.packet.specs.Parts.{required_of, body_length, body_of};
ghost use Rattle.packet.specs.Read.{class_bad};
ghost use Rattle.packet.specs.inner.Steps.{header_checks, size_checks, prologue_checks, body_checks, payload_checks, governed_checks, rest_checks, sized_checks};

use words::Refusal;

// TYPE and BITS.
fn check_header(w: u32) -> Result<(), Refusal>
    ensures { on_paper result ≡ header_checks w }
{
    if 5 < crate::header::type_of(w) {
        return Err(Refusal::Kind);
    }
    if crate::header::reserved_of(w) != 0 {
        return Err(Refusal::Bits);
    }
    Ok(())
}

// SHORT and CUT, of words as many as given.
fn check_size(w: u32, given: usize) -> Result<(), Refusal>
    ensures { on_paper result ≡ size_checks w given }
{
    let size = crate::header::size_of(w);
    if size < crate::header::required(w) {
        return Err(Refusal::Short);
    }
    if given < size {
        return Err(Refusal::Cut);
    }
    Ok(())
}

// Whether a fraction, given as its two words, is 10^12 or more: 10^12 is 232 times 2^32 and 3,567,587,328.
pub fn fraction_over(high: u32, low: u32) -> bool
    ensures { result ≡ leb (10 ^ 12) (high_first high low) }
{
    if high < 232 {
        return false;
    }
    if 232 < high {
        return true;
    }
    3_567_587_328 <= low
}

// Whether the class's first word has a bit set that is to be zero. The top eight are, unless they are free.
fn class_bad(free: bool, high: u32) -> bool
    ensures { result ≡ class_bad free high }
{
    if free {
        return false;
    }
    high / 0x100_0000 % 256 != 0
}

// CLASS and TIME.
pub fn check_prologue(free: bool, w: u32, ws: &[u32]) -> Result<(), Refusal>
    requires { (required_of w ≤ size_of w) × (size_of w ≤ length ws.now) }
    ensures { on_paper result ≡ prologue_checks free w ws.now }
{
    if class_bad(free, crate::prologue::class_high(w, ws)) {
        return Err(Refusal::Class);
    }
    if crate::header::tsf_of(w) != 2 {
        return Ok(());
    }
    let at = crate::header::fraction_at(w);
    if fraction_over(ws[at], ws[at + 1]) {
        return Err(Refusal::Time);
    }
    Ok(())
}

// INDICATOR, LAYOUT and FIELD, of the body of a packet whose header and size are right: of types other than 4 there is nothing to refuse.
pub fn check_body(w: u32, ws: &[u32]) -> Result<(), Refusal>
    requires { (required_of w ≤ size_of w) × (size_of w ≤ length ws.now) }
    ensures { on_paper result ≡ body_checks (type_of w) (body_of w ws.now) }
{
    if crate::header::type_of(w) != 4 {
        return Ok(());
    }
    let at = crate::header::body_at(w);
    let end = crate::prologue::body_end(w);
    fields::check_body(&ws[at..end])
}

// PAD, of a packet that 49A governs, whose header and size are right: by its class, of the words high and low, its trailer and its payload of so many words.
pub fn check_payload(w: u32, high: u32, low: u32, payload: usize) -> Result<(), Refusal>
    requires { (payload ≡ body_length w) × (payload < 2 ^ 16) }
    ensures { on_paper result ≡ payload_checks w high low }
{
    let class = packet_survey::inner::Class { high, low };
    if class.pad_bad(
        crate::header::has_class(w),
        crate::header::has_trailer(w),
        payload,
    ) {
        return Err(Refusal::Pad);
    }
    Ok(())
}

// Of a packet that 49A governs, whose header and size are right: TIME, and then PAD. Its class has a pad count, and so CLASS is not given.
fn check_governed(w: u32, ws: &[u32]) -> Result<(), Refusal>
    requires { (required_of w ≤ size_of w) × (size_of w ≤ length ws.now) }
    ensures { on_paper result ≡ governed_checks w ws.now }
{
    check_prologue(true, w, ws)?;
    check_payload(
        w,
        crate::prologue::class_high(w, ws),
        crate::prologue::class_low(w, ws),
        crate::prologue::body_length(w),
    )
}

// Of a packet whose header and size are right, where 49A is chosen: all that is left.
pub fn check_survey(w: u32, ws: &[u32]) -> Result<(), Refusal>
    requires { (required_of w ≤ size_of w) × (size_of w ≤ length ws.now) }
    ensures { on_paper result ≡ rest_checks true w ws.now }
{
    if crate::header::type_of(w) == 1 {
        return check_governed(w, ws);
    }
    check_prologue(false, w, ws)?;
    check_body(w, ws)
}

// EMPTY, and then TYPE, BITS, SHORT and CUT: what the header and the number of words decide.
pub fn check_sized(ws: &[u32]) -> Result<(), Refusal>
    ensures { on_paper result ≡ sized_checks ws.now }
{
    if ws.len() == 0 {
        return Err(Refusal::Empty);
    }
    let w = ws[0];
    check_header(w)?;
    check_size(w, ws.len())
}
