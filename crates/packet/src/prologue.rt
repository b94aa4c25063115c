// The parts of a packet whose words are all there.
ghost use Rattle.std.specs.Prelude.{◌≡◌, true, ◌+◌, ◌^◌, ◌≤◌, ◌<◌, length};
ghost use Rattle.packet.specs.Header.{reserved_of, size_of};
ghost use Rattle.packet.specs.Parts.{streamed, required_of, body_at, body_length, word_if, class_high, class_low, fraction_of, parts_of, packet_of};

// The word at a place, of a part that may be absent.
fn word_if(present: bool, at: usize, ws: &[u32]) -> u32
    requires { present ≡ true → at < length ws.now }
    ensures { result ≡ word_if present at ws.now }
{
    if present { ws[at] } else { 0 }
}

// The stream identifier.
pub fn identifier_of(w: u32, ws: &[u32]) -> u32
    requires { (required_of w ≤ size_of w) × (size_of w ≤ length ws.now) }
    ensures { result ≡ word_if (streamed w) 1 ws.now }
{
    word_if(crate::header::has_stream(w), 1, ws)
}

// The class's first word.
pub fn class_high(w: u32, ws: &[u32]) -> u32
    requires { (required_of w ≤ size_of w) × (size_of w ≤ length ws.now) }
    ensures { result ≡ class_high w ws.now }
{
    word_if(crate::header::has_class(w), crate::header::class_at(w), ws)
}

// The class's second word.
pub fn class_low(w: u32, ws: &[u32]) -> u32
    requires { (required_of w ≤ size_of w) × (size_of w ≤ length ws.now) }
    ensures { result ≡ class_low w ws.now }
{
    word_if(
        crate::header::has_class(w),
        crate::header::class_at(w) + 1,
        ws,
    )
}

// The fraction.
fn fraction_of(w: u32, ws: &[u32]) -> u64
    requires { (required_of w ≤ size_of w) × (size_of w ≤ length ws.now) }
    ensures { result ≡ fraction_of w ws.now }
{
    let present = crate::header::has_fraction(w);
    let at = crate::header::fraction_at(w);
    let high = word_if(present, at, ws);
    let low = word_if(present, at + 1, ws);
    words::inner::high_first(high, low)
}

// Where the body ends.
pub fn body_end(w: u32) -> usize
    requires { required_of w ≤ size_of w }
    ensures { result ≡ body_at w + body_length w }
{
    crate::header::size_of(w) - words::inner::when_so(crate::header::has_trailer(w), 1)
}

// The words of the body.
pub fn body_length(w: u32) -> usize
    requires { required_of w ≤ size_of w }
    ensures { (result ≡ body_length w) × (result < 2 ^ 16) }
{
    body_end(w) - crate::header::body_at(w)
}

// All parts beside the body; high and low are the class's words.
pub fn parts_of(w: u32, high: u32, low: u32, ws: &[u32]) -> crate::Parts
    requires packet_whole { (required_of w ≤ size_of w) × (size_of w ≤ length ws.now) × (reserved_of w ≡ 0) }
    requires class_words { (high ≡ class_high w ws.now) × (low ≡ class_low w ws.now) }
    ensures { result ≡ parts_of w ws.now }
{
    crate::Parts {
        kind: crate::header::type_of(w),
        classed: crate::header::has_class(w),
        trailed: crate::header::has_trailer(w),
        tsm: crate::header::tsm_of(w),
        tsi: crate::header::tsi_of(w),
        tsf: crate::header::tsf_of(w),
        count: crate::header::count_of(w),
        identifier: identifier_of(w, ws),
        oui: high % 0x100_0000,
        information: low / 0x1_0000 % 0x1_0000,
        code: low % 0x1_0000,
        seconds: word_if(
            crate::header::has_seconds(w),
            crate::header::seconds_at(w),
            ws,
        ),
        fraction: fraction_of(w, ws),
        trailer: word_if(
            crate::header::has_trailer(w),
            crate::header::size_of(w) - 1,
            ws,
        ),
    }
}

// The packet that was read; high and low are the class's words.
pub fn packet_of(w: u32, high: u32, low: u32, ws: &[u32]) -> crate::Packet
    requires packet_whole { (required_of w ≤ size_of w) × (size_of w ≤ length ws.now) × (reserved_of w ≡ 0) }
    requires class_words { (high ≡ class_high w ws.now) × (low ≡ class_low w ws.now) }
    ensures { result ≡ packet_of w ws.now }
{
    let place = crate::header::body_at(w);
    let end = body_end(w);
    crate::Packet {
        parts: parts_of(w, high, low, ws),
        size: crate::header::size_of(w),
        place,
        length: end - place,
    }
}
