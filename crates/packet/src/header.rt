// The header word: what it says, which parts it announces, and where each begins.
ghost use Rattle.std.specs.Prelude.{◌≡◌, ◌≤◌};
ghost use Rattle.packet.specs.Header.{type_of, classed, trailed, tsm_of, reserved_of, tsi_of, tsf_of, count_of, size_of};
ghost use Rattle.packet.specs.Parts.{streamed, has_seconds, has_fraction, class_at, seconds_at, fraction_at, body_at, required_of};

pub fn type_of(w: u32) -> u32
    ensures { result ≡ type_of w }
{
    w / 0x1000_0000 % 16
}

// C: whether a class is there.
pub fn has_class(w: u32) -> bool
    ensures { result ≡ classed w }
{
    w / 0x800_0000 % 2 == 1
}

// T: whether a trailer is there.
pub fn has_trailer(w: u32) -> bool
    ensures { result ≡ trailed w }
{
    if type_of(w) < 4 {
        w / 0x400_0000 % 2 == 1
    } else {
        false
    }
}

// TSM, of a header whose reserved bits are zero: bit 24 is one of them for types 0-3.
pub fn tsm_of(w: u32) -> bool
    requires { reserved_of w ≡ 0 }
    ensures { result ≡ tsm_of w }
{
    w / 0x100_0000 % 2 == 1
}

// The reserved bits of the type.
pub fn reserved_of(w: u32) -> u32
    ensures { result ≡ reserved_of w }
{
    if type_of(w) < 4 {
        w / 0x100_0000 % 4
    } else {
        w / 0x200_0000 % 4
    }
}

pub fn tsi_of(w: u32) -> u32
    ensures { result ≡ tsi_of w }
{
    w / 0x40_0000 % 4
}

pub fn tsf_of(w: u32) -> u32
    ensures { result ≡ tsf_of w }
{
    w / 0x10_0000 % 4
}

pub fn count_of(w: u32) -> u32
    ensures { result ≡ count_of w }
{
    w / 0x1_0000 % 16
}

// The size in words, with the header.
pub fn size_of(w: u32) -> usize
    ensures { (result ≡ size_of w) × (result ≤ 65535) }
{
    (w % 0x1_0000) as usize
}

// A bit for each type that has a stream identifier: 1, 3, 4, 5.
const STREAMED: u32 = 0x3A;

// Whether a stream identifier is there.
pub fn has_stream(w: u32) -> bool
    ensures { result ≡ streamed w }
{
    (STREAMED >> type_of(w)) % 2 == 1
}

pub fn has_seconds(w: u32) -> bool
    ensures { result ≡ has_seconds w }
{
    tsi_of(w) != 0
}

pub fn has_fraction(w: u32) -> bool
    ensures { result ≡ has_fraction w }
{
    tsf_of(w) != 0
}

// Where the class begins.
pub fn class_at(w: u32) -> usize
    ensures { (result ≡ class_at w) × (result ≤ 2) }
{
    1 + words::inner::when_so(has_stream(w), 1)
}

// Where the seconds stand.
pub fn seconds_at(w: u32) -> usize
    ensures { (result ≡ seconds_at w) × (result ≤ 4) }
{
    class_at(w) + words::inner::when_so(has_class(w), 2)
}

// Where the fraction begins.
pub fn fraction_at(w: u32) -> usize
    ensures { (result ≡ fraction_at w) × (result ≤ 5) }
{
    seconds_at(w) + words::inner::when_so(has_seconds(w), 1)
}

// Where the body begins.
pub fn body_at(w: u32) -> usize
    ensures { (result ≡ body_at w) × (result ≤ 7) }
{
    fraction_at(w) + words::inner::when_so(has_fraction(w), 2)
}

// The words of the required parts.
pub fn required(w: u32) -> usize
    ensures { (result ≡ required_of w) × (result ≤ 9) }
{
    body_at(w)
        + words::inner::when_so(has_trailer(w), 1)
        + words::inner::when_so(type_of(w) == 4, 1)
}
