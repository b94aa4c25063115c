// The words of a packet, laid into a buffer: the prologue, the body and the trailer in turn. Its parts are fifteen words q; w is its header word, and pad the pad
// count in its class, 0 for plain 49.0.
ghost use Rattle.std.specs.Prelude.{◌≡◌, true, [], ◌∷◌, ◌++◌, ◌+◌, ◌^◌, ◌≤◌, ◌<◌, length, take, drop};
ghost use Rattle.words.specs.Tests.{when};
ghost use Rattle.words.specs.Part.{part, put};
ghost use Rattle.words.specs.Laid.{Laid};
ghost use Rattle.packet.specs.Header.{classed};
ghost use Rattle.packet_write.specs.Write.{header_word, size_for, given, class_first, class_word, leading_words, class_words, time_words, prologue_words, trailer_words, packet_words, parts_fit};
ghost use Rattle.packet_write.specs.AsWords.{parts_in};
ghost use Rattle.packet_write.specs.inner.Given.{HeaderFor, Layable};

use crate::parts;

// The header word of parts that fit, with a size of 0: its fields from the left, each shifted by the widths of those after it.
pub fn header_word(q: &[u32]) -> u32
    requires { (length q.now ≡ 15) × ((parts_in q.now).kind < 6) × (parts_fit (parts_in q.now) ≡ true) }
    ensures { result ≡ header_word (parts_in q.now) 0 }
{
    let flags = ((q[parts::KIND] * 2 + q[parts::CLASSED] % 2) * 2 + q[parts::TRAILED] % 2) * 4
        + q[parts::TSM] % 2;
    (((flags * 4 + q[parts::TSI]) * 4 + q[parts::TSF]) * 16 + q[parts::COUNT]) * 0x1_0000
}

// The words of a packet whose body has n; w is its header word but for its size.
pub fn size_for(w: u32, q: &[u32], n: usize) -> usize
    requires parts_given { (length q.now ≡ 15) × ((parts_in q.now).kind < 6) × (parts_fit (parts_in q.now) ≡ true) }
    requires header_given { (w ≡ header_word (parts_in q.now) 0) × (n < 2 ^ 62) }
    ensures { (result ≡ size_for (parts_in q.now) n) × (1 ≤ result) × (result ≤ n + 8) }
{
    packet::inner::body_at(w) + n + words::inner::when_so(q[parts::TRAILED] % 2 == 1, 1)
}

// One word, if it is there; answers the place past it.
fn lay_one(present: bool, word: u32, out: &mut [u32], at: usize) -> usize
    requires { at + when present 1 ≤ length out.old }
    ensures { Laid out.old at (given present (word ∷ [])) result out.new }
{
    if present {
        out[at] = word;
        return at + 1;
    }
    at
}

// Two words, if they are there; answers the place past them.
fn lay_two(present: bool, high: u32, low: u32, out: &mut [u32], at: usize) -> usize
    requires { at + when present 2 ≤ length out.old }
    ensures { Laid out.old at (given present (high ∷ low ∷ [])) result out.new }
{
    if present {
        out[at] = high;
        out[at + 1] = low;
        return at + 2;
    }
    at
}

// The header and the stream identifier, from the start of a buffer.
fn lay_head(w: u32, q: &[u32], out: &mut [u32]) -> usize
    requires { HeaderFor w q.now × (length (leading_words w (parts_in q.now)) ≤ length out.old) }
    ensures { Laid out.old 0 (leading_words w (parts_in q.now)) result out.new }
{
    let a = lay_one(true, w, out, 0);
    lay_one(packet::inner::has_stream(w), q[parts::IDENTIFIER], out, a)
}

// The class's first word: the pad count, three zeros and the OUI.
pub fn class_first(pad: u32, oui: u32) -> u32
    requires { (pad < 32) × (oui < 2 ^ 24) }
    ensures { result ≡ class_first pad oui }
{
    pad * 0x800_0000 + oui
}

// The class's second word.
pub fn class_word(information: u32, code: u32) -> u32
    requires { (information < 2 ^ 16) × (code < 2 ^ 16) }
    ensures { result ≡ class_word information code }
{
    information * 0x1_0000 + code
}

// The class, from a place on.
fn lay_class(w: u32, pad: u32, q: &[u32], out: &mut [u32], at: usize) -> usize
    requires { HeaderFor w q.now × (classed w ≡ true → pad < 32) × (at + length (class_words pad w (parts_in q.now)) ≤ length out.old) }
    ensures { Laid out.old at (class_words pad w (parts_in q.now)) result out.new }
{
    if packet::inner::has_class(w) {
        let first = class_first(pad, q[parts::OUI]);
        let second = class_word(q[parts::INFORMATION], q[parts::CODE]);
        return lay_two(true, first, second, out, at);
    }
    at
}

// The seconds and the fraction, from a place on.
fn lay_time(w: u32, q: &[u32], out: &mut [u32], at: usize) -> usize
    requires { HeaderFor w q.now × (at + length (time_words w (parts_in q.now)) ≤ length out.old) }
    ensures { Laid out.old at (time_words w (parts_in q.now)) result out.new }
{
    let a = lay_one(packet::inner::has_seconds(w), q[parts::SECONDS], out, at);
    let high = q[parts::HIGH];
    let low = q[parts::LOW];
    lay_two(packet::inner::has_fraction(w), high, low, out, a)
}

// What stands before the body, from the start of a buffer.
#[inline(always)]
fn lay_prologue(w: u32, pad: u32, q: &[u32], out: &mut [u32]) -> usize
    requires { HeaderFor w q.now × (classed w ≡ true → pad < 32) × (length (prologue_words pad w (parts_in q.now)) ≤ length out.old) }
    ensures { Laid out.old 0 (prologue_words pad w (parts_in q.now)) result out.new }
{
    let a = lay_head(w, q, out);
    let b = lay_class(w, pad, q, out, a);
    lay_time(w, q, out, b)
}

// The most words of a block of a body.
const BLOCK: usize = 2048;

// A block of the body, n words, at the same place of a buffer. Through an array of its own it is copied at once; the compiled code has a call of memmove, and no
// array. By `copy_from_slice` it asks first whether the two overlap, and writing a small packet took 17 instructions more, a tenth.
fn lay_block(body: &[u32], out: &mut [u32], at: usize, n: usize)
    requires { (n ≤ 2048) × (at + n ≤ length body.now) × (at + n ≤ length out.old) }
    ensures { out.new ≡ put at n (part at n body.now) out.old }
{
    let mut block = [0u32; BLOCK];
    words::inner::copy_part(&mut block, 0, body, at, n);
    words::inner::copy_part(out, at, &block, 0, n);
}

// The body, from the start of a buffer: what whole blocks leave, which is all of most bodies, and then the whole blocks.
#[inline(always)]
fn lay_body(body: &[u32], out: &mut [u32]) -> usize
    requires { length body.now ≤ length out.old }
    ensures { Laid out.old 0 body.now result out.new }
{
    let n = body.len();
    let mut at = n % BLOCK;
    lay_block(body, out, 0, at);
    while at < n {
        lay_block(body, out, at, BLOCK);
        at += BLOCK;
    }
    n
}

// The trailer, from the start of a buffer.
fn lay_trailer(w: u32, q: &[u32], out: &mut [u32]) -> usize
    requires { HeaderFor w q.now × (length (trailer_words w (parts_in q.now)) ≤ length out.old) }
    ensures { Laid out.old 0 (trailer_words w (parts_in q.now)) result out.new }
{
    lay_one(q[parts::TRAILED] % 2 == 1, q[parts::TRAILER], out, 0)
}

// The three in turn, each lent the part of the buffer that is left, from a place on.
#[inline(always)]
fn lay_parts(w: u32, pad: u32, q: &[u32], body: &[u32], out: &mut [u32], at: usize) -> usize
    requires header_given { HeaderFor w q.now × (classed w ≡ true → pad < 32) }
    requires room_left { at + (length (prologue_words pad w (parts_in q.now)) + length body.now + length (trailer_words w (parts_in q.now))) ≤ length out.old }
    ensures { Laid out.old at (prologue_words pad w (parts_in q.now) ++ body.now ++ trailer_words w (parts_in q.now)) result out.new }
{
    let a = at + lay_prologue(w, pad, q, &mut out[at..]);
    let b = a + lay_body(body, &mut out[a..]);
    b + lay_trailer(w, q, &mut out[b..])
}

// A packet that nothing refuses, at its place; w is its header word but for its size. It is put in line, as the steps before it are (`write_chosen`).
#[inline(always)]
pub fn lay(w: u32, size: usize, pad: u32, q: &[u32], body: &[u32], out: &mut [u32], at: usize)
    requires parts_given { (length q.now ≡ 15) × Layable pad (parts_in q.now) body.now (length out.old) at }
    requires header_given { (w ≡ header_word (parts_in q.now) 0) × (size ≡ size_for (parts_in q.now) (length body.now)) }
    ensures { out.new ≡ take at out.old ++ packet_words pad (parts_in q.now) body.now ++ drop (at + size) out.old }
{
    lay_parts(w + size as u32, pad, q, body, out, at);
}
