// The format's two words: the sizes that they give, FORMAT, COUNT, and the words that fields take.
ghost use Rattle.std.specs.Prelude.{◌≡◌, ◌≤◌, ◌<◌};
ghost use Rattle.words.specs.Listed.{on_paper};
ghost use Rattle.bitstream.specs.Carried.{needed};
ghost use Rattle.payload_format.specs.Format.{link_efficient, component_repeat, repeat_size, vector_size, component_count, wide_processing};
ghost use Rattle.payload_format.specs.Format.{format_bad, carried_bits, packing_of};
ghost use Rattle.payload_format.specs.Count.{group_of, count_bad, words_for};
ghost use Rattle.payload_format.specs.inner.Checked.{items_check};

use fields::inner::{channel_size, event_size, format_ok, item_size, packing_size, real_complex};
use words::Refusal;

// The sizes of a packing, in bits: how many of each word carry fields, and those of a field and its parts. They are those of any format, refused or not, so the
// type has no invariant; what is known of a format that is not refused is `Legal`, a clause of those that need it.
#[derive(Clone, Copy)]
pub struct Packing {
    pub carry: usize,
    pub field: usize,
    pub item: usize,
    pub event: usize,
    pub channel: usize,
}

// Whether a format is link-efficient.
fn link_efficient(first: u32) -> bool
    ensures { result ≡ link_efficient first }
{
    first / 0x8000_0000 % 2 == 1
}

// Whether a format has bit 23, component repeat.
pub fn component_repeat(first: u32) -> bool
    ensures { result ≡ component_repeat first }
{
    first / 0x80_0000 % 2 == 1
}

// How many samples of a channel, or components of one kind, follow each other.
pub fn repeat_size(second: u32) -> u32
    ensures { result ≡ repeat_size second }
{
    second / 0x1_0000 % 0x1_0000 + 1
}

// How many channels a sample vector has.
pub fn vector_size(second: u32) -> u32
    ensures { result ≡ vector_size second }
{
    second % 0x1_0000 + 1
}

// How many components a sample has.
#[tactic(auto, unfolding(crate::specs::Format::component_count))]
pub fn component_count(first: u32) -> u32
    ensures { (result ≡ component_count first) × (0 < result) × (result ≤ 2) }
{
    if real_complex(first) == 0 {
        return 1;
    }
    2
}

// Whether a format is processing-efficient with a field of 33 to 63 bits.
#[tactic(auto, unfolding(crate::specs::Format::wide_processing))]
fn wide_processing(first: u32) -> bool
    ensures { result ≡ wide_processing first }
{
    if link_efficient(first) {
        return false;
    }
    let field = packing_size(first);
    32 < field && field < 64
}

// Whether a format is refused.
#[tactic(auto, unfolding(crate::specs::Format::format_bad))]
fn format_bad(first: u32) -> bool
    ensures { result ≡ format_bad first }
{
    !format_ok(first) || wide_processing(first)
}

// How many bits of each word carry packing fields.
#[tactic(auto, unfolding(crate::specs::Format::carried_bits))]
fn carry(first: u32) -> usize
    ensures { (result ≡ carried_bits first) × (result ≤ 32) }
{
    if link_efficient(first) {
        return 32;
    }
    let field = packing_size(first) as usize;
    if field <= 32 {
        return 32 / field * field;
    }
    32
}

// The sizes that a format gives.
#[tactic(auto, unfolding(crate::specs::Format::packing_of))]
pub fn packing_of(first: u32) -> Packing
    ensures { result ≡ packing_of first }
{
    Packing {
        carry: carry(first),
        field: packing_size(first) as usize,
        item: item_size(first) as usize,
        event: event_size(first) as usize,
        channel: channel_size(first) as usize,
    }
}

// The group of items that the number of items is a multiple of: up to 2 ^ 33 items, which 64 bits hold.
#[tactic(auto, using(crate::proofs::GroupLaws::factors, crate::proofs::GroupLaws::products))]
pub fn group(first: u32, second: u32) -> usize
    ensures { (result ≡ group_of first second) × (0 < result) }
{
    let samples = vector_size(second) as usize * repeat_size(second) as usize;
    samples * component_count(first) as usize
}

// Whether a number of items is refused. A format that repeats nothing, as most do, has a division of its own: its group is small, and the compiler divides in
// 32 bits.
#[tactic(auto, using(crate::proofs::GroupLaws::factors, crate::proofs::GroupLaws::count_laws))]
fn count_bad(first: u32, second: u32, n: usize) -> bool
    ensures { result ≡ count_bad first second n }
{
    if 2_097_120 < n {
        return true;
    }
    let vector = vector_size(second) as usize * component_count(first) as usize;
    let repeats = repeat_size(second) as usize;
    if repeats == 1 {
        return n % vector != 0;
    }
    n % (vector * repeats) != 0
}

// The words that n fields of f bits take, where c bits of each word carry them. The division is in 32 bits, which compiles to fewer instructions.
pub fn words_of(c: usize, f: usize, n: usize) -> usize
    requires { (0 < c) × (c ≤ 32) × (f ≤ 64) × (n ≤ 2097120) }
    ensures { result ≡ needed c f n }
{
    let bits = (f * n + (c - 1)) as u32;
    (bits / c as u32) as usize
}

// The words that n items take under a format.
#[tactic(auto, using(crate::proofs::FormatLaws::sizes, crate::proofs::FormatLaws::words_for_lem), unfolding(crate::specs::Format::packing_of))]
pub fn words_for(first: u32, n: usize) -> usize
    requires { n ≤ 2097120 }
    ensures { result ≡ words_for first n }
{
    let p = packing_of(first);
    words_of(p.carry, p.field, n)
}

// FORMAT, then COUNT of n items: what `words_needed`, packing, unpacking and the numbering of items ask first.
#[tactic(auto, unfolding(crate::specs::inner::Checked::items_check))]
pub fn items_check(first: u32, second: u32, n: usize) -> Result<(), Refusal>
    ensures { on_paper result ≡ items_check first second n }
{
    if format_bad(first) {
        return Err(Refusal::Format);
    }
    if count_bad(first, second, n) {
        return Err(Refusal::Count);
    }
    Ok(())
}
