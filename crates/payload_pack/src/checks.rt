// The refusals of packing: FORMAT, COUNT, VALUE, ROOM.
ghost use Rattle.std.specs.Prelude.{◌≡◌, ◌≤◌, ◌<◌, length};
ghost use Rattle.words.specs.Listed.{on_paper};
ghost use Rattle.payload_pack.specs.Pack.{fitting, value_bad};
ghost use Rattle.payload_pack.specs.inner.Packable.{pack_check};

use payload_format::inner::{items_check, words_for};
use words::Refusal;

// Whether all items fit w bits, by the bits that any of them has. The numbers of the three lists differ in their type, and each list is joined in its own, many
// numbers in an instruction; a type parameter would have no number that `fitting` could speak of.
fn items_fit(w: usize, items: &[u64]) -> bool
    requires { (1 ≤ w) × (w ≤ 64) }
    ensures { result ≡ fitting w items.now }
{
    items.iter().fold(0, |all, item| all | *item) <= words::inner::ones(w)
}

// The same of the event tags.
fn events_fit(w: usize, events: &[u8]) -> bool
    requires { w < 64 }
    ensures { result ≡ fitting w events.now }
{
    (events.iter().fold(0, |all, tag| all | *tag) as u64) < words::inner::power(w)
}

// The same of the channel tags.
fn channels_fit(w: usize, channels: &[u16]) -> bool
    requires { w < 64 }
    ensures { result ≡ fitting w channels.now }
{
    (channels.iter().fold(0, |all, tag| all | *tag) as u64) < words::inner::power(w)
}

// Whether an item or a tag does not fit its size.
#[tactic(auto, unfolding(crate::specs::Pack::value_bad))]
fn value_bad(first: u32, items: &[u64], events: &[u8], channels: &[u16]) -> bool
    ensures { result ≡ value_bad first items.now events.now channels.now }
{
    if !items_fit(fields::inner::item_size(first) as usize, items) {
        return true;
    }
    if !events_fit(fields::inner::event_size(first) as usize, events) {
        return true;
    }
    !channels_fit(fields::inner::channel_size(first) as usize, channels)
}

// The first refusal of packing, by the inputs and how many places there are.
#[tactic(auto, using(crate::proofs::PackLaws::lines))]
pub fn pack_check(
    first: u32,
    second: u32,
    items: &[u64],
    events: &[u8],
    channels: &[u16],
    room: usize,
) -> Result<(), Refusal>
    ensures { on_paper result ≡ pack_check first second items.now events.now channels.now room }
{
    let n = items.len();
    items_check(first, second, n)?;
    if events.len() != n {
        return Err(Refusal::Count);
    }
    if channels.len() != n {
        return Err(Refusal::Count);
    }
    if value_bad(first, items, events, channels) {
        return Err(Refusal::Value);
    }
    if room < words_for(first, n) {
        return Err(Refusal::Room);
    }
    Ok(())
}
