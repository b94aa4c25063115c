// Unpacking: items and their tags from words. The buffers stay parameters on the way down, as `unpack` is lent them: each loop writes one or all three of them
// by themselves, so a struct of them would be made only to be taken apart.
ghost use Rattle.std.specs.Prelude.{◌≡◌, ◌≤◌, length};
ghost use Rattle.words.specs.Listed.{on_paper};
ghost use Rattle.words.specs.Outcome.{Meets};
ghost use Rattle.payload_unpack.specs.Unpack.{buffers, unpacked, unpack_of};
ghost use Rattle.bitstream.specs.Carried.{needed};
ghost use Rattle.payload_format.specs.inner.Legal.{Legal};
ghost use Rattle.payload_unpack.specs.inner.Unpackable.{fit_check, Unpackable};

use crate::plain::{clear_tags, unpack_plain};
use crate::tagged::unpack_tagged;
use payload_format::inner::{Packing, items_check, packing_of, words_of};
use words::Refusal;

// COUNT of the words that are given, then ROOM by how many places there are: the refusals of unpacking behind those of a format and n.
#[tactic(auto, using(crate::proofs::UnpackLaws::lines))]
fn fit_check(
    p: Packing,
    n: usize,
    given: usize,
    items: usize,
    events: usize,
    channels: usize,
) -> Result<(), Refusal>
    requires { Legal p × (n ≤ 2097120) }
    ensures { on_paper result ≡ fit_check (needed p.carry p.field n) n given items events channels }
{
    if given != words_of(p.carry, p.field, n) {
        return Err(Refusal::Count);
    }
    if items < n {
        return Err(Refusal::Room);
    }
    if events < n {
        return Err(Refusal::Room);
    }
    if channels < n {
        return Err(Refusal::Room);
    }
    Ok(())
}

// The items and tags of the first n fields: where a format has no tags, the items alone, and all tags 0.
fn unpack_fields(
    p: Packing,
    n: usize,
    payload: &[u32],
    items: &mut [u64],
    events: &mut [u8],
    channels: &mut [u16],
)
    requires { Unpackable p n payload.now (length items.old) × (n ≤ length events.old) × (n ≤ length channels.old) }
    ensures { buffers items.new events.new channels.new
        ≡ unpacked p n payload.now (buffers items.old events.old channels.old) }
{
    if n == 0 {
        return;
    }
    if p.event + p.channel == 0 {
        unpack_plain(p, n, payload, items);
        clear_tags(n, events, channels);
        return;
    }
    unpack_tagged(p, n, payload, items, events, channels);
}

// The n items in the words, with their event and channel tags, under a format: how many there are, or the first refusal of FORMAT,
// COUNT and ROOM. They fill the first n places of the buffers; the other places stay, and after a refusal all do.
pub fn unpack(
    first: u32,
    second: u32,
    n: usize,
    payload: &[u32],
    items: &mut [u64],
    events: &mut [u8],
    channels: &mut [u16],
) -> Result<usize, Refusal>
    ensures { Meets on_paper
        (unpack_of first second n payload.now (buffers items.old events.old channels.old))
        (buffers items.old events.old channels.old) result
        (buffers items.new events.new channels.new) }
{
    items_check(first, second, n)?;
    let p = packing_of(first);
    let given = payload.len();
    fit_check(p, n, given, items.len(), events.len(), channels.len())?;
    unpack_fields(p, n, payload, items, events, channels);
    Ok(n)
}
