// Packing: words from items and their tags, under a payload format.
#![tactic(auto)]

ghost use Rattle.words.specs.Listed.{on_paper};
ghost use Rattle.words.specs.Outcome.{Meets};
ghost use Rattle.payload_pack.specs.Pack.{pack_of};

mod checks;
mod making;

use checks::pack_check;
use making::pack_fields;
use payload_format::inner::{packing_of, words_for};
use words::Refusal;

// The words of the items with their event and channel tags, under a format: how many words there are, or the first refusal of FORMAT,
// COUNT, VALUE and ROOM. They fill the first places of out; the other places stay, and after a refusal all do.
#[tactic(auto, using(crate::proofs::PackLaws::few_items))]
pub fn pack(
    first: u32,
    second: u32,
    items: &[u64],
    events: &[u8],
    channels: &[u16],
    out: &mut [u32],
) -> Result<usize, Refusal>
    ensures { Meets on_paper (pack_of first second items.now events.now channels.now out.old) out.old result out.new }
{
    pack_check(first, second, items, events, channels, out.len())?;
    let n = items.len();
    pack_fields(packing_of(first), n, items, events, channels, out);
    Ok(words_for(first, n))
}
