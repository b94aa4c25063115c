// The words that items take.
ghost use Rattle.std.specs.Prelude.{◌≡◌};
ghost use Rattle.words.specs.Listed.{on_paper};
ghost use Rattle.payload_format.specs.Count.{needed_of};

use crate::inner::{items_check, words_for};
use words::Refusal;

// The words that n items take under a format, for callers who must make room; FORMAT and COUNT as in packing.
#[tactic(auto, using(crate::proofs::FormatLaws::items_few, crate::proofs::FormatLaws::needed_refused, crate::proofs::FormatLaws::needed_accepted))]
pub fn words_needed(first: u32, second: u32, n: usize) -> Result<usize, Refusal>
    ensures { on_paper result ≡ needed_of first second n }
{
    items_check(first, second, n)?;
    Ok(words_for(first, n))
}
