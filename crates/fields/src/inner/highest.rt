// The highest field of a body that breaks its rule. It is sought where a packet is refused, and not on the way of one that is accepted.
ghost use Rattle.std.specs.Prelude.{◌≡◌, ◌^◌, ◌<◌};
ghost use Rattle.words.specs.Told.{place_word};
ghost use Rattle.fields.specs.Broken.{broken_of};

use crate::inner::carried::Fields;
use crate::inner::layout::field_kept;
use crate::inner::sizes::{words_from, words_of};

// Where the highest broken field of a body stands, from the body's start, and its bit; nowhere if no field is broken.
pub fn broken(body: &[u32]) -> words::Where
    ensures { (result ≡ broken_of body.now) × (place_word result < 2 ^ 40) }
{
    let indicator = words::inner::word_at(body, 0);
    let mut at = 1;
    for bit in Fields(indicator % 0x8000_0000) {
        let ws = words_from(body, at);
        if !field_kept(bit, ws) {
            return words::Where::Field(at, bit);
        }
        at += words_of(bit, ws);
    }
    words::Where::Nowhere
}
