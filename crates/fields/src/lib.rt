// The fields of a type 4 body: how many an indicator carries, where each stands, and what a body is refused for.
#![tactic(auto)]

pub mod inner;
mod places;

ghost use Rattle.std.specs.Prelude.{◌≡◌};
ghost use Rattle.fields.specs.Layout.{field_count, context_of};
ghost use Rattle.words.specs.Listed.{on_paper};

pub use places::{Found, find};
use words::Refusal;

// The number of fields that an indicator carries, those of bits 30 to 8: count of ones.
pub fn field_count(indicator: u32) -> u32
    ensures { result ≡ field_count indicator }
{
    u32::count_ones(indicator / 256 * 256 % 0x8000_0000)
}

// Whether a type 4 body is as document 01 says: INDICATOR, LAYOUT or FIELD where it is not.
pub fn check_body(body: &[u32]) -> Result<(), Refusal>
    ensures { on_paper result ≡ context_of body.now }
{
    let indicator = words::inner::word_at(body, 0);
    if indicator % 256 != 0 {
        return Err(Refusal::Indicator);
    }
    if crate::inner::end_of(indicator, body) != body.len() {
        return Err(Refusal::Layout);
    }
    if crate::inner::rules_kept(indicator, body) {
        return Ok(());
    }
    Err(Refusal::Field)
}
