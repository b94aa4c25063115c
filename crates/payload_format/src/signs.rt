// An item as a signed number.
ghost use Rattle.std.specs.Prelude.{◌≡◌};
ghost use Rattle.words.specs.Listed.{on_paper};
ghost use Rattle.payload_format.specs.Signs.{signed_of};

use words::Refusal;

// The two's complement value of an item of `width` bits; FORMAT for a width outside 1 to 64, VALUE for an item that does not fit it.
pub fn signed(width: u32, item: u64) -> Result<i64, Refusal>
    ensures { on_paper result ≡ signed_of width item }
{
    if width < 1 {
        return Err(Refusal::Format);
    }
    if 64 < width {
        return Err(Refusal::Format);
    }
    let half = words::inner::power(width as usize - 1);
    let most = half - 1 + half;
    if most < item {
        return Err(Refusal::Value);
    }
    if item < half {
        return Ok(item as i64);
    }
    Ok(!((most - item) as i64))
}
