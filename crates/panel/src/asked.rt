// Whether a field may be asked for: the refusals of the calls that are handed a field's bit.
ghost use Rattle.std.specs.Prelude.{◌≡◌};
ghost use Rattle.words.specs.Listed.{on_paper};
ghost use Rattle.panel.specs.inner.Asked.{bit_checks, asked_of};

use words::Refusal;

// VALUE, of a bit that is not 30 to 10.
fn check_bit(bit: u32) -> Result<(), Refusal>
    ensures { on_paper result ≡ bit_checks bit }
{
    if bit < 10 || 30 < bit {
        return Err(Refusal::Value);
    }
    Ok(())
}

// TABLE, then STREAM, then VALUE.
pub fn check(table: &[u32], stream: usize, bit: u32) -> Result<(), Refusal>
    ensures { on_paper result ≡ asked_of table.now stream bit }
{
    table::inner::check_stream(table, stream)?;
    check_bit(bit)
}
