// Writing a packet whose parts are words, as plain 49.0 or as 49A with a pad count.
ghost use Rattle.std.specs.Prelude.{◌≡◌, length, take, get_or};
ghost use Rattle.words.specs.Listed.{on_paper};
ghost use Rattle.words.specs.Outcome.{Meets};
ghost use Rattle.packet_write.specs.Write.{write_by, write_of, write_survey_of};
ghost use Rattle.packet_write.specs.AsWords.{parts_in};
ghost use Rattle.packet_write.specs.inner.Given.{Chosen};

use crate::parts;
use words::Refusal;

// Writes a packet whose parts are fifteen words q; `governed` is whether 49A governs it, and else its pad count is 0. It is put in line where it is called, so
// that the choice is known to the compiler: it lays a governed packet without asking for class and trailer, and through one function for all that is called, a
// small plain packet would take a seventh more instructions.
#[inline(always)]
fn write_chosen(
    governed: bool,
    pad: u32,
    q: &[u32],
    body: &[u32],
    out: &mut [u32],
    at: usize,
) -> Result<usize, Refusal>
    requires { (length q.now ≡ 15) × Chosen governed pad (parts_in q.now) }
    ensures { Meets on_paper (write_by governed pad (parts_in q.now) body.now out.old at) out.old result out.new }
{
    crate::fit::check_parts(q)?;
    if !crate::fit::pad_fits(governed, pad, q) {
        return Err(Refusal::Value);
    }
    let w = crate::laying::header_word(q);
    let size = crate::laying::size_for(w, q, body.len());
    crate::fit::check_content(q, body, size)?;
    crate::fit::check_pad(governed, pad, q, body)?;
    crate::fit::check_room(out.len(), at, size)?;
    crate::laying::lay(w, size, pad, q, body, out, at);
    Ok(size)
}

// Writes a packet whose parts are fifteen words q, as `write` does.
pub fn write_parts(q: &[u32], body: &[u32], out: &mut [u32], at: usize) -> Result<usize, Refusal>
    requires { length q.now ≡ 15 }
    ensures { Meets on_paper (write_of (parts_in q.now) body.now out.old at) out.old result out.new }
{
    write_chosen(false, 0, q, body, out, at)
}

// Writes a packet whose parts are fifteen words q, as `write_survey` does with a pad count: of other types than 1 the pad count is not looked at.
pub fn write_padded(
    pad: u32,
    q: &[u32],
    body: &[u32],
    out: &mut [u32],
    at: usize,
) -> Result<usize, Refusal>
    requires { length q.now ≡ 15 }
    ensures { Meets on_paper (write_survey_of pad (parts_in q.now) body.now out.old at) out.old result out.new }
{
    if q[parts::KIND] == 1 {
        write_chosen(true, pad, q, body, out, at)
    } else {
        write_chosen(false, 0, q, body, out, at)
    }
}

// Writes a packet whose parts are sixteen words q, the pad count last, as `write_survey` does.
pub fn write_survey_parts(
    q: &[u32],
    body: &[u32],
    out: &mut [u32],
    at: usize,
) -> Result<usize, Refusal>
    requires { length q.now ≡ 16 }
    ensures { Meets on_paper (write_survey_of (get_or q.now 15 0) (parts_in (take 15 q.now)) body.now out.old at) out.old result out.new }
{
    write_padded(q[parts::PAD], &q[0..parts::PAD], body, out, at)
}
