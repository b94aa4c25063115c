// A jump behind PLACE. To the boundary of an entry its page is put back; to a packet behind it, the packets are played in words of its own, and the layout is
// copied into the lent table. Those words are cleared first: fewer for few streams.
ghost use Rattle.std.specs.Prelude.{◌≡◌, true, ◌%◌, ◌^◌, ◌≤◌, ◌<◌, length};
ghost use Rattle.words.specs.Listed.{on_paper};
ghost use Rattle.words.specs.Outcome.{Meets};
ghost use Rattle.index.specs.Layout.{packets_taken};
ghost use Rattle.index.specs.Good.{index_good};
ghost use Rattle.index_jump.specs.Jump.{jump_of};
ghost use Rattle.index_jump.specs.inner.Steps.{Spacious};

use crate::Landed;
use words::Refusal;

// Jumps to the boundary of an entry: its page is put back into the lent table, which stays as it is where that is refused.
pub fn jump_back(
    given: &[u32],
    first: u64,
    index: &[u32],
    n: usize,
    table: &mut [u32],
) -> Result<Landed, Refusal>
    requires { (index_good index.now ≡ true) × (n ≤ packets_taken index.now) × (n % 1024 ≡ 0) }
    ensures { Meets on_paper (jump_of given.now first index.now n table.old) table.old result table.new }
{
    let j = n / index::inner::SPACING;
    let place = index::inner::entry_place(index, j);
    if place < first {
        return Err(Refusal::Page);
    }
    if (given.len() as u64) < place - first {
        return Err(Refusal::Page);
    }
    let length = page::put_back(crate::landing::page_in(index, j), table)?;
    Ok(Landed { length, place })
}

// Lands in words that have room for the table, and copies its layout into the lent one where it fits.
fn jump_in(
    given: &[u32],
    first: u64,
    index: &[u32],
    n: usize,
    table: &mut [u32],
    space: &mut [u32],
) -> Result<Landed, Refusal>
    requires { (index_good index.now ≡ true) × (n ≤ packets_taken index.now) × Spacious index.now n (length space.old) }
    ensures { Meets on_paper (jump_of given.now first index.now n table.old) table.old result table.new }
{
    let landed = crate::landing::land(given, first, index, n, space)?;
    if table.len() < landed.length {
        return Err(Refusal::Room);
    }
    words::inner::copy_part(table, 0, space, 0, landed.length);
    Ok(landed)
}

// Jumps by an entry, in N words of its own, which have room for its table.
pub fn jump_apart<const N: usize>(
    given: &[u32],
    first: u64,
    index: &[u32],
    n: usize,
    table: &mut [u32],
) -> Result<Landed, Refusal>
    requires { (N < 2 ^ 32) × (index_good index.now ≡ true) × (n ≤ packets_taken index.now) × Spacious index.now n N }
    ensures { Meets on_paper (jump_of given.now first index.now n table.old) table.old result table.new }
{
    let mut space = [0u32; N];
    jump_in(given, first, index, n, table, &mut space)
}
