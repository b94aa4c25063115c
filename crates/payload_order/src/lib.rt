// The order of items in a payload: from an item to its time, channel, component and repeat, and back.
#![tactic(auto)]

mod order;

ghost use Rattle.std.specs.Prelude.{◌≡◌};
ghost use Rattle.words.specs.Listed.{on_paper};
ghost use Rattle.payload_order.specs.Numbering.{coordinates_of, item_of};

use payload_format::inner::items_check;
use words::Refusal;

// What an item of a payload is: the group that it stands in, counted from 0; the channel of the sample vector; the component of the sample, 0 for real, I or
// amplitude, 1 for Q or phase; and which one it is of those that are repeated.
#[derive(Clone, Copy)]
pub struct Coordinates {
    pub time: u32,
    pub channel: u32,
    pub component: u32,
    pub repeat: u32,
}

// The coordinates of an item among n; FORMAT and COUNT as in packing, then VALUE for an item that is not below n.
#[tactic(auto, using(crate::proofs::NumberingLaws::from_item))]
pub fn coordinates_of(
    first: u32,
    second: u32,
    n: usize,
    item: usize,
) -> Result<Coordinates, Refusal>
    ensures { on_paper result ≡ coordinates_of first second n item }
{
    items_check(first, second, n)?; // FORMAT, then COUNT
    if n <= item {
        return Err(Refusal::Value);
    }
    Ok(order::coordinates_under(first, second, item as u32))
}

// The item among n that has these coordinates; FORMAT and COUNT as in packing, then VALUE for a coordinate outside its range.
#[tactic(auto, using(crate::proofs::NumberingLaws::back))]
pub fn item_at(first: u32, second: u32, n: usize, at: Coordinates) -> Result<usize, Refusal>
    ensures { on_paper result ≡ item_of first second n at }
{
    items_check(first, second, n)?; // the same two
    if order::is_outside(first, second, n, at) {
        return Err(Refusal::Value);
    }
    Ok(order::item_under(first, second, at))
}
