// The two orders of a payload: an item's coordinates, and the item of coordinates.
ghost use Rattle.std.specs.Prelude.{◌≡◌, ◌<◌};
ghost use Rattle.payload_order.specs.Numbering.{coordinates_under, item_under, outside};

use crate::Coordinates;
use payload_format::inner::{component_count, component_repeat, group, repeat_size, vector_size};

// The coordinates of an item, which 32 bits hold.
#[tactic(auto, unfolding(crate::specs::Order::item_coordinates))]
pub fn coordinates_under(first: u32, second: u32, item: u32) -> Coordinates
    ensures { result ≡ coordinates_under first second item }
{
    let channels = vector_size(second);
    let repeats = repeat_size(second);
    let components = component_count(first);
    if component_repeat(first) {
        let parts = item / repeats;
        return Coordinates {
            time: parts / components / channels,
            channel: parts / components % channels,
            component: parts % components,
            repeat: item % repeats,
        };
    }
    let samples = item / components;
    Coordinates {
        time: samples / repeats / channels,
        channel: samples / repeats % channels,
        component: item % components,
        repeat: samples % repeats,
    }
}

// Whether a coordinate is outside its range, among n items.
#[tactic(auto, unfolding(crate::specs::Numbering::outside))]
pub fn is_outside(first: u32, second: u32, n: usize, at: Coordinates) -> bool
    ensures { result ≡ outside first second n at }
{
    if n / group(first, second) <= at.time as usize {
        return true;
    }
    if vector_size(second) <= at.channel {
        return true;
    }
    if component_count(first) <= at.component {
        return true;
    }
    repeat_size(second) <= at.repeat
}

// The item of coordinates.
#[tactic(auto, unfolding(crate::specs::Order::item_number))]
pub fn item_under(first: u32, second: u32, at: Coordinates) -> usize
    requires { (at.time < 2097120) × (at.channel < 65536) × (at.component < 2) × (at.repeat < 65536) }
    ensures { result ≡ item_under first second at }
{
    let repeats = repeat_size(second) as usize;
    let components = component_count(first) as usize;
    let before = at.time as usize * vector_size(second) as usize + at.channel as usize;
    if component_repeat(first) {
        return (before * components + at.component as usize) * repeats + at.repeat as usize;
    }
    (before * repeats + at.repeat as usize) * components + at.component as usize
}
