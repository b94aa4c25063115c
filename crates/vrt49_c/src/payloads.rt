// Packed samples.
ghost use Rattle.payload_format.specs.Count.{needed_of};
ghost use Rattle.payload_format.specs.Signs.{signed_of};
ghost use Rattle.payload_order.specs.Numbering.{coordinates_of, item_of};
ghost use Rattle.payload_pack.specs.Pack.{pack_of};
ghost use Rattle.payload_unpack.specs.Unpack.{buffers, unpack_of};
ghost use Rattle.vrt49.specs.Answers.{Tells, plain, left, beside};
ghost use Rattle.vrt49.specs.Payloads.{coordinates_values, coordinates_in};

#[unsafe(no_mangle)]
pub extern "C" fn vrt49_unpack(
    first: u32,
    second: u32,
    n: usize,
    words: &[u32],
    items: &mut [u64],
    events: &mut [u8],
    channels: &mut [u16],
) -> u32
    ensures { Tells left (unpack_of first second n words.now (buffers items.old events.old channels.old)) (buffers items.old events.old channels.old) result (buffers items.new events.new channels.new) }
{
    vrt49::vrt49_unpack(first, second, n, words, items, events, channels)
}

#[unsafe(no_mangle)]
pub extern "C" fn vrt49_pack(
    first: u32,
    second: u32,
    items: &[u64],
    events: &[u8],
    channels: &[u16],
    out: &mut [u32],
    length: &mut usize,
) -> u32
    ensures { Tells (beside plain) (pack_of first second items.now events.now channels.now out.old) (out.old, length.old) result (out.new, length.new) }
{
    vrt49::vrt49_pack(first, second, items, events, channels, out, length)
}

#[unsafe(no_mangle)]
pub extern "C" fn vrt49_words_needed(first: u32, second: u32, n: usize, length: &mut usize) -> u32
    ensures { Tells plain (needed_of first second n) length.old result length.new }
{
    vrt49::vrt49_words_needed(first, second, n, length)
}

#[unsafe(no_mangle)]
pub extern "C" fn vrt49_coordinates_of(
    first: u32,
    second: u32,
    n: usize,
    item: usize,
    coordinates: &mut [u32; 4],
) -> u32
    ensures { Tells coordinates_values (coordinates_of first second n item) coordinates.old result coordinates.new }
{
    vrt49::vrt49_coordinates_of(first, second, n, item, coordinates)
}

#[unsafe(no_mangle)]
pub extern "C" fn vrt49_item_at(
    first: u32,
    second: u32,
    n: usize,
    coordinates: &[u32; 4],
    item: &mut usize,
) -> u32
    ensures { Tells plain (item_of first second n (coordinates_in coordinates.now)) item.old result item.new }
{
    vrt49::vrt49_item_at(first, second, n, coordinates, item)
}

#[unsafe(no_mangle)]
pub extern "C" fn vrt49_signed(width: u32, item: u64, value: &mut i64) -> u32
    ensures { Tells plain (signed_of width item) value.old result value.new }
{
    vrt49::vrt49_signed(width, item, value)
}
