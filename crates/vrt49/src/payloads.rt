// Packed samples.
ghost use Rattle.payload_format.specs.Count.{needed_of};
ghost use Rattle.payload_format.specs.Signs.{signed_of};
ghost use Rattle.payload_order.specs.Numbering.{coordinates_of, item_of};
ghost use Rattle.payload_pack.specs.Pack.{pack_of};
ghost use Rattle.payload_unpack.specs.Unpack.{buffers, unpack_of};
ghost use Rattle.vrt49.specs.Answers.{Tells, plain, left, beside};
ghost use Rattle.vrt49.specs.Payloads.{coordinates_values, coordinates_in};

// Unpacks n items with their event tags and channel tags; answers FORMAT, COUNT or ROOM.
pub fn vrt49_unpack(
    first: u32,
    second: u32,
    n: usize,
    words: &[u32],
    items: &mut [u64],
    events: &mut [u8],
    channels: &mut [u16],
) -> u32
    ensures { Tells left (unpack_of first second n words.now (buffers items.old events.old channels.old)) (buffers items.old events.old channels.old) result (buffers items.new events.new channels.new) }
{
    match payload_unpack::unpack(first, second, n, words, items, events, channels) {
        Err(refusal) => u32::from(refusal),
        Ok(_) => 0,
    }
}

// Packs items with their event tags and channel tags; answers FORMAT, COUNT, VALUE or ROOM. `length` takes the words written.
pub fn vrt49_pack(
    first: u32,
    second: u32,
    items: &[u64],
    events: &[u8],
    channels: &[u16],
    out: &mut [u32],
    length: &mut usize,
) -> u32
    ensures { Tells (beside plain) (pack_of first second items.now events.now channels.now out.old) (out.old, length.old) result (out.new, length.new) }
{
    crate::answers::give_value(
        payload_pack::pack(first, second, items, events, channels, out),
        length,
    )
}

// The words that n items need; answers FORMAT or COUNT.
pub fn vrt49_words_needed(first: u32, second: u32, n: usize, length: &mut usize) -> u32
    ensures { Tells plain (needed_of first second n) length.old result length.new }
{
    crate::answers::give_value(payload_format::words_needed(first, second, n), length)
}

// The time, channel, component and repeat of an item among n; answers FORMAT, COUNT or VALUE. Four values.
pub fn vrt49_coordinates_of(
    first: u32,
    second: u32,
    n: usize,
    item: usize,
    coordinates: &mut [u32; 4],
) -> u32
    ensures { Tells coordinates_values (coordinates_of first second n item) coordinates.old result coordinates.new }
{
    match payload_order::coordinates_of(first, second, n, item) {
        Err(refusal) => u32::from(refusal),
        Ok(at) => {
            *coordinates = [at.time, at.channel, at.component, at.repeat];
            0
        }
    }
}

// The item among n that has these coordinates; answers FORMAT, COUNT or VALUE.
pub fn vrt49_item_at(
    first: u32,
    second: u32,
    n: usize,
    coordinates: &[u32; 4],
    item: &mut usize,
) -> u32
    ensures { Tells plain (item_of first second n (coordinates_in coordinates.now)) item.old result item.new }
{
    let at = payload_order::Coordinates {
        time: coordinates[0],
        channel: coordinates[1],
        component: coordinates[2],
        repeat: coordinates[3],
    };
    crate::answers::give_value(payload_order::item_at(first, second, n, at), item)
}

// The two's complement value of an item; answers FORMAT or VALUE.
pub fn vrt49_signed(width: u32, item: u64, value: &mut i64) -> u32
    ensures { Tells plain (signed_of width item) value.old result value.new }
{
    match payload_format::signed(width, item) {
        Err(refusal) => u32::from(refusal),
        Ok(z) => {
            *value = z;
            0
        }
    }
}
