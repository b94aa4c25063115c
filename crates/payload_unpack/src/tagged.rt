// Fields with tags: the item, the event tags and the channel tag of each.
ghost use Rattle.std.specs.Prelude.{◌≡◌, ℕ, List, ◌+◌, ◌*◌, ◌≤◌, ◌<◌, length};
ghost use Rattle.payload_format.specs.inner.Legal.{Legal};
ghost use Rattle.payload_format.specs.Field.{event_in, channel_in, field_in};
ghost use Rattle.payload_unpack.specs.Unpack.{buffers, unpacked};
ghost use Rattle.payload_unpack.specs.inner.Unpackable.{Unpackable, Placed, UnpackedOn};

use crate::window;
use bitstream::inner::accumulator::Accumulator;
use payload_format::inner::Packing;

// The event tags of a field.
fn event_of(p: Packing, v: u64) -> u8
    requires { Legal p }
    ensures { result ≡ event_in p v }
{
    words::inner::low(v >> p.channel, p.event) as u8
}

// The channel tag of a field.
fn channel_of(p: Packing, v: u64) -> u16
    requires { Legal p }
    ensures { result ≡ channel_in p v }
{
    words::inner::low(v, p.channel) as u16
}

// The parts of the first n fields, one taken after the other.
fn unpack_parts(
    p: Packing,
    n: usize,
    payload: &[u32],
    items: &mut [u64],
    events: &mut [u8],
    channels: &mut [u16],
)
    requires { Unpackable p n payload.now (length items.old) × (n ≤ length events.old) × (n ≤ length channels.old) }
    ensures { buffers items.new events.new channels.new
        ≡ unpacked p n payload.now (buffers items.old events.old channels.old) }
{
    let c = p.carry;
    let f = p.field;
    let up = p.field - p.item;
    let mut s = Accumulator::empty(0);
    for k in 0..n {
        let v = s.take_field(c, f, payload);
        items[k] = v >> up;
        channels[k] = channel_of(p, v);
        events[k] = event_of(p, v);
    }
}

// Writes the parts of the fields from one on, as `field` gives them.
fn write_parts<F: Fn(usize) -> u64>(
    p: Packing,
    from: usize,
    n: usize,
    items: &mut [u64],
    events: &mut [u8],
    channels: &mut [u16],
    field: F,
)
    requires legal { Legal p }
    requires places { (from ≤ n) × (n ≤ length items.old) × (n ≤ length events.old) × (n ≤ length channels.old) }
    requires callable { (k : ℕ) → from ≤ k → k < n → F.pre field k }
    ensures { (ws : List ℕ) → ((k v : ℕ) → from ≤ k → k < n → F.post field k v → v ≡ field_in p ws k)
        → UnpackedOn p from n ws (buffers items.old events.old channels.old) (buffers items.new events.new channels.new) }
{
    let up = p.field - p.item;
    for k in from..n {
        let v = field(k);
        items[k] = v >> up;
        channels[k] = channel_of(p, v);
        events[k] = event_of(p, v);
    }
}

// The parts of the fields from one on, which all begin in the last word.
fn unpack_parts_last(
    p: Packing,
    from: usize,
    n: usize,
    payload: &[u32],
    items: &mut [u64],
    events: &mut [u8],
    channels: &mut [u16],
)
    requires { Placed p n payload.now (length items.old) × (n ≤ length events.old) × (n ≤ length channels.old)
        × (from ≤ n) × (length payload.now * 32 ≤ from * p.field + 32) }
    ensures { UnpackedOn p from n payload.now (buffers items.old events.old channels.old)
        (buffers items.new events.new channels.new) }
{
    let f = p.field;
    let down = 32 - p.field;
    let word = payload[payload.len() - 1];
    write_parts(
        p,
        from,
        n,
        items,
        events,
        channels,
        |k| (window::bits_last(word, k * f) >> down) as u64,
    );
}

// The parts of the first n fields, read by their places.
fn unpack_parts_narrow(
    p: Packing,
    n: usize,
    payload: &[u32],
    items: &mut [u64],
    events: &mut [u8],
    channels: &mut [u16],
)
    requires { Placed p n payload.now (length items.old) × (n ≤ length events.old) × (n ≤ length channels.old) }
    ensures { buffers items.new events.new channels.new
        ≡ unpacked p n payload.now (buffers items.old events.old channels.old) }
{
    let f = p.field;
    let down = 32 - p.field;
    let before = window::fields_before_last(payload, f);
    write_parts(
        p,
        0,
        before,
        items,
        events,
        channels,
        |k| (window::bits(payload, k * f) >> down) as u64,
    );
    unpack_parts_last(p, before, n, payload, items, events, channels);
}

// The parts of the first n fields.
pub fn unpack_tagged(
    p: Packing,
    n: usize,
    payload: &[u32],
    items: &mut [u64],
    events: &mut [u8],
    channels: &mut [u16],
)
    requires { Unpackable p n payload.now (length items.old) × (n ≤ length events.old) × (n ≤ length channels.old) × (0 < n) }
    ensures { buffers items.new events.new channels.new
        ≡ unpacked p n payload.now (buffers items.old events.old channels.old) }
{
    if p.carry == 32 && p.field <= 32 {
        unpack_parts_narrow(p, n, payload, items, events, channels);
        return;
    }
    unpack_parts(p, n, payload, items, events, channels);
}
