// The words of packing fields. The lists stay parameters on the way down, as `pack` is lent them: `pack_items` takes one of them, and a loop reads each by itself.
ghost use Rattle.std.specs.Prelude.{◌≡◌, ◌-◌, ◌*◌, ◌^◌, ◌<◌, length, get_or};
ghost use Rattle.bitstream.specs.Carried.{needed, word_of};
ghost use Rattle.bitstream.specs.Filled.{filled};
ghost use Rattle.payload_format.specs.inner.Legal.{Legal};
ghost use Rattle.payload_format.specs.Field.{made};
ghost use Rattle.payload_pack.specs.Pack.{packed};
ghost use Rattle.payload_pack.specs.inner.Packable.{Packable, Fitting};

use bitstream::inner::accumulator::Accumulator;
use payload_format::inner::Packing;

// The field of an item and its tags.
fn make(p: Packing, item: u64, event: u8, channel: u16) -> u64
    requires { Legal p × (item < 2 ^ p.item) × (event < 2 ^ p.event) × (channel < 2 ^ p.channel) }
    ensures { (result ≡ made p item event channel) × (result < 2 ^ p.field) }
{
    let wc = p.channel;
    let up = p.field - p.item;
    (item << up) + (((event as u64) << wc) + channel as u64)
}

// The words of n fields that hold items alone.
fn pack_items(p: Packing, n: usize, items: &[u64], out: &mut [u32])
    requires { Packable p n (length out.old) × Fitting p.item n items.now }
    ensures { out.new ≡ filled (needed p.carry p.field n) (word_of p.carry p.field (λ k. get_or items.now k 0 * 2 ^ (p.field - p.item))) out.old }
{
    let c = p.carry;
    let f = p.field;
    let up = p.field - p.item;
    let mut s = Accumulator::empty(0);
    for k in 0..n {
        s.push_field(c, f, items[k] << up, out);
    }
    s.finish(out);
}

// The words of n fields.
fn pack_tagged(
    p: Packing,
    n: usize,
    items: &[u64],
    events: &[u8],
    channels: &[u16],
    out: &mut [u32],
)
    requires { Packable p n (length out.old) × Fitting p.item n items.now × Fitting p.event n events.now × Fitting p.channel n channels.now }
    ensures { out.new ≡ packed p n items.now events.now channels.now out.old }
{
    let c = p.carry;
    let f = p.field;
    let mut s = Accumulator::empty(0);
    for k in 0..n {
        let v = make(p, items[k], events[k], channels[k]);
        s.push_field(c, f, v, out);
    }
    s.finish(out);
}

// The words of n fields: where a format has no tags, the fields hold items alone.
pub fn pack_fields(
    p: Packing,
    n: usize,
    items: &[u64],
    events: &[u8],
    channels: &[u16],
    out: &mut [u32],
)
    requires { Packable p n (length out.old) × Fitting p.item n items.now × Fitting p.event n events.now × Fitting p.channel n channels.now }
    ensures { out.new ≡ packed p n items.now events.now channels.now out.old }
{
    if p.event + p.channel == 0 {
        pack_items(p, n, items, out);
        return;
    }
    pack_tagged(p, n, items, events, channels, out);
}
