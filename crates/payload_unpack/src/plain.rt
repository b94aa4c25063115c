// Fields without tags: their items, and their tags, which read as 0.
ghost use Rattle.std.specs.Prelude.{◌≡◌, ℕ, ◌+◌, ◌*◌, ◌≤◌, ◌<◌, length, get_or};
ghost use Rattle.words.specs.Word.{high_first};
ghost use Rattle.bitstream.specs.Filled.{filled};
ghost use Rattle.bitstream.specs.inner.FilledOn.{FilledOn};
ghost use Rattle.payload_format.specs.Field.{item_in, field_in};
ghost use Rattle.payload_unpack.specs.inner.Unpackable.{Unpackable, Placed};

use crate::window;
use bitstream::inner::accumulator::Accumulator;
use payload_format::inner::Packing;

// Zero in the first n places of the event tags. The library's `fill` writes the last place apart, which costs more where there are few.
fn clear_events(n: usize, events: &mut [u8])
    requires { n ≤ length events.old }
    ensures { events.new ≡ filled n (λ k. 0) events.old }
{
    for k in 0..n {
        events[k] = 0;
    }
}

// The same of the channel tags.
fn clear_channels(n: usize, channels: &mut [u16])
    requires { n ≤ length channels.old }
    ensures { channels.new ≡ filled n (λ k. 0) channels.old }
{
    for k in 0..n {
        channels[k] = 0;
    }
}

// Zero in the first n places of both tags, in one loop.
fn clear_both(n: usize, events: &mut [u8], channels: &mut [u16])
    requires { (n ≤ length events.old) × (n ≤ length channels.old) }
    ensures { (events.new ≡ filled n (λ k. 0) events.old)
        × (channels.new ≡ filled n (λ k. 0) channels.old) }
{
    for k in 0..n {
        events[k] = 0;
        channels[k] = 0;
    }
}

// Zero in the first n places of both tags. Filling one buffer is compiled to a call of `memset`, the shortest way for few places. From 2,048 bytes on
// `memset` repeats an instruction for each byte; there one loop over both buffers, which is not compiled to it, executes fewer.
pub fn clear_tags(n: usize, events: &mut [u8], channels: &mut [u16])
    requires { (n ≤ length events.old) × (n ≤ length channels.old) }
    ensures { (events.new ≡ filled n (λ k. 0) events.old)
        × (channels.new ≡ filled n (λ k. 0) channels.old) }
{
    if n < 1024 {
        clear_events(n, events);
        clear_channels(n, channels);
        return;
    }
    clear_both(n, events, channels);
}

// Writes the items of the places from one on, as `value` gives them.
fn write_items<F: Fn(usize) -> u64>(from: usize, n: usize, items: &mut [u64], value: F)
    requires places { (from ≤ n) × (n ≤ length items.old) }
    requires callable { (k : ℕ) → from ≤ k → k < n → F.pre value k }
    ensures { (h : ℕ → ℕ) → ((k x : ℕ) → from ≤ k → k < n → F.post value k x → x ≡ h k) → FilledOn from n h items.old items.new }
{
    for k in from..n {
        items[k] = value(k);
    }
}

// The items of the first n fields, of at most 32 bits, one taken after the other.
fn unpack_items(p: Packing, n: usize, payload: &[u32], items: &mut [u64])
    requires { Unpackable p n payload.now (length items.old) × (p.field ≤ 32) }
    ensures { items.new ≡ filled n (λ k. item_in p (field_in p payload.now k)) items.old }
{
    let c = p.carry;
    let f = p.field;
    let up = p.field - p.item;
    let mut s = Accumulator::empty(up);
    for item in &mut items[..n] {
        *item = s.take(c, f, up, payload);
    }
}

// The items of the fields from one on, which all begin in the last word.
fn unpack_last(p: Packing, from: usize, n: usize, payload: &[u32], items: &mut [u64])
    requires { Placed p n payload.now (length items.old) × (from ≤ n) × (length payload.now * 32 ≤ from * p.field + 32) }
    ensures { FilledOn from n (λ k. item_in p (field_in p payload.now k)) items.old items.new }
{
    let f = p.field;
    let down = 32 - p.item;
    let word = payload[payload.len() - 1];
    write_items(
        from,
        n,
        items,
        |k| (window::bits_last(word, k * f) >> down) as u64,
    );
}

// The items of the first n fields, read by their places.
fn unpack_narrow(p: Packing, n: usize, payload: &[u32], items: &mut [u64])
    requires { Placed p n payload.now (length items.old) }
    ensures { items.new ≡ filled n (λ k. item_in p (field_in p payload.now k)) items.old }
{
    let f = p.field;
    let down = 32 - p.item;
    let before = window::fields_before_last(payload, f);
    write_items(
        0,
        before,
        items,
        |k| (window::bits(payload, k * f) >> down) as u64,
    );
    unpack_last(p, before, n, payload, items);
}

// The items of the first n fields, of more than 32 bits, read by their places.
fn unpack_wide(p: Packing, n: usize, payload: &[u32], items: &mut [u64])
    requires { Unpackable p n payload.now (length items.old) × (32 < p.field) × (0 < n) }
    ensures { items.new ≡ filled n (λ k. item_in p (field_in p payload.now k)) items.old }
{
    let f = p.field;
    let down = 64 - p.item;
    let last = n - 1;
    write_items(
        0,
        last,
        items,
        |k| window::bits_wide(payload, k * f) >> down,
    );
    items[last] = window::bits_wide_last(payload, last * f) >> down;
}

// The items that are words.
fn unpack_words(n: usize, payload: &[u32], items: &mut [u64])
    requires { (n ≤ length payload.now) × (n ≤ length items.old) }
    ensures { items.new ≡ filled n (λ k. get_or payload.now k 0) items.old }
{
    write_items(0, n, items, |k| payload[k] as u64);
}

// The items that are pairs of words, high first.
fn unpack_pairs(n: usize, payload: &[u32], items: &mut [u64])
    requires { (2 * n ≤ length payload.now) × (n ≤ length items.old) }
    ensures { items.new
        ≡ filled n (λ k. high_first (get_or payload.now (2 * k) 0) (get_or payload.now (2 * k + 1) 0)) items.old }
{
    write_items(
        0,
        n,
        items,
        |k| words::inner::high_first(payload[2 * k], payload[2 * k + 1]),
    );
}

// The items of the first n fields: whole words and pairs of words by themselves, any other by its bits. Fields of up to 8 bits are taken one after the
// other: four or more of them share a word, which is then read once.
pub fn unpack_plain(p: Packing, n: usize, payload: &[u32], items: &mut [u64])
    requires { Unpackable p n payload.now (length items.old) × (0 < n) }
    ensures { items.new ≡ filled n (λ k. item_in p (field_in p payload.now k)) items.old }
{
    if p.item == 64 {
        unpack_pairs(n, payload, items);
        return;
    }
    if 32 < p.field {
        unpack_wide(p, n, payload, items);
        return;
    }
    if p.item == 32 {
        unpack_words(n, payload, items);
        return;
    }
    if p.carry == 32 && 8 < p.field {
        unpack_narrow(p, n, payload, items);
        return;
    }
    unpack_items(p, n, payload, items);
}
