// The fields that a record holds, each in its slot.
ghost use Rattle.std.specs.Prelude.{bit_and, ◌≡◌, suc, ◌+◌, ◌≤◌, ◌<◌, length};
ghost use Rattle.words.specs.Outcome.{accepted};
ghost use Rattle.words.specs.SetBits.{bits_of, above};
ghost use Rattle.fields.specs.Sizes.{sizes_of};
ghost use Rattle.fields.specs.Layout.{context_of};
ghost use Rattle.record.specs.Held.{slot_mask, slot_at};
ghost use Rattle.record.specs.Layout.{slot_words, record_words, is_held};
ghost use Rattle.record.specs.After.{Inside, refilled, slots_after, hold_record};
ghost use Rattle.record.specs.inner.Filled.{InsideBetween, Filled};

// The bits of the fields that have a slot, 30 to 10.
pub const SLOTTED: u32 = 0x7FFF_FC00;

// Those of the held fields: 22 is checked in a packet, and never held.
pub const HELD: u32 = 0x7FBF_FC00;

// Where the slots of field 22, the over-range count, and of field 16, the state word, stand among the slots. Each has one word.
const OVER_RANGE_AT: usize = 13;

const STATE_AT: usize = 22;

// Whether a record holds the field of a bit.
pub fn is_held(rec: &[u32], bit: u32) -> bool
    requires { (length rec.now ≡ record_words) × (bit < 32) }
    ensures { result ≡ is_held bit rec.now }
{
    (rec[crate::inner::HELD_AT] >> bit) % 2 == 1
}

// Where the slot of a field begins among the slots. They stand in field order, so it is behind those of the higher bits: their words, by counts of ones.
pub fn slot_at(bit: u32) -> usize
    requires { bit < 31 }
    ensures { (result ≡ slot_at bit) × (result ≤ slot_words) }
{
    fields::inner::fixed_words((SLOTTED >> (bit + 1)) << (bit + 1))
}

// The fields of the bits from `first` down to the one above `past`, each into its slot, whole. They stand in the source one after the other, from a place on,
// and the slots stand in field order: both places run along. Gives the place past them. With a `for` over the bits, and copies by `copy_from_slice` or by a loop
// over a constant number of words, a context packet of a run took a quarter more.
fn fill(slots: &mut [u32], bits: u32, source: &[u32], at: usize, first: u32, past: u32) -> usize
    requires { (length slots.old ≡ slot_words) × (9 ≤ past) × (past ≤ first) × (first ≤ 30) × InsideBetween first past bits at source.now }
    ensures { Filled first past bits at source.now slots.old slots.new × (result ≡ at + sizes_of (above past (bits_of (suc first) bits))) }
{
    let mut bit = first;
    let mut slot = slot_at(first);
    let mut from = at;
    while past < bit {
        let n = fields::inner::field_size(bit);
        if (bits >> bit) % 2 == 1 {
            crate::inner::copies::copy_field(slots, slot, source, from, n);
            from += n;
        }
        slot += n;
        bit -= 1;
    }
    from
}

// Each field of these bits into its slot, whole. The fields stand in the source one after the other, from a place on. They are filled in three parts: a loop of
// at most ten turns between known bits is unrolled by the compiler, which then knows each size and each place (docs/SPEED.md).
pub fn refill(slots: &mut [u32], bits: u32, source: &[u32], at: usize)
    requires { (length slots.old ≡ slot_words) × (bit_and bits slot_mask ≡ bits) × Inside bits at source.now }
    ensures { slots.new ≡ refilled bits at source.now slots.old }
{
    let middle = fill(slots, bits, source, at, 30, 21);
    let low = fill(slots, bits, source, middle, 21, 14);
    fill(slots, bits, source, low, 14, 9);
}

// The slots after a Context packet: each field that it carries replaces its slot whole; then field 22 has what it had, and field 16 what the packet's state
// word makes of what it had. Where the packet has none, the word in the slot is the held one, which changes nothing of itself.
fn hold_fields(slots: &mut [u32], body: &[u32])
    requires { (length slots.old ≡ slot_words) × (context_of body.now ≡ accepted tt) }
    ensures { slots.new ≡ slots_after body.now slots.old }
{
    let count = slots[OVER_RANGE_AT];
    let state = slots[STATE_AT];
    refill(slots, body[0] & SLOTTED, body, 1);
    let word = slots[STATE_AT];
    slots[OVER_RANGE_AT] = count;
    slots[STATE_AT] = crate::inner::state::state_after(word, state);
}

// Holds the fields that a Context packet carries: the slots are those after it, and the held indicator gains the bits of held fields.
pub fn hold(rec: &mut [u32], body: &[u32])
    requires { (length rec.old ≡ record_words) × (context_of body.now ≡ accepted tt) }
    ensures { rec.new ≡ hold_record body.now rec.old }
{
    let bits = body[0] & HELD;
    let held = rec[crate::inner::HELD_AT];
    hold_fields(
        &mut rec[crate::inner::HEAD_WORDS..crate::inner::RECORD_WORDS],
        body,
    );
    rec[crate::inner::HELD_AT] = held | bits;
}
