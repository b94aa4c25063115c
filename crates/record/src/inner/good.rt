// Whether a record is good: a function for each rule, with one loop at most.
ghost use Rattle.std.specs.Prelude.{◌≡◌, true, [], ◌∷◌, ◌+◌, ◌≤◌, ◌<◌, length};
ghost use Rattle.words.specs.Tests.{among};
ghost use Rattle.words.specs.Part.{part};
ghost use Rattle.words.specs.All.{all};
ghost use Rattle.fields.specs.Sizes.{field_size};
ghost use Rattle.record.specs.Held.{slotted, slot_at};
ghost use Rattle.record.specs.Layout.{head_words, record_words};
ghost use Rattle.record.specs.Good.{zeros, count_good, count_good_at, held_good, held_rule, slot_good, record_good};
ghost use Rattle.record.specs.inner.Head.{head_good};
ghost use Rattle.record.specs.inner.Between.{good_between};

// Whether the two words from a place on are zero.
fn two_zero(ws: &[u32], at: usize) -> bool
    requires { at + 2 ≤ length ws.now }
    ensures { result ≡ zeros (part at 2 ws.now) }
{
    words::inner::both_of(ws[at] == 0, ws[at + 1] == 0)
}

// The same of four.
fn four_zero(ws: &[u32], at: usize) -> bool
    requires { at + 4 ≤ length ws.now }
    ensures { result ≡ zeros (part at 4 ws.now) }
{
    let two = two_zero(ws, at);
    words::inner::both_of(two, two_zero(ws, at + 2))
}

// Whether the first eleven are.
fn eleven_zero(ws: &[u32]) -> bool
    requires { 11 ≤ length ws.now }
    ensures { result ≡ zeros (part 0 11 ws.now) }
{
    let four = four_zero(ws, 0);
    let eight = words::inner::both_of(four, four_zero(ws, 4));
    let ten = words::inner::both_of(eight, two_zero(ws, 8));
    words::inner::both_of(ten, ws[10] == 0)
}

// Whether a slot is zero. It has 1, 2, 11 or 13 words, so that no test needs a loop.
fn slot_zero(ws: &[u32]) -> bool
    requires { among (length ws.now) (1 ∷ 2 ∷ 11 ∷ 13 ∷ []) ≡ true }
    ensures { result ≡ zeros ws.now }
{
    if ws.len() == 1 {
        return ws[0] == 0;
    }
    if ws.len() == 2 {
        return two_zero(ws, 0);
    }
    let eleven = eleven_zero(ws);
    if ws.len() == 13 {
        return words::inner::both_of(eleven, two_zero(ws, 11));
    }
    eleven
}

// Whether a count is good: one not started has zeros, and a last count is at most 15.
fn count_good(seen: u32, missing: u32, last: u32) -> bool
    ensures { result ≡ count_good seen missing last }
{
    if 16 < last {
        return false;
    }
    if last != 0 {
        return true;
    }
    words::inner::both_of(seen == 0, missing == 0)
}

// Whether the four counts of a record are good.
fn counts_good(rec: &[u32]) -> bool
    requires { head_words ≤ length rec.now }
    ensures { result ≡ all 4 (count_good_at rec.now) }
{
    let mut k = 0;
    while k < 4 {
        let at = crate::inner::counts::count_at(k);
        if !count_good(rec[at], rec[at + 1], rec[at + 2]) {
            return false;
        }
        k += 1;
    }
    true
}

// Whether a held indicator is good, with the third word of type 4's count: it has no bit but those of held fields, and none unless type 4 has started.
fn held_good(held: u32, last: u32) -> bool
    ensures { result ≡ held_good held last }
{
    if held == 0 {
        return true;
    }
    if last == 0 {
        return false;
    }
    held & crate::inner::held::HELD == held
}

// Whether the words of a slot obey the rule of the held field of a bit. A state word that can be held obeys the rule of field 16.
fn rule_good(bit: u32, slot: &[u32]) -> bool
    requires { 0 < length slot.now }
    ensures { result ≡ held_rule bit slot.now }
{
    if fields::inner::first_ok(bit, slot[0]) {
        if bit == 16 {
            return crate::inner::state::state_good(slot[0]);
        }
        return fields::inner::more_ok(bit, slot[0], words::inner::word_at(slot, 1));
    }
    false
}

// Whether the slot of a bit, which stands in a record from a place on and has so many words, is good: zero where its field is not held, and else by the held
// field's rule.
fn slot_good(rec: &[u32], bit: u32, at: usize, size: usize) -> bool
    requires { (length rec.now ≡ record_words) × (slotted bit ≡ true) × (at ≡ head_words + slot_at bit) × (size ≡ field_size bit) }
    ensures { result ≡ slot_good rec.now bit }
{
    let end = at + size;
    let held = rec[crate::inner::HELD_AT];
    if (held >> bit) % 2 == 1 {
        rule_good(bit, &rec[at..end])
    } else {
        slot_zero(&rec[at..end])
    }
}

// The same of a bit above 17, whose rule is a limit of the field's first word.
fn limit_good(rec: &[u32], bit: u32, at: usize, size: usize) -> bool
    requires { (length rec.now ≡ record_words) × (17 < bit) × (slotted bit ≡ true) × (at ≡ head_words + slot_at bit) × (size ≡ field_size bit) }
    ensures { result ≡ slot_good rec.now bit }
{
    let end = at + size;
    let held = rec[crate::inner::HELD_AT];
    if (held >> bit) % 2 == 1 {
        fields::inner::first_ok(bit, rec[at])
    } else {
        slot_zero(&rec[at..end])
    }
}

// The same of a bit from 14 down, whose field has no rule.
fn free_good(rec: &[u32], bit: u32, at: usize, size: usize) -> bool
    requires { (length rec.now ≡ record_words) × (bit ≤ 14) × (slotted bit ≡ true) × (at ≡ head_words + slot_at bit) × (size ≡ field_size bit) }
    ensures { result ≡ slot_good rec.now bit }
{
    let end = at + size;
    let held = rec[crate::inner::HELD_AT];
    if (held >> bit) % 2 == 1 {
        true
    } else {
        slot_zero(&rec[at..end])
    }
}

// Whether the slots of the bits from `first` down to the one above `past`, of those above 17, are good. They stand one after the other.
fn high_good(rec: &[u32], first: u32, past: u32) -> bool
    requires { (length rec.now ≡ record_words) × (17 ≤ past) × (past ≤ first) × (first ≤ 30) }
    ensures { result ≡ good_between first past rec.now }
{
    let mut bit = first;
    let mut slot = crate::inner::held::slot_at(first);
    while past < bit {
        let size = fields::inner::field_size(bit);
        if !limit_good(rec, bit, crate::inner::HEAD_WORDS + slot, size) {
            return false;
        }
        slot += size;
        bit -= 1;
    }
    true
}

// The same of bits 17 to 15.
fn middle_good(rec: &[u32]) -> bool
    requires { length rec.now ≡ record_words }
    ensures { result ≡ good_between 17 14 rec.now }
{
    let mut bit = 17;
    let mut slot = crate::inner::held::slot_at(17);
    while 14 < bit {
        let size = fields::inner::field_size(bit);
        if !slot_good(rec, bit, crate::inner::HEAD_WORDS + slot, size) {
            return false;
        }
        slot += size;
        bit -= 1;
    }
    true
}

// The same of bits 14 to 10.
fn low_good(rec: &[u32]) -> bool
    requires { length rec.now ≡ record_words }
    ensures { result ≡ good_between 14 9 rec.now }
{
    let mut bit = 14;
    let mut slot = crate::inner::held::slot_at(14);
    while 9 < bit {
        let size = fields::inner::field_size(bit);
        if !free_good(rec, bit, crate::inner::HEAD_WORDS + slot, size) {
            return false;
        }
        slot += size;
        bit -= 1;
    }
    true
}

// Whether all slots of a record are good, those of bits 30 to 10. They are tested in parts: a loop of at most ten turns between known bits is unrolled by the
// compiler, which then knows each size, place and limit (docs/SPEED.md). With a `for` over the bits, and one test of a slot for all parts, which walks over its
// words, a record took a sixth more.
fn slots_good(rec: &[u32]) -> bool
    requires { length rec.now ≡ record_words }
    ensures { result ≡ all 31 (slot_good rec.now) }
{
    if !high_good(rec, 30, 21) {
        return false;
    }
    if !high_good(rec, 21, 17) {
        return false;
    }
    if !middle_good(rec) {
        return false;
    }
    low_good(rec)
}

// Whether the words before the slots are good, of a record or of a body: the choice, the held indicator, and the counts.
pub fn head_good(rec: &[u32]) -> bool
    requires { head_words ≤ length rec.now }
    ensures { result ≡ head_good rec.now }
{
    if 1 < rec[crate::inner::CHOICE_AT] {
        return false;
    }
    let context = crate::inner::counts::count_at(crate::inner::counts::CONTEXT_ORDER);
    let last = rec[context + crate::inner::counts::LAST];
    if !held_good(rec[crate::inner::HELD_AT], last) {
        return false;
    }
    counts_good(rec)
}

// Whether a record is good.
pub fn record_good(rec: &[u32]) -> bool
    requires { length rec.now ≡ record_words }
    ensures { result ≡ record_good rec.now }
{
    if !head_good(rec) {
        return false;
    }
    slots_good(rec)
}
