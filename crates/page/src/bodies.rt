// The bodies of a page, one for each stream.
ghost use Rattle.std.specs.Prelude.{◌≡◌, true, ◌+◌, ◌≤◌, ◌<◌, length};
ghost use Rattle.std.specs.Int.Bits.{bit_and};
ghost use Rattle.words.specs.SetBits.{bits_of};
ghost use Rattle.words.specs.Laid.{Laid};
ghost use Rattle.fields.specs.Sizes.{sizes_of};
ghost use Rattle.record.specs.Held.{slot_mask};
ghost use Rattle.record.specs.Layout.{slot_words, record_words};
ghost use Rattle.record.specs.After.{held_words};
ghost use Rattle.record.specs.Good.{record_good};
ghost use Rattle.table.specs.Well.{well_made};
ghost use Rattle.page.specs.Body.{page_body, page_body_words};
ghost use Rattle.page.specs.Layout.{page_length, most_words, bodies_in, page_body_at};
ghost use Rattle.page.specs.inner.Tested.{contents_good};
ghost use Rattle.page.specs.inner.Squeezed.{held_between};

// The length of a body, by its held indicator: the first words, and the words of the held fields.
pub fn body_words(held: u32) -> usize
    ensures { (result ≡ page_body_words held) × (result ≤ record_words) }
{
    record::inner::HEAD_WORDS + fields::inner::fixed_words(held)
}

// The length of the page of a well-made table: the contents, and each body.
pub fn page_words(table: &[u32]) -> usize
    requires { well_made table.now ≡ true }
    ensures { (result ≡ page_length table.now) × (result ≤ most_words) }
{
    let n = table::inner::streams(table);
    let mut length = crate::contents::contents_words(n);
    for s in 0..n {
        let at = table::inner::record_at(s);
        length += body_words(table[at + 1]);
    }
    length
}

// The held words of the slots of the bits from `first` down to the one above `past`, in field order, into a page from a place on. Gives the place past them.
// The slots' own place runs along. With a `for` over the bits
// saving took a twentieth more.
fn squeeze_between(
    page: &mut [u32],
    at: usize,
    held: u32,
    slots: &[u32],
    first: u32,
    past: u32,
) -> usize
    requires { (length slots.now ≡ slot_words) × (9 ≤ past) × (past ≤ first) × (first ≤ 30) × (at + length (held_between first past held slots.now) ≤ length page.old) }
    ensures { Laid page.old at (held_between first past held slots.now) result page.new }
{
    let mut bit = first;
    let mut slot = record::inner::slot_at(first);
    let mut to = at;
    while past < bit {
        let n = fields::inner::field_size(bit);
        if (held >> bit) % 2 == 1 {
            record::inner::copy_field(page, to, slots, slot, n);
            to += n;
        }
        slot += n;
        bit -= 1;
    }
    to
}

// The held words of a record's slots, in field order, into a page from a place on. Gives the place past them. They are laid in three parts, which the
// compiler unrolls (docs/SPEED.md).
fn squeeze(page: &mut [u32], at: usize, held: u32, slots: &[u32]) -> usize
    requires { (length slots.now ≡ slot_words) × (bit_and held slot_mask ≡ held) × (at + sizes_of (bits_of 31 held) ≤ length page.old) }
    ensures { Laid page.old at (held_words held slots.now) result page.new }
{
    let middle = squeeze_between(page, at, held, slots, 30, 21);
    let low = squeeze_between(page, middle, held, slots, 21, 14);
    squeeze_between(page, low, held, slots, 14, 9)
}

// The body of a good record, into a page from a place on: the record's first words, and then the held words. Gives the place past it.
pub fn write_body(page: &mut [u32], at: usize, rec: &[u32]) -> usize
    requires { (length rec.now ≡ record_words) × (record_good rec.now ≡ true) × (at + length (page_body rec.now) ≤ length page.old) }
    ensures { Laid page.old at (page_body rec.now) result page.new }
{
    words::inner::copy_part(page, at, rec, 0, record::inner::HEAD_WORDS);
    squeeze(
        page,
        at + record::inner::HEAD_WORDS,
        rec[1],
        &rec[record::inner::HEAD_WORDS..record::inner::RECORD_WORDS],
    )
}

// Body s of a page whose contents are right.
pub fn body_in(page: &[u32], s: usize) -> &[u32]
    requires { (contents_good page.now ≡ true) × (s < bodies_in page.now) }
    ensures { result.now ≡ page_body_at page.now s }
{
    let at = crate::contents::offset_in(page, s);
    let end = at + crate::contents::length_in(page, s);
    &page[at..end]
}
