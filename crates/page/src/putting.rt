// The table of a page: each body's record, and the records behind S.
ghost use Rattle.std.specs.Prelude.{◌≡◌, true, ◌++◌, ◌≤◌, ◌<◌, length, drop, replicate};
ghost use Rattle.record.specs.Layout.{record_words, held_of};
ghost use Rattle.table.specs.Layout.{layout_words, Has, with_record};
ghost use Rattle.page.specs.Body.{page_body_words, record_of};
ghost use Rattle.page.specs.Layout.{bodies_in, saved_record, table_of};
ghost use Rattle.page.specs.inner.Tested.{contents_good, page_ok};

// The record of a body, into zeroed words: the body's first words, and the held words into their slots.
fn fill_record(rec: &mut [u32], body: &[u32])
    requires { (rec.old ≡ replicate record_words 0) × (length body.now ≡ page_body_words (held_of body.now)) }
    ensures { rec.new ≡ record_of body.now }
{
    let held = words::inner::word_at(body, 1) & record::inner::SLOTTED;
    words::inner::copy_part(rec, 0, body, 0, record::inner::HEAD_WORDS);
    record::inner::refill(
        &mut rec[record::inner::HEAD_WORDS..record::inner::RECORD_WORDS],
        held,
        body,
        record::inner::HEAD_WORDS,
    );
}

// The record of body s, to its place in a table.
fn put_record(table: &mut [u32], page: &[u32], s: usize)
    requires { (contents_good page.now ≡ true) × (s < bodies_in page.now) × Has s table.old }
    ensures { table.new ≡ with_record s (saved_record page.now s) table.old }
{
    let mut rec = [0u32; record::inner::RECORD_WORDS];
    fill_record(&mut rec, crate::bodies::body_in(page, s));
    let at = table::inner::record_at(s);
    words::inner::copy_part(table, at, &rec, 0, record::inner::RECORD_WORDS);
}

// The table of a well-made page: S, and the record of each body. Words past the layout stay.
pub fn write_table(table: &mut [u32], page: &[u32])
    requires { (page_ok page.now ≡ true) × (layout_words (bodies_in page.now) ≤ length table.old) }
    ensures { table.new ≡ table_of page.now ++ drop (layout_words (bodies_in page.now)) table.old }
{
    let n = words::inner::word_at(page, 0);
    table[0] = n;
    for s in 0..n as usize {
        put_record(table, page, s);
    }
}
