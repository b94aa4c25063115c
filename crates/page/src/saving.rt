// The page of a table, written: the contents, and then the bodies.
ghost use Rattle.std.specs.Prelude.{◌≡◌, true, ◌++◌, ◌+◌, ◌≤◌, ◌<◌, length, drop, set};
ghost use Rattle.words.specs.Laid.{Laid};
ghost use Rattle.table.specs.Well.{well_made};
ghost use Rattle.page.specs.Layout.{pair_at, pairs_of, bodies_of, page_of, page_length, most_words};

// The pair of body s, into the contents: its offset and its size.
fn write_pair(page: &mut [u32], s: usize, offset: usize, size: usize)
    requires { (s < 32) × (pair_at s + 1 < length page.old) × (offset + size ≤ most_words) }
    ensures { page.new ≡ set (set page.old (pair_at s) offset) (pair_at s + 1) size }
{
    let at = crate::contents::pair_at(s);
    page[at] = offset as u32;
    page[at + 1] = size as u32;
}

// The pair and the body of each stream: the pairs are the contents, in list order without gaps, and the bodies stand behind them.
fn write_streams(page: &mut [u32], table: &[u32])
    requires { (well_made table.now ≡ true) × (page_length table.now ≤ length page.old) }
    ensures { Laid page.old 2 (pairs_of table.now ++ bodies_of table.now) (page_length table.now) page.new }
{
    let n = table::inner::streams(table);
    let mut at = crate::contents::contents_words(n);
    for s in 0..n {
        let past = crate::bodies::write_body(page, at, table::inner::record_in(table, s));
        write_pair(page, s, at, past - at);
        at = past;
    }
}

// The page of a well-made table, its size being known: S, the size, the pairs and the bodies. Words past the page stay.
pub fn write_page(page: &mut [u32], table: &[u32], size: usize)
    requires { (well_made table.now ≡ true) × (size ≡ page_length table.now) × (size ≤ length page.old) }
    ensures { page.new ≡ page_of table.now ++ drop (page_length table.now) page.old }
{
    page[0] = table::inner::streams(table) as u32;
    page[1] = size as u32;
    write_streams(page, table);
}
