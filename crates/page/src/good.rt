// Whether a page is well made: its contents, then its list, then each body's record.
ghost use Rattle.std.specs.Prelude.{◌≡◌, true, ◌≤◌, ◌<◌, length};
ghost use Rattle.words.specs.All.{all};
ghost use Rattle.record.specs.Layout.{held_of};
ghost use Rattle.record.specs.Good.{record_good};
ghost use Rattle.table.specs.Identifiers.{list_good};
ghost use Rattle.page.specs.Body.{page_body_words, record_of};
ghost use Rattle.page.specs.Layout.{contents_words, bodies_in, begins_at};
ghost use Rattle.page.specs.inner.Tested.{pair_good, pairs_good, contents_good, identifier_at, Gathered, state_good_in, record_good_in, page_ok};

// Whether pair s is right, where the bodies before it end at a place: its offset is that place, its body ends inside the page, and its length is that of the
// body's held indicator.
fn pair_good(page: &[u32], s: usize, at: usize) -> bool
    requires { (at ≡ begins_at page.now s) × (at ≤ length page.now) × (s < 32) }
    ensures { result ≡ pair_good page.now s }
{
    if crate::contents::offset_in(page, s) != at {
        return false;
    }
    let length = crate::contents::length_in(page, s);
    let held = words::inner::word_at(page, at + 1);
    at + length <= page.len() && length == crate::bodies::body_words(held)
}

// Whether the pairs are right, and the last body ends where the page does.
fn pairs_good(page: &[u32], n: usize) -> bool
    requires { (n ≡ bodies_in page.now) × (n ≤ 32) × (contents_words n ≤ length page.now) }
    ensures { result ≡ pairs_good page.now n }
{
    let mut at = crate::contents::contents_words(n);
    for s in 0..n {
        if !pair_good(page, s, at) {
            return false;
        }
        at += crate::contents::length_in(page, s);
    }
    at == page.len()
}

// Whether the contents are right: S is at most 32, the contents lie inside the page, word 1 is its length, and the pairs cut it without gaps.
fn contents_good(page: &[u32]) -> bool
    ensures { result ≡ contents_good page.now }
{
    let n = words::inner::word_at(page, 0) as usize;
    if 32 < n {
        return false;
    }
    if page.len() < crate::contents::contents_words(n) {
        return false;
    }
    if words::inner::word_at(page, 1) as usize != page.len() {
        return false;
    }
    pairs_good(page, n)
}

// The identifiers of n bodies, in list order.
fn gather(ids: &mut [u32], page: &[u32], n: usize)
    requires { (n ≤ 32) × (n ≤ length ids.old) }
    ensures { Gathered n page.now ids.new }
{
    for s in 0..n {
        ids[s] = words::inner::word_at(page, crate::contents::offset_in(page, s));
    }
}

// Whether the identifiers of n bodies are a valid list.
fn list_good(page: &[u32], n: usize) -> bool
    requires { n ≤ 32 }
    ensures { result ≡ list_good n (identifier_at page.now) }
{
    let mut ids = [0u32; 32];
    gather(&mut ids, page, n);
    table::inner::list_good(&ids, 0, 1, n)
}

// Whether the state word of a body, where it has one, can be held. Behind it stand the words of the fields below 16 alone, so it is found from the body's end.
fn state_good_in(body: &[u32]) -> bool
    requires { length body.now ≡ page_body_words (held_of body.now) }
    ensures { result ≡ state_good_in body.now }
{
    let held = body[1];
    if (held >> 16) % 2 == 1 {
        let at = body.len() - 1 - fields::inner::fixed_words(held % 0x1_0000);
        return record::inner::state_good(body[at]);
    }
    true
}

// Whether the record of a body is good: the body's first words are, the held fields obey their rules, and the state word can be held. The slots of the other
// fields would be zero. `rules_kept` skips the first word that it is given, where the body of a packet has its indicator; so it is given the held words with
// the one word before them.
fn body_good(body: &[u32]) -> bool
    requires { length body.now ≡ page_body_words (held_of body.now) }
    ensures { result ≡ record_good (record_of body.now) }
{
    if !record::inner::head_good(body) {
        return false;
    }
    fields::inner::rules_kept(body[1], &body[record::inner::HEAD_WORDS - 1..])
        && state_good_in(body)
}

// Whether the record of body s is good.
fn record_good_in(page: &[u32], s: usize) -> bool
    requires { (contents_good page.now ≡ true) × (s < bodies_in page.now) }
    ensures { result ≡ record_good_in page.now s }
{
    body_good(crate::bodies::body_in(page, s))
}

// Whether the records of n bodies are good.
fn records_good(page: &[u32], n: usize) -> bool
    requires { (contents_good page.now ≡ true) × (n ≡ bodies_in page.now) }
    ensures { result ≡ all n (record_good_in page.now) }
{
    for s in 0..n {
        if !record_good_in(page, s) {
            return false;
        }
    }
    true
}

// Whether a page is well made.
pub fn page_ok(page: &[u32]) -> bool
    ensures { result ≡ page_ok page.now }
{
    if !contents_good(page) {
        return false;
    }
    let n = words::inner::word_at(page, 0) as usize;
    if !list_good(page, n) {
        return false;
    }
    records_good(page, n)
}
