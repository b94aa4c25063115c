// The contents of a page: S, the length, and a pair for each body. Places in them, and what a pair says.
ghost use Rattle.std.specs.Prelude.{◌≡◌, ◌^◌, ◌<◌};
ghost use Rattle.page.specs.Layout.{contents_words, pair_at, offset_at, length_at};

// The words of the contents of a page of n bodies.
pub fn contents_words(n: usize) -> usize
    requires { n < 2 ^ 32 }
    ensures { (result ≡ contents_words n) × (result < 2 ^ 34) }
{
    2 + 2 * n
}

// Where the pair of body s stands.
pub fn pair_at(s: usize) -> usize
    requires { s < 2 ^ 32 }
    ensures { (result ≡ pair_at s) × (result < 2 ^ 34) }
{
    2 + 2 * s
}

// The offset that the contents give for body s; 0 past the last word.
pub fn offset_in(page: &[u32], s: usize) -> usize
    requires { s < 2 ^ 32 }
    ensures { (result ≡ offset_at page.now s) × (result < 2 ^ 32) }
{
    words::inner::word_at(page, pair_at(s)) as usize
}

// The length that the contents give for body s; 0 past the last word.
pub fn length_in(page: &[u32], s: usize) -> usize
    requires { s < 2 ^ 32 }
    ensures { (result ≡ length_at page.now s) × (result < 2 ^ 32) }
{
    words::inner::word_at(page, pair_at(s) + 1) as usize
}
