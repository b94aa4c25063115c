// Where things stand in a table.
ghost use Rattle.std.specs.Prelude.{◌≡◌, ◌^◌, ◌<◌};
ghost use Rattle.table.specs.Layout.{streams_of, base, layout_words, Has, record_at};

// S, the number of streams; 0 of no words.
pub fn streams(table: &[u32]) -> usize
    ensures { (result ≡ streams_of table.now) × (result < 2 ^ 32) }
{
    words::inner::word_at(table, 0) as usize
}

// The words of the layout of n streams.
pub fn layout_words(n: usize) -> usize
    requires { n < 2 ^ 32 }
    ensures { (result ≡ layout_words n) × (result < 2 ^ 39) }
{
    1 + record::inner::RECORD_WORDS * n
}

// Where the record of stream s begins.
pub fn record_at(s: usize) -> usize
    requires { s < 2 ^ 32 }
    ensures { (result ≡ base s) × (result < 2 ^ 39) }
{
    1 + record::inner::RECORD_WORDS * s
}

// The record of stream s.
pub fn record_in(table: &[u32], s: usize) -> &[u32]
    requires { (s < 2 ^ 32) × Has s table.now }
    ensures { result.now ≡ record_at s table.now }
{
    let at = record_at(s);
    let end = at + record::inner::RECORD_WORDS;
    &table[at..end]
}
