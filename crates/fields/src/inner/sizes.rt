// How many words the fields of indicator bits take: those of fixed size by the groups of document 01, and the two that say their own size. That a bit is below 31 is
// asked by each: a type for it would have to be made in every turn of the loops that count bits down, in the crates above.
ghost use Rattle.std.specs.Prelude.{◌≡◌, [], ◌∷◌, ◌+◌, ◌^◌, ◌≤◌, ◌<◌, length, drop};
ghost use Rattle.std.specs.Int.Bits.{bit_and};
ghost use Rattle.words.specs.SetBits.{bits_of};
ghost use Rattle.fields.specs.inner.Groups.{two_words, from_fifteen};
ghost use Rattle.fields.specs.Sizes.{field_size, sizes_of, ascii_words, list_words, words_of};

// Document 01, "Words for each bit": the bits of the fields of 2 words, of 11 and of 13. The other fields of fixed size have 1.
const TWO: u32 = 0x3E32_8000;

const ELEVEN: u32 = 0x6000;

const THIRTEEN: u32 = 0x1800;

// The bits of the fields from 15 up, which have 1 word or 2; of the last five; and of 10, which alone of these has 1.
const HIGH: u32 = 0x7FFF_8000;

const LAST: u32 = 0x7C00;

const TEN: u32 = 0x400;

// The words of the fields from bit 15 up that some bits have: one count of ones, in which those of two words stand twice, the second time below bit 15.
fn high_words(bits: u32) -> usize
    ensures { (result ≡ length (bits_of 31 (bit_and bits from_fifteen)) + length (bits_of 31 (bit_and bits two_words))) × (result ≤ 62) }
{
    u32::count_ones((bits & HIGH) + (bits & TWO) / 0x8000) as usize
}

// How many of some bits are in a group: count of ones.
fn in_group(bits: u32, group: u32) -> usize
    requires { group < 2 ^ 31 }
    ensures { (result ≡ length (bits_of 31 (bit_and bits group))) × (result ≤ 31) }
{
    u32::count_ones(bits & group) as usize
}

// The words that the fields of fixed size of some bits take together: of each group, how many there are, times its words. Few packets have one of the last
// five.
pub fn fixed_words(bits: u32) -> usize
    ensures { (result ≡ sizes_of (bits_of 31 bits)) × (result ≤ 74) }
{
    let high = high_words(bits);
    if bits & LAST == 0 {
        return high;
    }
    high + in_group(bits, TEN) + 11 * in_group(bits, ELEVEN) + 13 * in_group(bits, THIRTEEN)
}

// The words of a field of fixed size, by the group that its bit is in; 0 for a bit in none. From 15 up a field has 1 word or 2. By shifts: a match on the bit would be
// a table of sizes in memory.
pub fn field_size(bit: u32) -> usize
    requires { bit < 31 }
    ensures { (result ≡ field_size bit) × (result ≤ 13) }
{
    if 14 < bit {
        return 1 + ((TWO >> bit) % 2) as usize;
    }
    if (ELEVEN >> bit) % 2 == 1 {
        return 11;
    }
    if (THIRTEEN >> bit) % 2 == 1 {
        return 13;
    }
    ((TEN >> bit) % 2) as usize
}

// The words of a body from a place on: none where the place is past its end.
pub fn words_from(body: &[u32], at: usize) -> &[u32]
    ensures { result.now ≡ drop at body.now }
{
    &body[std::cmp::min(at, body.len())..]
}

// The words of field 9, the first of some words.
#[tactic(auto, unfolding(crate::specs::Sizes::ascii_words))]
fn ascii_words(ws: &[u32]) -> usize
    ensures { (result ≡ ascii_words ws.now) × (result ≤ 2 ^ 33) }
{
    2 + words::inner::word_at(ws, 1) as usize
}

// The words of field 8, by its two first words.
fn list_words(a: u32, b: u32) -> u32
    ensures { (result ≡ list_words (a ∷ b ∷ [])) × (result ≤ 2 ^ 18) }
{
    2 + a / 0x1_0000 % 512 + a % 512 + b / 0x1_0000 % 0x1_0000 + b % 0x8000 * (1 + b / 0x8000 % 2)
}

// The words of field 8, the first of some words.
#[tactic(auto, unfolding(crate::specs::Sizes::list_words))]
fn list_words_of(ws: &[u32]) -> usize
    ensures { (result ≡ list_words ws.now) × (result ≤ 2 ^ 33) }
{
    list_words(words::inner::word_at(ws, 0), words::inner::word_at(ws, 1)) as usize
}

// The words of the field of a bit, the first of some words.
#[tactic(auto, unfolding(crate::specs::Sizes::words_of))]
pub fn words_of(bit: u32, ws: &[u32]) -> usize
    requires { bit < 31 }
    ensures { (result ≡ words_of bit ws.now) × (result ≤ 2 ^ 33) }
{
    match bit {
        9 => ascii_words(ws),
        8 => list_words_of(ws),
        _ => field_size(bit),
    }
}
