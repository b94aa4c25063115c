// What is held of a state word, field 16: the user bits, and of each of the six persistent indicators its enable and its value.
ghost use Rattle.std.specs.Prelude.{◌≡◌};
ghost use Rattle.words.specs.Word.{marked};
ghost use Rattle.record.specs.State.{spoken, state_after, state_good};

// The enables of the persistent indicators, 31 to 26: calibrated time, valid data, reference lock, AGC, detected signal, spectral inversion. Each has its value
// 12 bits below.
const ENABLES: u32 = 0xFC00_0000;

// The user bits, 7 to 0.
const USER: u32 = 0xFF;

// The bits that a state word speaks of: the enables that it sets, their values, and the user bits.
fn spoken_by(word: u32) -> u32
    ensures { result ≡ marked 32 (spoken word) }
{
    let enables = word & ENABLES;
    (enables | (enables >> 12)) | USER
}

// What is held after a state word, where a word was held before it: the bits that it speaks of are its own, and the others stay.
pub fn state_after(word: u32, held: u32) -> u32
    ensures { result ≡ state_after word held }
{
    held ^ ((held ^ word) & spoken_by(word))
}

// Whether a state word can be held: it has no bit but those that it speaks of.
pub fn state_good(word: u32) -> bool
    ensures { result ≡ state_good word }
{
    word & spoken_by(word) == word
}
