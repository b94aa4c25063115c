// Where a packet is refused, as numbers.
ghost use Rattle.std.specs.Prelude.{◌≡◌};
ghost use Rattle.words.specs.Told.{place_word, place_bit};

// The word, and 0 where none is told.
pub fn place_word(place: crate::Where) -> usize
    ensures { result ≡ place_word place }
{
    match place {
        crate::Where::Nowhere => 0,
        crate::Where::Word(at) => at,
        crate::Where::Field(at, _) => at,
    }
}

// The field's bit, and 0 where none is told.
pub fn place_bit(place: crate::Where) -> u32
    ensures { result ≡ place_bit place }
{
    match place {
        crate::Where::Nowhere => 0,
        crate::Where::Word(_) => 0,
        crate::Where::Field(_, bit) => bit,
    }
}
