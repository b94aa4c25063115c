// Values in lent places, and the number of a refusal.
ghost use Rattle.std.specs.Prelude.{◌≡◌};
ghost use Rattle.words.specs.Tests.{when};
ghost use Rattle.words.specs.Word.{Within};
ghost use Rattle.words.specs.Listed.{list_number, on_paper};
ghost use Rattle.words.specs.Told.{refusal};
ghost use Rattle.vrt49.specs.Answers.{Tells, refusal_parts, refusal_widths, number_for, plain};

// A flag as a word.
pub fn flag(set: bool) -> u32
    ensures { result ≡ when set 1 }
{
    u32::from(set)
}

// The number that is given of a refusal that is told where: its own in bits 7-0, the field's bit in 15-8, the word in 31-16.
pub fn number_for(r: words::RefusedAt) -> u32
    requires { Within refusal_widths (refusal_parts (refusal (list_number r.refusal) r.place)) }
    ensures { result ≡ number_for (refusal (list_number r.refusal) r.place) }
{
    let place = r.place;
    let word = words::inner::place_word(place) as u32;
    u32::from(r.refusal) + 0x100 * (words::inner::place_bit(place) + 0x100 * word)
}

// Tells a number of words or items, and gives 0; or gives the number of the refusal.
pub fn give_value(r: Result<usize, words::Refusal>, value: &mut usize) -> u32
    ensures { Tells plain (on_paper r) value.old result value.new }
{
    match r {
        Err(refusal) => u32::from(refusal),
        Ok(many) => {
            *value = many;
            0
        }
    }
}
