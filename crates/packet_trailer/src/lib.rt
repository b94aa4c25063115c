// The trailer word of a data packet, taken apart and made.
#![tactic(auto)]

ghost use Rattle.std.specs.Prelude.{◌≡◌};
ghost use Rattle.words.specs.Listed.{on_paper};
ghost use Rattle.packet_trailer.specs.Trailer.{trailer_of, trailer_word_of};

use words::Refusal;

// A trailer word's parts.
#[derive(Clone, Copy)]
pub struct Trailer {
    pub enables: u32,
    pub indicators: u32,
    pub e: bool,
    pub associated: u32,
}

// What a trailer word says: the enables, the indicators, E and the associated count.
pub fn trailer_parts(word: u32) -> Trailer
    ensures { result ≡ trailer_of word }
{
    Trailer {
        enables: word / 0x10_0000 % 0x1000,
        indicators: word / 0x100 % 0x1000,
        e: word / 0x80 % 2 == 1,
        associated: word % 0x80,
    }
}

// The trailer word of enables, indicators, E and associated count; VALUE where one does not fit its bits.
pub fn trailer_word(enables: u32, indicators: u32, e: u32, associated: u32) -> Result<u32, Refusal>
    ensures { on_paper result ≡ trailer_word_of enables indicators e associated }
{
    if 0x1000 <= enables {
        return Err(Refusal::Value);
    }
    if 0x1000 <= indicators {
        return Err(Refusal::Value);
    }
    if 2 <= e {
        return Err(Refusal::Value);
    }
    if 0x80 <= associated {
        return Err(Refusal::Value);
    }
    Ok(enables * 0x10_0000 + indicators * 0x100 + e * 0x80 + associated)
}
