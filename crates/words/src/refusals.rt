// The refusals: document 01's table 'Numbers given back', in the order of its numbers, and those that document 02 adds.
ghost use Rattle.std.specs.Prelude.{◌≡◌};
ghost use Rattle.words.specs.Listed.{list_number, Listed};

// Why words, numbers or a buffer are refused. Above each stands when it is given.
#[derive(Clone, Copy, Debug, PartialEq, Eq)]
pub enum Refusal {
    // No words.
    Empty,
    // TYPE: type above 5.
    Kind,
    // Reserved header bit set.
    Bits,
    // Size below the required parts (the indicator word is one, for type 4).
    Short,
    // Size exceeds the words given.
    Cut,
    // Top eight class bits not zero; not given where 49A governs the packet.
    Class,
    // TSF is 2 and the fraction is 10^12 or more.
    Time,
    // Bits 7-0 not zero.
    Indicator,
    // Fields need more or fewer words than the body has.
    Layout,
    // A field rule is broken.
    Field,
    // No identifier (types 0, 2), one not declared, or a stream number not in the table.
    Stream,
    // 0 or over 32 identifiers, or one twice; or choices that are not one for each, or not 0 or 1.
    List,
    // A buffer to be written is too short; or the contents of an index are full.
    Room,
    // A number to be written, or an item to be shown signed, does not fit its bits or type; a field bit is not 30 to 10; a type is not counted; or no item has
    // such a number or such coordinates.
    Value,
    // A packet to be written, or a page, exceeds 65,535 words.
    Size,
    // Rule of field 15 broken, a processing-efficient field of 33 to 63 bits, or an item width outside 1 to 64.
    Format,
    // Wrong number of items, which come in whole groups, or of words.
    Count,
    // Table not well made.
    Table,
    // Page not well made; of an index its contents, or an entry from which a jump cannot go on.
    Page,
    // 49A: class or trailer absent, a class that is not the Standard Data Packet's, or a payload that is not padding and whole sample vectors.
    Pad,
    // Jumping: a packet number above the packets that the index has taken in.
    Place,
}

// A number that is not in the list.
#[derive(Clone, Copy, Debug, PartialEq, Eq)]
pub struct Unlisted(pub u32);

// The number of the list, which C and a run's entries have.
impl From<Refusal> for u32 {
    ghost from_gives = { λ r n. n ≡ list_number r };

    fn from(r: Refusal) -> u32 {
        match r {
            Refusal::Empty => 1,
            Refusal::Kind => 2,
            Refusal::Bits => 3,
            Refusal::Short => 4,
            Refusal::Cut => 5,
            Refusal::Class => 6,
            Refusal::Time => 7,
            Refusal::Indicator => 8,
            Refusal::Layout => 9,
            Refusal::Field => 10,
            Refusal::Stream => 11,
            Refusal::List => 12,
            Refusal::Room => 13,
            Refusal::Value => 14,
            Refusal::Size => 15,
            Refusal::Format => 16,
            Refusal::Count => 17,
            Refusal::Table => 18,
            Refusal::Page => 19,
            Refusal::Pad => 20,
            Refusal::Place => 21,
        }
    }
}

// The refusal of a number of the list.
impl TryFrom<u32> for Refusal {
    type Error = Unlisted;

    ghost try_from_gives = { Listed };

    fn try_from(n: u32) -> Result<Refusal, Unlisted> {
        match n {
            1 => Ok(Refusal::Empty),
            2 => Ok(Refusal::Kind),
            3 => Ok(Refusal::Bits),
            4 => Ok(Refusal::Short),
            5 => Ok(Refusal::Cut),
            6 => Ok(Refusal::Class),
            7 => Ok(Refusal::Time),
            8 => Ok(Refusal::Indicator),
            9 => Ok(Refusal::Layout),
            10 => Ok(Refusal::Field),
            11 => Ok(Refusal::Stream),
            12 => Ok(Refusal::List),
            13 => Ok(Refusal::Room),
            14 => Ok(Refusal::Value),
            15 => Ok(Refusal::Size),
            16 => Ok(Refusal::Format),
            17 => Ok(Refusal::Count),
            18 => Ok(Refusal::Table),
            19 => Ok(Refusal::Page),
            20 => Ok(Refusal::Pad),
            21 => Ok(Refusal::Place),
            _ => Err(Unlisted(n)),
        }
    }
}
