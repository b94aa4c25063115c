// The class of a 49A packet by its two words, and its payload by its length in words.
ghost use Rattle.std.specs.Prelude.{◌≡◌, true, ◌+◌, ◌*◌, ◌^◌, ◌≤◌, ◌<◌};
ghost use Rattle.packet_survey.specs.Class.{pad_of, high_known, real_complex_in, data_type, low_known, class_known, item_bits, code_of};
ghost use Rattle.packet_survey.specs.Payload.{vector_bits, payload_bits, payload_whole, pad_bad, items_in, format_first, format_second};

// How often 2 is a factor of an item's bits, a hexadecimal digit for each data type, that of type 0 rightmost: a match on the type would be a table in memory.
const DOUBLINGS: u64 = 0x65_4320_6565_4320;

// The bits of an item: 4, 8, 16, 32, 64, 32, 64, 1, 4, 8, 16, 32 and 64 for types 1 to 13.
fn item_bits(data_type: u32) -> u32
    requires { (1 ≤ data_type) × (data_type ≤ 13) }
    ensures { (result ≡ item_bits data_type) × (1 ≤ result) × (result ≤ 64) }
{
    1 << ((DOUBLINGS >> (4 * data_type)) % 16)
}

// The code of an item: signed, single, double, unsigned.
fn code_of(data_type: u32) -> u32
    requires { data_type ≤ 13 }
    ensures { (result ≡ code_of data_type) × (result ≤ 16) }
{
    match data_type {
        0..=5 => 0,
        6..=7 => data_type + 8,
        _ => 16,
    }
}

// A class by its two words. That it fits the table is asked by what needs it: a type for such a class would have to go through the checks of `packet`, whose answers
// have none.
#[derive(Clone, Copy)]
pub struct Class {
    pub high: u32,
    pub low: u32,
}

impl Class {
    // The pad count.
    pub fn pad(self) -> u32
        ensures { (result ≡ pad_of self.high) × (result < 32) }
    {
        self.high / 0x800_0000 % 32
    }

    // Whether the first word's bits 26-24 are zero, and the OUI behind them is FF-FF-FA.
    fn high_known(self) -> bool
        ensures { result ≡ high_known self.high }
    {
        self.high % 0x800_0000 == 0xFF_FFFA
    }

    fn data_type(self) -> u32
        ensures { result ≡ data_type self.low }
    {
        self.low / 0x1_0000 % 16
    }

    // Whether the second word says real or complex and a data type of 1 to 13, with zeros to their left: bits 31-21 are then all zero.
    fn low_known(self) -> bool
        ensures { result ≡ low_known self.low }
    {
        self.low < 0x20_0000 && matches!(self.data_type(), 1..=13)
    }

    // Whether the class fits the table.
    #[tactic(auto, unfolding(crate::specs::Class::class_known))]
    fn class_known(self) -> bool
        ensures { result ≡ class_known self.high self.low }
    {
        self.high_known() && self.low_known()
    }

    // The bits of an item.
    fn item_bits(self) -> u32
        requires { low_known self.low ≡ true }
        ensures { (result ≡ item_bits (data_type self.low)) × (1 ≤ result) × (result ≤ 64) }
    {
        item_bits(self.data_type())
    }

    // The items of a sample: one of a real, two of a complex.
    fn components(self) -> u32
        ensures { (result ≡ real_complex_in self.low + 1) × (1 ≤ result) × (result ≤ 4) }
    {
        self.low / 0x10_0000 % 4 + 1
    }

    // The bits of a sample vector.
    fn vector_bits(self) -> u32
        requires { low_known self.low ≡ true }
        ensures { (result ≡ vector_bits self.low) × (1 ≤ result) }
    {
        self.item_bits() * self.components() * (self.low % 0x1_0000 + 1)
    }

    // The bits of the payload less its padding.
    fn payload_bits(self, length: usize) -> u32
        requires { (pad_of self.high ≤ 32 * length) × (length < 2 ^ 16) }
        ensures { result ≡ payload_bits self.high length }
    {
        32 * length as u32 - self.pad()
    }

    // Whether the payload less its padding is a whole number of sample vectors.
    fn payload_whole(self, length: usize) -> bool
        requires { (low_known self.low ≡ true) × (length < 2 ^ 16) }
        ensures { result ≡ payload_whole self.high self.low length }
    {
        self.pad() as usize <= 32 * length && self.payload_bits(length) % self.vector_bits() == 0
    }

    // PAD: class or trailer is absent, the class does not fit the table, or the payload less its padding is not a whole number of sample vectors.
    pub fn pad_bad(self, classed: bool, trailed: bool, length: usize) -> bool
        requires { length < 2 ^ 16 }
        ensures { result ≡ pad_bad classed trailed self.high self.low length }
    {
        if classed && trailed && self.class_known() {
            return !self.payload_whole(length);
        }
        true
    }

    // n, the items of a payload that is not PAD.
    pub fn items_in(self, length: usize) -> u32
        requires { (class_known self.high self.low ≡ true) × (payload_whole self.high self.low length ≡ true) × (length < 2 ^ 16) }
        ensures { result ≡ items_in self.high self.low length }
    {
        self.payload_bits(length) / self.item_bits()
    }

    // The first word of the payload's format: real or complex, the item's code, and its bits less one as those of its packing field and its own.
    pub fn format_first(self) -> u32
        requires { low_known self.low ≡ true }
        ensures { result ≡ format_first self.low }
    {
        let most = self.item_bits() - 1;
        (self.low / 0x10_0000 % 4 * 32 + code_of(self.data_type())) * 0x100_0000 + most * 64 + most
    }

    // The second: the vector size less one.
    pub fn format_second(self) -> u32
        ensures { result ≡ format_second self.low }
    {
        self.low % 0x1_0000
    }
}
