// The fields that an indicator carries, one after the other.
ghost use Rattle.std.specs.Prelude.{◌≡◌, ◌∷◌, ◌<◌, MatchOption, length};
ghost use Rattle.std.specs.Int.Bits.{bit_and};
ghost use Rattle.std.specs.Iterator.{at_most};
ghost use Rattle.words.specs.SetBits.{bits_of};

// The set bits of a number, the highest first, as long as one is left whose field has a rule.
#[derive(Clone, Copy)]
pub struct Fields(pub u32);

impl Iterator for Fields {
    type Item = u32;

    ghost next_gives = { λ s r t. MatchOption r (bit_and s.0 0x21278300 ≡ 0) (λ b. (bits_of 32 s.0 ≡ b ∷ bits_of 32 t.0) × (b < 32) × (t.0 < s.0)) };

    ghost remaining = { λ s. at_most (length (bits_of 32 s.0)) };

    // Leading zeros name the highest of the bits that are left.
    fn next(&mut self) -> Option<u32> {
        let rest = self.0;
        if rest & crate::inner::rules::RULED == 0 {
            return None;
        }
        let bit = 31 - u32::leading_zeros(rest);
        self.0 = rest - (1 << bit);
        Some(bit)
    }
}
