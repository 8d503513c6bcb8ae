//! The fields of a word.
ghost use Rattle.std.specs.Prelude.{◌≡◌, ℕ, ◌+◌, ◌^◌, ◌<◌, ◌≤◌, ◌⊎◌};
ghost use Rattle.rv_isa.specs.Field.{bits, with_bits};

/// The bits LO to LO + W - 1 of a 32-bit word, where bit 0 is the least and W is from 1 to 32.
pub struct Field<const LO: u32, const W: u32>;

impl<const LO: u32, const W: u32> Field<LO, W> {
    /// The number that stands in the field.
    pub fn get(word: u32) -> u32
        requires some { 1 ≤ W }
        requires within { LO + W ≤ 32 }
        ensures { result ≡ bits word LO W }
    {
        (word >> LO) & (u32::MAX >> (32 - W))
    }

    /// The word with another number in the field.
    pub fn set(word: u32, value: u32) -> u32
        requires some { 1 ≤ W }
        requires within { LO + W ≤ 32 }
        requires fits { value < 2 ^ W }
        ensures value { result ≡ with_bits word LO W value }
        ensures same { bits result LO W ≡ value }

        // A field that does not overlap this one keeps its number.
        ensures others { (lo w : ℕ) → (lo + w ≤ LO) ⊎ (LO + W ≤ lo) →
            bits result lo w ≡ bits word lo w }
    {
        let mask = (u32::MAX >> (32 - W)) << LO;
        (word & !mask) | (value << LO)
    }
}
