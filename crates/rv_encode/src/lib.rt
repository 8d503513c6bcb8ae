//! Instructions to words: all rows of RV64I and of the M extension, and the zero word.
//!
//! The contract says of each instruction which word it is, or that it has none, and that encoding
//! is the inverse of decoding.
#![tactic(auto)]

mod format;
mod immediate;
mod rows;
mod word;

ghost use Rattle.std.specs.Prelude.{◌≡◌, ◌↔◌, ◌<◌, ◌^◌, ℕ, Some};
ghost use Rattle.machine.specs.Table.{decode_of, encode_of};

use rows::any_row;
use rv_isa::Ins;

/// The word of an instruction: the fixed bits of its kind's row in the instruction listings, and its fields in the
/// places of the row's format (RISC-V unprivileged manual, "RV32/64G Instruction Set Listings"). The word of `Illegal`
/// is 0.
///
/// None if the immediate is out of the format's range or off its grain, or if a field that the format
/// lacks is not 0. Ranges: 12 signed bits in I and S, 13 in B, 21 in J, 32 in U, a shift amount below
/// 64, or below 32 for the shifts of 32 bits. Grains: 2 in B and J, 4096 in U.
#[inline(always)]
#[tactic(auto, using(crate::proofs::Inverse::encoded_decoded))]
pub fn encode(ins: &Ins) -> Option<u32>
    ensures word { result ≡ encode_of ins.now }

    // Encoding is the inverse of decoding.
    ensures inverse { (w : ℕ) → (result ≡ Some w) ↔ ((w < 2 ^ 32) × (decode_of w ≡ Some ins.now)) }
{
    any_row(ins)
}
