//! Words to instructions: all rows of RV64I and of the M extension, and the zero word.
//!
//! The contract says of each word which instruction it is, or that it is none, and that decoding
//! is the inverse of encoding.
#![tactic(auto)]

mod format;
mod rows;
mod table;

ghost use Rattle.std.specs.Prelude.{◌≡◌, ◌↔◌, Some};
ghost use Rattle.machine.specs.Table.{decode_of, encode_of};
ghost use Rattle.rv_isa.specs.declared.ins.Ins.{Ins};

use rows::{first_row, rows_at};
use rv_isa::Ins;
use table::TABLE;

/// The instruction of a word: the row of the instruction listings whose fixed bits the word has,
/// and the fields of that row's format (RISC-V unprivileged manual, "RV32/64G Instruction Set
/// Listings"). A field that the format does not have is 0. The immediate is a signed number of
/// bytes where it is an offset, a number of bits in a shift, and in LUI and AUIPC the whole number
/// whose low 12 bits are 0.
///
/// The zero word is `Illegal`. None where the word is in no row of RV64I or of the M extension.
#[inline(always)]
pub fn decode(word: u32) -> Option<Ins>
    ensures instruction { result ≡ decode_of word }

    // Decoding is the inverse of encoding.
    ensures inverse { (i : Ins) → (result ≡ Some i) ↔ (encode_of i ≡ Some word) }
{
    let row = first_row(rows_at(&TABLE, word), word)?;
    Some(row.format.ins(row.kind, word))
}
