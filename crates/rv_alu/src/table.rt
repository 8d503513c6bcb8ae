//! What the computing rows of the instruction table compute, and when its branches are taken.
ghost use Rattle.std.specs.Prelude.{◌≡◌};
ghost use Rattle.machine.specs.Values.{value, holds};

use crate::compare::{below, equal, less, not_below, not_less, unequal};
use crate::divide::{div, divu, rem, remu};
use crate::multiply::{mul, mulh, mulhsu, mulhu};
use crate::register::{add, and, or, sll, slt, sltu, sra, srl, sub, xor};
use crate::word::{addw, divuw, divw, mulw, remuw, remw, sllw, sraw, srlw, subw};
use machine::rows;
use rv_isa::Kind;

// What the row of the kind says of two operands, and `other` where it is not among these rows.
macro_rules! by_row {
    ($kind:ident $a:ident $b:ident $other:literal; $($row:ident $format:ident $mask:literal $match:literal $value:ident,)*) => {
        match $kind {
            $(Kind::$row => $value($a, $b),)*
            _ => $other,
        }
    };
}

/// What an instruction of a computing kind writes to rd, by the listings of RV64I and of the M extension (RISC-V
/// unprivileged manual). a is the number in rs1; b is that in rs2, or the immediate modulo 2^64. Both are any numbers
/// from 0 to 2^64 - 1. It is 0 for a kind that does not compute, and for LUI and AUIPC. Their values come from the
/// immediate and the pc.
#[tactic(auto, unfolding(machine::specs::Values::value))]
pub fn compute(kind: Kind, a: u64, b: u64) -> u64
    ensures { result ≡ value kind a b }
{
    rows!(immediate shift register word multiply => by_row kind a b 0)
}

/// Whether a branch is taken, a being the number in rs1 and b the number in rs2 (RISC-V unprivileged manual,
/// "Conditional Branches"). For any other kind it is false.
#[tactic(auto, unfolding(machine::specs::Values::holds))]
pub fn taken(kind: Kind, a: u64, b: u64) -> bool
    ensures { result ≡ holds kind a b }
{
    rows!(branch => by_row kind a b false)
}
