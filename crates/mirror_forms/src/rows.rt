//! Mirror parts of other kinds, a row for each kind.
ghost use Rattle.std.specs.Prelude.{◌≡◌, ◌≤◌, ◌++◌, ℤ, length, OnOk, OnErr};
ghost use Rattle.weave_core.specs.Blocks.{FitsPiece};
ghost use Rattle.qed_model.specs.Weave.Diverse.{parts_of, diverse, lui_high as high_of, lui_low as low_of};
ghost use Rattle.passes.specs.Emitted.{AppendsPart};

use crate::parts::put_parts;
use eddi_dup::put_mirrored;
use passes::Emit;
use qed_model::diverse::{Part, Place};
use rv_isa::{Ins, Kind};
use std::alloc::AllocError;

// The rows of `parts_of`, passed to the macro named first. A row has the words of a kind's other mirror part.
// `op` takes two registers, `opi` a register and an immediate. $n is the instruction's immediate.
macro_rules! part_rows {
    ($call:ident $n:tt $($given:tt)*) => {
        $call!($($given)*;
            Addi => opi Xori X30 X0 $n, op Add RD RS1 X30;
            Slti => opi Addi X30 X0 $n, op Slt RD RS1 X30;
            Sltiu => opi Addi X30 X0 $n, op Sltu RD RS1 X30;
            Xori => opi Addi X30 X0 $n, op Xor RD RS1 X30;
            Ori => opi Addi X30 X0 $n, op Or RD RS1 X30;
            Andi => opi Addi X30 X0 $n, op And RD RS1 X30;
            Slli => opi Addi X30 X0 $n, op Sll RD RS1 X30;
            Srli => opi Addi X30 X0 $n, op Srl RD RS1 X30;
            Srai => opi Addi X30 X0 $n, op Sra RD RS1 X30;
            Slliw => opi Addi X30 X0 $n, op Sllw RD RS1 X30;
            Srliw => opi Addi X30 X0 $n, op Srlw RD RS1 X30;
            Sraiw => opi Addi X30 X0 $n, op Sraw RD RS1 X30;
            Addiw => opi Addi X30 RS1 $n, op Addw RD X30 X0;
            Add => op Sub X30 X0 RS2, op Sub RD RS1 X30;
            Sub => opi Xori X30 RS2 (-1), op Add X30 X30 RS1, opi Addi RD X30 1;
            Addw => op Add X30 RS1 RS2, opi Addiw RD X30 0;
            Subw => op Sub X30 RS1 RS2, opi Addiw RD X30 0;
            Mulw => op Mul X30 RS1 RS2, opi Addiw RD X30 0;
            Xor => op Or X30 RS1 RS2, op And X31 RS1 RS2, op Sub RD X30 X31;
            Or => op Xor X30 RS1 RS2, op And X31 RS1 RS2, op Add RD X30 X31;
            And => op Or X30 RS1 RS2, op Xor X31 RS1 RS2, op Xor RD X30 X31;
            Slt => opi Addi X30 X0 (-1), opi Slli X30 X30 63, op Xor X31 RS1 X30, op Xor X30 RS2 X30, op Sltu RD X31 X30;
            Sltu => opi Addi X30 X0 (-1), opi Slli X30 X30 63, op Xor X31 RS1 X30, op Xor X30 RS2 X30, op Slt RD X31 X30;
            Sra => opi Srai X31 RS1 63, op Xor X30 RS1 X31, op Srl X30 X30 RS2, op Xor RD X30 X31;
            Sllw => opi Andi X30 RS2 31, op Sll X30 RS1 X30, opi Addiw RD X30 0;
            Srlw => opi Andi X31 RS2 31, opi Slli X30 RS1 32, opi Srli X30 X30 32, op Srl X30 X30 X31, opi Addiw RD X30 0;
            Sraw => opi Andi X31 RS2 31, opi Addiw X30 RS1 0, op Sra RD X30 X31;
            Lui => opi Addi X30 X0 (lui_high($n)), opi Slli X30 X30 10, opi Addi X30 X30 (lui_low($n)), opi Slli RD X30 12;
            Mulh => op Mulhu X30 RS1 RS2, opi Srai X31 RS1 63, op And X31 X31 RS2, op Sub X30 X30 X31,
                opi Srai X31 RS2 63, op And X31 X31 RS1, op Sub RD X30 X31;
            Mulhu => op Mulh X30 RS1 RS2, opi Srai X31 RS1 63, op And X31 X31 RS2, op Add X30 X30 X31,
                opi Srai X31 RS2 63, op And X31 X31 RS1, op Add RD X30 X31;
            Mulhsu => op Mulhu X30 RS1 RS2, opi Srai X31 RS1 63, op And X31 X31 RS2, op Sub RD X30 X31;
            Rem => op Div X30 RS1 RS2, op Mul X30 X30 RS2, op Sub RD RS1 X30;
            Remu => op Divu X30 RS1 RS2, op Mul X30 X30 RS2, op Sub RD RS1 X30;
            Remw => op Divw X30 RS1 RS2, op Mulw X30 X30 RS2, op Subw RD RS1 X30;
            Remuw => op Divuw X30 RS1 RS2, op Mulw X30 X30 RS2, op Subw RD RS1 X30;
            Divw => opi Addiw X30 RS1 0, opi Addiw X31 RS2 0, op Div X30 X30 X31, opi Addiw RD X30 0;
            Divuw => opi Slli X30 RS1 32, opi Srli X30 X30 32, opi Slli X31 RS2 32, opi Srli X31 X31 32,
                op Divu X30 X30 X31, opi Addiw RD X30 0;
        )
    };
}

// A word on two registers.
macro_rules! op {
    ($kind:ident $to:ident $left:ident $right:ident) => {
        Part { kind: Kind::$kind, to: Place::$to, left: Place::$left, right: Place::$right, imm: 0 }
    };
}

// A word on a register and an immediate.
macro_rules! opi {
    ($kind:ident $to:ident $left:ident $imm:expr) => {
        Part { kind: Kind::$kind, to: Place::$to, left: Place::$left, right: Place::X0, imm: $imm }
    };
}

// Appends the words of the row, or mirrors the instruction as it is.
macro_rules! put_row {
    ($ins:ident $at:ident $out:ident; $($row:ident => $($op:ident $kind:ident $to:ident $left:ident $right:tt),*;)*) => {
        match $ins.kind {
            $(Kind::$row => put_parts($ins, &[$($op!($kind $to $left $right)),*], $out),)*
            _ => put_mirrored($ins, $at, $out),
        }
    };
}

// How many words the row has.
macro_rules! count_row {
    ($of:ident; $($row:ident => $($op:ident $kind:ident $to:ident $left:ident $right:tt),*;)*) => {
        match $of {
            $(Kind::$row => [$(Kind::$kind),*].len() as u64,)*
            _ => 0,
        }
    };
}

/// Bits 22 to 31 of the immediate of LUI, as a signed number.
fn lui_high(imm: i64) -> i64
    ensures { result ≡ high_of imm }
{
    imm >> 22
}

/// Bits 12 to 21 of the immediate of LUI, as a signed number.
fn lui_low(imm: i64) -> i64
    ensures { result ≡ low_of imm }
{
    ((imm.cast_unsigned() >> 12) % 1024).cast_signed()
}

/// Appends words of other kinds than the instruction's; if there are none, the instruction on the
/// pairs. It is not inlined: its many arrays want a frame that other mirror parts do without.
///
/// Errors: want of memory; then a first part is appended.
#[inline(never)]
pub(crate) fn put_diverse(ins: &Ins, at: u64, out: &mut Emit) -> Result<(), AllocError>
    requires { FitsPiece ins.now }
    ensures all { OnOk result (out.new ≡ out.old ++ diverse ins.now at) }
    ensures part { OnErr result (AppendsPart out.old out.new (diverse ins.now at)) }
{
    part_rows!(put_row (ins.imm) ins at out)
}

/// How many words of other kinds the mirror part of a kind has; 0 if it keeps its own.
pub fn part_count(kind: Kind) -> u64
    ensures value { (n : ℤ) → result ≡ length (parts_of kind n) }
    ensures bound { result ≤ 7 }
{
    part_rows!(count_row 0 kind)
}
