//! Why a text is not assembled.
ghost use Rattle.std.specs.Prelude.{◌≡◌};
ghost use Rattle.rv_asm.specs.declared.error.AsmError.TheVariants as error;

use std::alloc::AllocError;
use thiserror::Error;

/// What is wrong with a line. The faults are looked for in this order.
#[derive(Clone, Copy, Debug, Error, PartialEq, Eq)]
pub enum Fault {
    /// The first word is not an instruction, directive or label, or stands on the wrong side of `.data`.
    #[error("unrecognized statement")]
    Unrecognized,
    /// What follows the first word is not of its form.
    #[error("illegal operands")]
    IllegalOperands,
    /// An immediate, or the distance to a label, is out of its field's range or off its grain.
    #[error("immediate out of range")]
    OutOfRange,
    /// No line defines the label.
    #[error("undefined label")]
    UndefinedLabel,
    /// An earlier line defines the label.
    #[error("label defined twice")]
    RedefinedLabel,
    /// The line would be code word 16,385 or data word 131,073.
    #[error("section full")]
    SectionFull,
}

/// Why a text is not assembled.
#[derive(Clone, Copy, Debug, Error, PartialEq, Eq)]
pub enum AsmError {
    /// The first fault on the first line that is at fault, and the number of the line, from 1.
    #[error("line {1}: {0}")]
    Line(Fault, u64),
    /// No line is at fault, and none gives a code word.
    #[error("no instruction")]
    NoCode,
    /// Out of memory.
    #[error("out of memory")]
    Memory,
}

impl From<AllocError> for AsmError {
    ghost from_gives = { λ _ e. e ≡ error.Memory };

    fn from(_: AllocError) -> Self {
        AsmError::Memory
    }
}
