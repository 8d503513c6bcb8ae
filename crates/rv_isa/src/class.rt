//! The classes of instruction.

/// What an instruction does: the classes by which a machine steps and a test is rewritten.
#[derive(Clone, Copy, Debug, PartialEq, Eq)]
pub enum Class {
    /// Writes a number made from registers, the immediate and the pc.
    Compute,
    /// Reads memory.
    Load,
    /// Writes memory.
    Store,
    /// Goes to pc + immediate where a comparison of two registers holds.
    Branch,
    /// Goes to pc + immediate: JAL.
    Jump,
    /// Goes to a register + immediate: JALR.
    JumpReg,
    /// Ends the run: ECALL.
    End,
    /// Stops the run as a check that fired: EBREAK.
    Break,
    /// Does nothing on one hart: FENCE.
    Fence,
    /// The zero word.
    Illegal,
}
