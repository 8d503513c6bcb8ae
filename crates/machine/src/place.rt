//! Where a state is changed.

use rv_isa::Reg;

/// What is changed: a register, or the eight bytes from an address on.
#[derive(Clone, Copy, Debug, PartialEq, Eq)]
pub enum Place {
    Reg(Reg),
    /// The address of the word's first byte.
    Word(u64),
}
