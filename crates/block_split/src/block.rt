//! Blocks.

use elf_types::Listed;
use rv_isa::Ins;

/// Instructions one behind the other.
pub type Instructions = Listed<Ins>;

/// How many instructions each of some pieces has.
pub type Lengths = Listed<u64>;

/// A block of a test.
#[derive(Debug, Drop)]
pub struct CodeBlock {
    /// The address of its first instruction.
    pub start: u64,
    /// The instructions before its end, one behind the other from `start` on.
    pub body: Instructions,
    /// The lengths of the pieces into which the body is cut. An empty body has one piece of length 0.
    pub lengths: Lengths,
    /// The instruction that ends the block, behind the body. None if the block falls through.
    pub end: Option<Ins>,
    /// Whether a JALR of the test may lead to its first instruction, if only such addresses have entries; else false.
    pub reached: bool,
}

/// Blocks in ascending order of their first addresses.
pub type Blocks = Listed<CodeBlock>;
