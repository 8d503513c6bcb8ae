//! A test that was admitted.

use crate::Ranges;
use elf_types::{Listed, Segments};
use rv_isa::Ins;

/// A word of the code.
#[derive(Clone, Copy, Debug, PartialEq, Eq)]
pub struct CodeWord {
    /// Its address, a multiple of 4.
    pub at: u64,
    pub word: u32,
    /// The instruction that it is.
    pub ins: Ins,
}

/// Words of the code in ascending order of their addresses.
pub type CodeWords = Listed<CodeWord>;

/// The facts of a test that was admitted. Addresses and sizes are in bytes.
#[derive(Debug, Drop)]
pub struct Test {
    /// The address of the first instruction.
    pub entry: u64,
    /// The code ranges, in the order of their sections or segments.
    pub ranges: Ranges,
    /// All words of the code ranges.
    pub code: CodeWords,
    /// Where the image begins, rounded down to a multiple of 4096.
    pub base: u64,
    /// The distance of the halves.
    pub distance: u64,
    /// The least address of the image.
    pub low: u64,
    /// The greatest end of the image's segments.
    pub high: u64,
    /// The data ranges, in ascending order.
    pub span: Ranges,
    /// The segments of type PT_LOAD with a memory size above 0, in the order of their program headers.
    pub segments: Segments,
}
