//! The bounds of an output, and what they depend on.

/// What the bounds depend on.
#[derive(Clone, Copy, Debug, PartialEq, Eq)]
pub struct Shape {
    /// How many data words there are.
    pub words: u64,
    /// How many data ranges there are.
    pub ranges: u64,
    /// How many data words are visited behind each piece.
    pub round: u64,
    /// The greatest number of instructions in a piece.
    pub inst_max: u64,
    /// The new code has the far form, in which a jump to an entry has two words.
    pub far: bool,
    /// All data words and registers are compared before the end.
    pub sweep: bool,
    /// The mirror part of most computing instructions is of other kinds than the instruction.
    pub diverse: bool,
    /// Each entry of the lean form tests the signature.
    pub land: bool,
}

/// The bounds of an output, in steps.
#[derive(Clone, Copy, Debug, PartialEq, Eq)]
pub struct Bounds {
    /// The steps of the longest piece, with its entry and its leave.
    pub piece: u64,
    /// The steps until a change of a register is seen, or gone.
    pub register: u64,
    /// The steps until a change of a data word is seen, or gone; None without data words.
    pub word: Option<u64>,
    /// The steps before the first entry, and those before the end.
    pub start: u64,
    /// In the lean form, the steps until an early change of a register is seen, or gone: the
    /// output still goes on `register` steps behind it.
    pub early_register: Option<u64>,
    /// In the lean form, the steps until an early change of a data word is seen, or gone: the
    /// output still goes on `word` steps behind it. None without data words.
    pub early_word: Option<u64>,
}
