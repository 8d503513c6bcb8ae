//! How a test is transformed.
ghost use Rattle.std.specs.Prelude.{◌≡◌};
ghost use Rattle.tests.specs.Options.{default_options};

/// With `--lean`, the most steps from check to check where no option says otherwise.
pub const LEAN_EVERY: u64 = 1200;

/// With `--lean`, the greatest number of instructions in a piece where no option says otherwise.
pub const LEAN_INST_MAX: u64 = 128;

/// With `--lean`, how many data words a check visits where no option says otherwise.
pub const LEAN_ROUND: u64 = 4;

/// Which code addresses have an entry where the code has a JALR.
#[derive(Clone, Copy, Debug, PartialEq, Eq)]
pub enum Entries {
    /// All of them.
    All,
    /// Those to which, by the file, a jump by register may lead.
    Reached,
}

/// The options of a transformation. They are sound if `1 <= inst_min`, `inst_max <= 1024`, `2 * inst_min <= inst_max +
/// 1`, `1 <= round <= 1024`, and `half` and `lean` are sound. A sound `half` is None or a multiple of 4096 from 4096 to
/// 536,870,912. A sound `lean` is None, or with `entries` Reached it is Some of at most 2047, above the most steps of a
/// piece and 30 more, or 33 more with `land`. Without `lean`, `land` has no effect.
#[derive(Clone, Copy, Debug, PartialEq, Eq)]
pub struct Options {
    /// The floor that `inst_max` leaves room for: a piece is shorter only where its run is.
    pub inst_min: u64,
    /// The greatest number of instructions in a piece.
    pub inst_max: u64,
    /// How many data words are visited behind each piece.
    pub round: u64,
    /// The distance of the halves in bytes; None is the least that fits.
    pub half: Option<u64>,
    /// All data words and registers are compared before the end.
    pub sweep: bool,
    /// The mirror part of most computing instructions is of other kinds than the instruction.
    pub diverse: bool,
    /// Which code addresses have an entry where the code has a JALR.
    pub entries: Entries,
    /// The lean form of the new code: the most steps from check to check; None is the form with a comparison behind
    /// each piece.
    pub lean: Option<u64>,
    /// Each entry of the lean form tests the signature, as entries of the other form always do.
    pub land: bool,
}

/// From 4 to 16 instructions in a piece and one data word behind it, the least distance of the halves, no sweep, mirror
/// parts of the instructions' own kinds, and a comparison behind each piece. If the code has a JALR, all code addresses
/// have entries.
impl Default for Options {
    ghost is_default = { λ o. o ≡ default_options };

    fn default() -> Self {
        Options {
            inst_min: 4,
            inst_max: 16,
            round: 1,
            half: None,
            sweep: false,
            diverse: false,
            entries: Entries::All,
            lean: None,
            land: false,
        }
    }
}
