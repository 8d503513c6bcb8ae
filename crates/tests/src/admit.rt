//! Why a test is not admitted.
ghost use Rattle.std.specs.Prelude.{◌≡◌};
ghost use Rattle.tests.specs.declared.admit.AdmitError.TheVariants as error;

use rv_isa::Reg;
use std::alloc::AllocError;
use thiserror::Error;

/// Why a test is not admitted. The rules are tested in this order, each over the whole file before the next.
#[derive(Clone, Copy, Debug, Error, PartialEq, Eq)]
pub enum AdmitError {
    /// The file has compressed code.
    #[error("compressed")]
    Compressed,
    /// The file is linked dynamically.
    #[error("dynamic")]
    Dynamic,
    /// This segment is the first that is both written and executed.
    #[error("segment {0}")]
    WritableCode(u64),
    /// The entry, this address, is not code.
    #[error("entry {0:#x}")]
    NoCode(u64),
    /// This section is the first whose code is misshapen; where there is none, this segment.
    #[error("part {0}")]
    CodeShape(u64),
    /// At this address stands the first code word that is not an instruction: the word.
    #[error("address {0:#x}, word {1:#x}")]
    UnknownWord(u64, u32),
    /// The instruction at this address is the first that reads or writes a register above x13: the register.
    #[error("address {0:#x}: {1:?}")]
    RegisterHalf(u64, Reg),
    /// At this address stands the first EBREAK.
    #[error("address {0:#x}")]
    Breakpoint(u64),
    /// The AUIPC at this address is the first whose result is out of reach.
    #[error("address {0:#x}")]
    FarConstant(u64),
    /// This segment is the first that is not a data segment and has a byte in a data range.
    #[error("segment {0}")]
    DataMixed(u64),
    /// The image ends at the first address, past the second, where the half ends that is asked for.
    #[error("image end {0:#x}, half end {1:#x}")]
    OutsideHalf(u128, u128),
    /// The bytes of the image, above L2.
    #[error("an image of {0} bytes")]
    ImageSpan(u128),
    /// The number of code words, above L3.
    #[error("{0} code words")]
    CodeWords(u64),
    /// The room for the new code would end at this address, above L7.
    #[error("new code up to {0}")]
    TopAddress(u128),
    /// Out of memory.
    #[error("out of memory")]
    Memory,
}

impl From<AllocError> for AdmitError {
    ghost from_gives = { λ _ e. e ≡ error.Memory };

    fn from(_: AllocError) -> Self {
        AdmitError::Memory
    }
}
