//! Why a file is refused.
ghost use Rattle.std.specs.Prelude.{◌≡◌};
ghost use Rattle.elf_types.specs.declared.error.ElfError.TheVariants as error;

use std::alloc::AllocError;
use thiserror::Error;

/// A part of a file. Segments and sections go by the number of their header, from 0.
#[derive(Clone, Copy, Debug, PartialEq, Eq)]
pub enum Part {
    Header,
    ProgramTable,
    SectionTable,
    Segment(u64),
    Section(u64),
}

/// Why a file is not read. The rules are tested in this order, each over the whole file before the next.
#[derive(Clone, Copy, Debug, Error, PartialEq, Eq)]
pub enum ElfError {
    /// The file does not begin with 7f 45 4c 46.
    #[error("no ELF magic")]
    Magic,
    /// The class is not ELFCLASS64.
    #[error("class {0}")]
    Class(u8),
    /// The encoding is not ELFDATA2LSB.
    #[error("encoding {0}")]
    Encoding(u8),
    /// The version of the identification is not 1, or else that of the header.
    #[error("version {0}")]
    Version(u32),
    /// The type is not ET_EXEC.
    #[error("file type {0}")]
    FileType(u16),
    /// The machine is not EM_RISCV.
    #[error("machine {0}")]
    Machine(u16),
    /// The sizes and counts of the header are not those of an ELF64 file.
    #[error("header shape")]
    HeaderShape,
    /// The part ends past the end of the file; the first such part.
    #[error("a part is out of the file: {0:?}")]
    OutOfFile(Part),
    /// A segment has more bytes in the file than in memory, or ends past 2^64; the first.
    #[error("segment {0}")]
    SegmentShape(u64),
    /// Two segments share a byte; the least pair.
    #[error("segments {0} and {1} overlap")]
    SegmentOverlap(u64, u64),
    /// A section ends past 2^64, or its name has no end, or it should hold the names and does not; the first.
    #[error("section {0}")]
    SectionShape(u64),
    /// The symbol table has no such shape (0), or the name of this symbol has no end; the first.
    #[error("symbol {0}")]
    SymbolShape(u64),
    /// Of this section of relocations the shape (0) or this entry's symbol is at fault; the first.
    #[error("relocation {1} of section {0}")]
    RelaShape(u64, u64),
    /// There are more than 4,096 sections: how many.
    #[error("{0} sections")]
    TooManySections(u64),
    /// The bytes of segments and names are more than 1,073,741,824: how many.
    #[error("{0} bytes")]
    TooManyBytes(u64),
    /// Out of memory.
    #[error("out of memory")]
    Memory,
}

impl From<AllocError> for ElfError {
    ghost from_gives = { λ _ e. e ≡ error.Memory };

    fn from(_: AllocError) -> Self {
        ElfError::Memory
    }
}
