//! What a file is written from.
ghost use Rattle.std.specs.Prelude.{◌≡◌};
ghost use Rattle.elf_types.specs.Abi.{has_alloc};

use crate::abi::SHF_ALLOC;
use crate::{Bytes, Listed, Segments, Symbols};

/// A section of a file that is written, of type `SHT_PROGBITS`.
#[derive(Debug, Drop)]
pub struct OutSection {
    /// The name, without a zero byte.
    pub name: Bytes,
    /// As in a section header: `SHF_WRITE`, `SHF_ALLOC`, `SHF_EXECINSTR` and others.
    pub flags: u64,
    /// The address of its first byte in memory, where it has SHF_ALLOC.
    pub address: u64,
    /// The size, in bytes.
    pub size: u64,
    /// Its own bytes. A section with SHF_ALLOC has none, and lies in the bytes of a segment.
    pub bytes: Bytes,
}

impl OutSection {
    /// Whether the section is in memory when the program runs.
    #[tactic(auto, using(crate::proofs::Flags::has_bit_1))]
    pub fn is_allocated(&self) -> bool
        ensures { result ≡ has_alloc self.now.flags }
    {
        self.flags & SHF_ALLOC != 0
    }
}

/// Sections in the order in which they are written.
pub type OutSections = Listed<OutSection>;

/// A file that is written.
#[derive(Debug, Drop)]
pub struct OutFile {
    /// The address of the first instruction.
    pub entry: u64,
    /// The flags of the header.
    pub flags: u32,
    pub segments: Segments,
    pub sections: OutSections,
    /// The symbols behind the null symbol, those of binding STB_LOCAL first.
    pub symbols: Symbols,
}
