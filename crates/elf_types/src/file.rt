//! What a file holds.
ghost use Rattle.std.specs.Prelude.{◌≡◌};
ghost use Rattle.elf_types.specs.Abi.{has_compressed, is_load, may_execute, may_write, may_read, has_alloc, has_instructions};
ghost use Rattle.elf_types.specs.Segment.{is_in_image, is_dynamic_segment, segment_end};
ghost use Rattle.elf_types.specs.Section.{is_code_section};
ghost use Rattle.elf_types.specs.Symbol.{is_defined, may_name_code, is_local, is_code_symbol};

use crate::abi::{
    EF_RISCV_RVC, PF_R, PF_W, PF_X, PT_DYNAMIC, PT_INTERP, PT_LOAD, SHF_ALLOC, SHF_EXECINSTR,
    SHN_UNDEF, STB_LOCAL, STT_FUNC, STT_NOTYPE,
};
use crate::{Bytes, Listed};

/// A segment, as its program header describes it (ELF gABI, program header).
#[derive(Debug, Drop)]
pub struct Segment {
    /// The type, as `PT_LOAD` (`abi`).
    pub kind: u32,
    /// The permissions: `PF_X`, `PF_W` and `PF_R`.
    pub flags: u32,
    /// The address of the first byte in memory.
    pub address: u64,
    /// The size in memory, in bytes.
    pub memory: u64,
    /// The bytes in the file, at most `memory` of them. Zeros follow them in memory. There are none where the type is
    /// not PT_LOAD.
    pub bytes: Bytes,
}

impl Segment {
    /// Whether the segment is loaded (`PT_LOAD`).
    pub fn is_load(&self) -> bool
        ensures { result ≡ is_load self.now.kind }
    {
        self.kind == PT_LOAD
    }

    /// Whether the segment is loaded and has bytes in memory.
    pub fn is_in_image(&self) -> bool
        ensures { result ≡ is_in_image self.now }
    {
        self.is_load() && self.memory > 0
    }

    /// Whether the segment asks for dynamic linking (`PT_DYNAMIC`, `PT_INTERP`).
    pub fn is_dynamic(&self) -> bool
        ensures { result ≡ is_dynamic_segment self.now }
    {
        self.kind == PT_DYNAMIC || self.kind == PT_INTERP
    }

    /// Whether the segment may be read.
    #[tactic(auto, using(crate::proofs::Flags::has_bit_2))]
    pub fn is_readable(&self) -> bool
        ensures { result ≡ may_read self.now.flags }
    {
        self.flags & PF_R != 0
    }

    /// Whether the segment may be written.
    #[tactic(auto, using(crate::proofs::Flags::has_bit_1))]
    pub fn is_writable(&self) -> bool
        ensures { result ≡ may_write self.now.flags }
    {
        self.flags & PF_W != 0
    }

    /// Whether the segment may be executed.
    #[tactic(auto, using(crate::proofs::Flags::has_bit_0))]
    pub fn is_executable(&self) -> bool
        ensures { result ≡ may_execute self.now.flags }
    {
        self.flags & PF_X != 0
    }

    /// The address behind the last byte in memory; it may be 2^64 or more.
    pub fn end(&self) -> u128
        ensures { result ≡ segment_end self.now }
    {
        u128::from(self.address) + u128::from(self.memory)
    }
}

/// A section, as its header describes it (ELF gABI, section header).
#[derive(Debug, Drop)]
pub struct Section {
    /// The name, empty where the file names no section.
    pub name: Bytes,
    /// The type, as `SHT_PROGBITS` or `SHT_NOBITS`.
    pub kind: u32,
    /// `SHF_WRITE`, `SHF_ALLOC`, `SHF_EXECINSTR` and others.
    pub flags: u64,
    /// The address of its first byte in memory, where it has SHF_ALLOC.
    pub address: u64,
    /// The size, in bytes.
    pub size: u64,
}

impl Section {
    /// Whether the section is in memory when the program runs.
    #[tactic(auto, using(crate::proofs::Flags::has_bit_1))]
    pub fn is_allocated(&self) -> bool
        ensures { result ≡ has_alloc self.now.flags }
    {
        self.flags & SHF_ALLOC != 0
    }

    /// Whether the section has instructions.
    #[tactic(auto, using(crate::proofs::Flags::has_bit_2))]
    pub fn has_instructions(&self) -> bool
        ensures { result ≡ has_instructions self.now.flags }
    {
        self.flags & SHF_EXECINSTR != 0
    }

    /// Whether the section is one of code: in memory, with instructions, and not empty.
    pub fn is_code(&self) -> bool
        ensures { result ≡ is_code_section self.now }
    {
        self.is_allocated() && self.has_instructions() && self.size > 0
    }
}

/// A symbol (ELF gABI, symbol table).
#[derive(Debug, Drop)]
pub struct Symbol {
    pub name: Bytes,
    /// An address, in an executable file.
    pub value: u64,
    /// The size of what it names, in bytes.
    pub size: u64,
    /// The type, below 16: `STT_NOTYPE`, `STT_OBJECT`, `STT_FUNC` and others.
    pub kind: u8,
    /// The binding, below 16: `STB_LOCAL`, `STB_GLOBAL` and others.
    pub binding: u8,
    /// The visibility.
    pub other: u8,
    /// The number of its section: `SHN_UNDEF` where it is not defined, `SHN_ABS` where its value is absolute.
    pub index: u16,
}

impl Symbol {
    /// Whether the symbol is defined.
    pub fn is_defined(&self) -> bool
        ensures { result ≡ is_defined self.now }
    {
        self.index != SHN_UNDEF
    }

    /// Whether the symbol's value may be the address of code, by its type.
    pub fn may_name_code(&self) -> bool
        ensures { result ≡ may_name_code self.now }
    {
        self.kind == STT_FUNC || self.kind == STT_NOTYPE
    }

    /// Whether the symbol is defined and may name code.
    pub fn is_code(&self) -> bool
        ensures { result ≡ is_code_symbol self.now }
    {
        self.is_defined() && self.may_name_code()
    }

    /// Whether the symbol is seen in its object file alone.
    pub fn is_local(&self) -> bool
        ensures { result ≡ is_local self.now }
    {
        self.binding == STB_LOCAL
    }
}

/// A relocation with an addend (ELF gABI, relocation).
#[derive(Clone, Copy, Debug, PartialEq, Eq)]
pub struct Rela {
    /// Where the relocation applies, an address in an executable file.
    pub place: u64,
    /// The type, by the RISC-V psABI.
    pub kind: u32,
    /// The number of its symbol.
    pub symbol: u32,
    pub addend: i64,
}

/// Segments in the order of their program headers.
pub type Segments = Listed<Segment>;

/// Sections in the order of their headers, the null section first.
pub type Sections = Listed<Section>;

/// Symbols in the order of their table.
pub type Symbols = Listed<Symbol>;

/// Relocations in the order of their sections, and of the entries of each.
pub type Relas = Listed<Rela>;

/// A file that was read.
#[derive(Debug, Drop)]
pub struct ElfFile {
    /// The address of the first instruction.
    pub entry: u64,
    /// The flags of the header, as `EF_RISCV_RVC`.
    pub flags: u32,
    /// One segment for each program header.
    pub segments: Segments,
    /// One section for each section header.
    pub sections: Sections,
    /// The symbols of the first symbol table, the null symbol first.
    pub symbols: Symbols,
    /// The relocations of sections that are loaded, against that symbol table.
    pub relas: Relas,
}

impl ElfFile {
    /// Whether the code may have compressed instructions (RISC-V ELF psABI, file header).
    #[tactic(auto, using(crate::proofs::Flags::has_bit_0))]
    pub fn is_compressed(&self) -> bool
        ensures { result ≡ has_compressed self.now.flags }
    {
        self.flags & EF_RISCV_RVC != 0
    }
}
