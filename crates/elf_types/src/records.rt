//! The records of the tables, with the fields that are read. Offsets are in bytes from the file's first.
ghost use Rattle.std.specs.Prelude.{◌≡◌};
ghost use Rattle.elf_types.specs.Abi.{is_load, has_alloc, is_symbol_table, is_string_table, is_rela_table};
ghost use Rattle.elf_types.specs.Section.{has_bytes};

use crate::abi::{PT_LOAD, SHF_ALLOC, SHT_NOBITS, SHT_NULL, SHT_RELA, SHT_STRTAB, SHT_SYMTAB};

/// A program header (ELF gABI, program header).
#[derive(Clone, Copy, Debug, PartialEq, Eq)]
pub struct ProgramHeader {
    pub kind: u32,
    pub flags: u32,
    pub offset: u64,
    pub vaddr: u64,
    pub filesz: u64,
    pub memsz: u64,
}

impl ProgramHeader {
    /// Whether the segment is loaded (`PT_LOAD`).
    pub fn is_load(self) -> bool
        ensures { result ≡ is_load self.kind }
    {
        self.kind == PT_LOAD
    }
}

/// A section header (ELF gABI, section header).
#[derive(Clone, Copy, Debug, PartialEq, Eq)]
pub struct SectionHeader {
    /// Where the name begins in the string table of section names.
    pub name: u32,
    pub kind: u32,
    pub flags: u64,
    pub addr: u64,
    pub offset: u64,
    pub size: u64,
    pub link: u32,
    pub info: u32,
    pub entsize: u64,
}

impl SectionHeader {
    /// Whether the section is in memory when the program runs.
    #[tactic(auto, using(crate::proofs::Flags::has_bit_1))]
    pub fn is_allocated(self) -> bool
        ensures { result ≡ has_alloc self.flags }
    {
        self.flags & SHF_ALLOC != 0
    }

    /// Whether the section is a symbol table (`SHT_SYMTAB`).
    pub fn is_symbol_table(self) -> bool
        ensures { result ≡ is_symbol_table self.kind }
    {
        self.kind == SHT_SYMTAB
    }

    /// Whether the section is a string table (`SHT_STRTAB`).
    pub fn is_string_table(self) -> bool
        ensures { result ≡ is_string_table self.kind }
    {
        self.kind == SHT_STRTAB
    }

    /// Whether the section has relocations with addends (`SHT_RELA`).
    pub fn is_rela_table(self) -> bool
        ensures { result ≡ is_rela_table self.kind }
    {
        self.kind == SHT_RELA
    }

    /// Whether the section has bytes in the file: it is neither `SHT_NULL` nor `SHT_NOBITS`, and is not empty.
    pub fn has_bytes(self) -> bool
        ensures { result ≡ has_bytes self }
    {
        self.kind != SHT_NULL && self.kind != SHT_NOBITS && self.size > 0
    }
}

/// An entry of a symbol table (ELF gABI, symbol table).
#[derive(Clone, Copy, Debug, PartialEq, Eq)]
pub struct SymbolEntry {
    /// Where the name begins in the table's string table.
    pub name: u32,
    /// The binding in the high four bits, the type in the low four.
    pub info: u8,
    pub other: u8,
    pub index: u16,
    pub value: u64,
    pub size: u64,
}
