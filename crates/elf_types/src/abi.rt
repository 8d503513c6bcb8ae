//! Numbers in ELF64 files for RISC-V, under their names in the ELF gABI and the RISC-V ELF psABI.

// ---- the header (ELF gABI, "ELF Header"; for the machine and its flags RISC-V ELF psABI, "ELF Object Files")

/// The first four bytes, 7f 45 4c 46, as a little-endian number (`ELFMAG`).
pub const ELFMAG: u32 = 0x464c_457f;

/// The class of 64-bit files.
pub const ELFCLASS64: u8 = 2;

/// The encoding in which numbers are little endian.
pub const ELFDATA2LSB: u8 = 1;

/// The version, in the identification and in the header.
pub const EV_CURRENT: u8 = 1;

/// The type of executable files.
pub const ET_EXEC: u16 = 2;

/// The machine RISC-V.
pub const EM_RISCV: u16 = 243;

/// A flag of the header: the code may have compressed instructions.
pub const EF_RISCV_RVC: u32 = 1;

/// The number of program headers where it stands elsewhere.
pub const PN_XNUM: u16 = 0xffff;

/// The size of the header of an ELF64 file, in bytes (`Elf64_Ehdr`).
pub const EHDR_SIZE: u16 = 64;

// ---- program headers (ELF gABI, "Program Header")

/// The size of a program header, in bytes (`Elf64_Phdr`).
pub const PHDR_SIZE: u16 = 56;

/// The type of segments that are loaded.
pub const PT_LOAD: u32 = 1;

/// The type of the segment that has what dynamic linking needs.
pub const PT_DYNAMIC: u32 = 2;

/// The type of the segment that names an interpreter.
pub const PT_INTERP: u32 = 3;

/// The segment may be executed.
pub const PF_X: u32 = 1;

/// The segment may be written.
pub const PF_W: u32 = 2;

/// The segment may be read.
pub const PF_R: u32 = 4;

// ---- section headers (ELF gABI, "Sections")

/// The size of a section header, in bytes (`Elf64_Shdr`).
pub const SHDR_SIZE: u16 = 64;

/// The type of headers without a section.
pub const SHT_NULL: u32 = 0;

/// The type of sections that hold what the program defines.
pub const SHT_PROGBITS: u32 = 1;

/// The type of symbol tables.
pub const SHT_SYMTAB: u32 = 2;

/// The type of string tables.
pub const SHT_STRTAB: u32 = 3;

/// The type of tables of relocations with addends.
pub const SHT_RELA: u32 = 4;

/// The type of sections that take no room in the file.
pub const SHT_NOBITS: u32 = 8;

/// The section may be written.
pub const SHF_WRITE: u64 = 1;

/// The section is in memory when the program runs.
pub const SHF_ALLOC: u64 = 2;

/// The section has instructions.
pub const SHF_EXECINSTR: u64 = 4;

/// The number of the section of symbols that are not defined, and of the names of sections where there are none.
pub const SHN_UNDEF: u16 = 0;

/// The number of the section of symbols whose value is absolute.
pub const SHN_ABS: u16 = 0xfff1;

// ---- symbols and relocations (ELF gABI, "Symbol Table" and "Relocation")

/// The size of a symbol, in bytes (`Elf64_Sym`).
pub const SYM_SIZE: u64 = 24;

/// The type of a symbol whose type is not given.
pub const STT_NOTYPE: u8 = 0;

/// The type of symbols that name data.
pub const STT_OBJECT: u8 = 1;

/// The type of symbols that name a function.
pub const STT_FUNC: u8 = 2;

/// The binding of symbols that are seen in their object file alone.
pub const STB_LOCAL: u8 = 0;

/// The binding of symbols that all object files see.
pub const STB_GLOBAL: u8 = 1;

/// The size of a relocation with an addend, in bytes (`Elf64_Rela`).
pub const RELA_SIZE: u64 = 24;
