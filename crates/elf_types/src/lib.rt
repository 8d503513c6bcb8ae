//! What ELF64 files for RISC-V hold, as plain data: a file that was read, a file to be written, the records of their
//! tables, and why a file is refused. Sizes and addresses are in bytes. The sources are the ELF gABI for ELF64 and the
//! RISC-V ELF psABI.
#![tactic(auto)]

pub mod abi;
mod bytes;
mod error;
mod file;
mod listed;
mod output;
mod overlap;
mod records;

pub use bytes::{Bytes, Shared};
pub use error::{ElfError, Part};
pub use file::{ElfFile, Rela, Relas, Section, Sections, Segment, Segments, Symbol, Symbols};
pub use listed::Listed;
pub use output::{OutFile, OutSection, OutSections};
pub use overlap::share_byte;
pub use records::{ProgramHeader, SectionHeader, SymbolEntry};
