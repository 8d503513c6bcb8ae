//! Writes ELF64 executables for RISC-V: segments, sections, symbols, and the tables that describe them (ELF gABI).
//!
//! The bytes are those of the definition `written`. By the reader's rules they are a file, with the given segments,
//! sections and symbols.
#![tactic(auto)]

mod layout;
mod numbers;
mod parts;
mod plain;
mod records;
mod sections;
mod segments;
mod symbols;
mod write;

pub use numbers::push_zeros;
pub use plain::{section, segment};
pub use sections::names_size;
pub use write::{file_size, write_elf};
