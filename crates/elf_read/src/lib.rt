//! Reads ELF64 executables for RISC-V, or names the first rule that refuses the file, with its place. All rules are
//! tested before anything is copied. The tests need no memory; with memory they are quick.
#![tactic(auto)]

mod below;
mod extents;
mod fields;
mod header;
mod known;
mod limits;
mod parts;
mod read;
mod relas;
mod sections;
mod segments;
mod strings;
mod symbols;
mod tables;

pub use known::read_known;
pub use read::{read_elf, read_sections, read_shared};
