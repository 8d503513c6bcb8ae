//! Assembler text to ELF executables: the texts of words, labels, and data words behind `.data`.
//!
//! A text assembles to one file or has a first line at fault; the contract of `assemble` says which, both ways.
#![tactic(auto)]

mod assembly;
mod error;
mod file;
mod given;
mod heads;
mod labels;
mod lines;
mod operands;
mod place;
mod program;

pub use assembly::{Assembly, assemble, assemble_counted};
pub use error::{AsmError, Fault};
pub use program::{Program, program_of};
