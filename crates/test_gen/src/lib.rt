//! Generated tests: functions of random instructions, and a `main` that calls each of them three times.
//!
//! A seed and a size always give one file.
#![tactic(auto)]

mod body;
mod code;
mod file;
mod instruction;
mod random;
mod tables;

pub use code::code_words;
pub use file::generate;
pub use random::{drawn, seeded};
