//! Parts of texts that several crates share: numbers, registers, the texts around a byte, and names that are printed. A
//! text is its bytes.
#![tactic(auto)]

mod names;
mod numbers;
mod parts;
mod registers;

pub use names::{MOST_OF_NAME, MOST_OF_PATH, printable};
pub use numbers::{digits, number};
pub use parts::split_once;
pub use registers::register;
