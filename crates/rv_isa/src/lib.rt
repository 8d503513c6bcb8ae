//! The registers and instructions of RV64IM, and the numbers that the registers hold.
//!
//! Says which registers an instruction writes and reads and which class it is of, and gets and
//! sets the fields of an instruction's word.
#![tactic(auto)]

mod class;
mod field;
mod ins;
mod kind;
mod operation;
pub mod profile;
mod reg;
mod regs;

pub use class::Class;
pub use field::Field;
pub use ins::Ins;
pub use kind::Kind;
pub use operation::Operation;
pub use reg::{Reg, register};
pub use regs::Regs;
