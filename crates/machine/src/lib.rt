//! The machine of RV64IM: the definitions of instructions, memory, steps and runs, the limits of what is read and run,
//! and the types that they share.
#![tactic(auto)]

mod laws;
pub mod limits;
mod outcome;
mod place;
mod rows;

pub use laws::operands_go_by_format;
pub use limits::Limit;
pub use outcome::{Cause, Outcome};
pub use place::Place;
