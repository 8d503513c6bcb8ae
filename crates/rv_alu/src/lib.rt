//! What the computing instructions of RV64IM compute, when its branches are taken, and the steps
//! that touch no memory. All are what the definitions of `machine` say, for every kind and all
//! operands.
#![tactic(auto)]

mod compare;
mod divide;
mod multiply;
mod register;
mod step;
mod table;
mod word;

pub use step::{Branching, Computing, Jumping, Passing};
pub use table::{compute, taken};
