//! The promised bounds, in steps, of a transformed test.
#![tactic(auto)]

mod lean;
mod steps;

pub use lean::lean_bounds;
pub use steps::bounds;
