//! Which tests are admitted. The rules are tested in order, each over the whole file before the next. The answer is the
//! first that holds, or the test: its code, its data and its places.
#![tactic(auto)]

mod admission;
mod check;
mod data_ranges;
mod facts;
mod faults;
mod header;
mod places;
mod rules;
mod shape;
mod spans;
mod stretches;
mod words;

pub use admission::admit;
