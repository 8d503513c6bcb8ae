//! Campaigns: transform a test and strike the run of its output many times. The contract says what each strike shows.
//!
//! A strike makes changes, drawn from a seed, in the run of an output; its verdict says what they show.
//! A slip, drawn too, lets one instruction of the output go wrong once.
//! Copies of the output's run are kept, so a strike need not begin at the start. The input runs once.
#![tactic(auto)]

mod beside;
mod course;
mod draw;
mod error;
mod later;
mod right;
mod runs;
mod slips;
mod snapshots;
mod spared;
mod stop;
mod strike;
mod verdict;
mod watched;

pub use course::Course;
pub use draw::{drawn_strikes, word_address};
pub use error::StrikeError;
pub use fault_inject::{Progress, Silent};
pub use runs::{Campaign, Runs};
