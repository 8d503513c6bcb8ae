//! Texts on standard error about calls that failed. No other program reads them, and no contract
//! mentions them: rows hold them.
#![tactic(auto)]

mod answers;
mod growth;
mod heard;
mod names;
mod places;
mod run;
mod sentences;
mod streams;
mod usage;

pub use answers::{EndedCall, advice};
pub use heard::Heard;
pub use streams::complain;
