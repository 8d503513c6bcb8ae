//! The whole program as one call over a shelf of files and a sink of text: it decides what the words and the files call
//! for, then stores and prints it. Its contract says why each answer comes, and what was stored and printed.
#![tactic(auto)]

mod answer;
mod asm;
mod campaigns;
mod decide;
mod explained;
mod fault;
mod generated;
mod list;
mod load;
mod orders;
mod outputs;
mod program;
mod refusal;
mod run;
mod status;
mod ticker;
mod top;
mod world;

pub use program::{exit_code, run_program};
pub use status::Status;
pub use top::qed;
