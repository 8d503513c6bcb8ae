//! The printed texts, each exactly as the definitions have it.
#![tactic(auto)]

mod admission;
mod assembly;
mod campaign;
mod dump;
mod errors;
mod generated;
mod help;
mod limits;
mod lines;
mod plan;
mod run;
mod slip_tally;
mod slips;
mod tally;
mod transform;
mod usage;
mod world;

pub use admission::{admit_text, no_word_text};
pub use assembly::{asm_error_text, assembly_text};
pub use campaign::campaign_text;
pub use errors::{error_text, read_fault_text};
pub use generated::{Drawn, generated_text};
pub use help::{help_text, topic_text};
pub use limits::limit_text;
pub use plan::plan_text;
pub use run::{jumps_text, run_text, slipped_text};
pub use slips::slips_text;
pub use transform::transform_text;
pub use usage::usage_text;
pub use world::{shared_text, world_text};
