//! The output file of a test, before it is written, and its plan.
#![tactic(auto)]

mod bytes;
mod halves;
mod laws;
mod output;
mod plans;
mod ranges;
mod sections;
mod segments;
mod symbols;
mod table;

pub use laws::entries_of_blocks;
pub use output::{Code, bare_file, with_symbols};
pub use plans::{plan, word_count};
pub use symbols::symbols_size;
pub use table::has_table;
