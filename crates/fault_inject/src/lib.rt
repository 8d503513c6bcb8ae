//! Bugs and strikes in runs: they change registers and words of a machine while it runs. It also
//! finds closed registers, and indirect jumps that lead astray.
#![tactic(auto)]

mod places;
mod progress;
mod runs;
mod slips;
mod trace;
mod watch;

pub use places::closed;
pub use progress::{Progress, Silent};
pub use runs::run_changed;
pub use slips::{SlipFound, SlipVerdict, Slipped, run_slipped};
pub use trace::Trace;
pub use watch::run_watched;
