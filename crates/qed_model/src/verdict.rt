//! What a strike shows: changes of an output's run, and what came of them.

use crate::Changes;

/// What came of a strike. Steps are counted from its last change.
#[derive(Clone, Copy, Debug, PartialEq, Eq)]
pub enum Verdict {
    /// A changed place was closed: a wrong value there may reach memory or a branch before any check.
    Closed,
    /// The output had stopped before the last change.
    NotReached,
    /// A check fired, this many steps after the last change.
    Fired(u64),
    /// The output ended, this many steps after the last change.
    Ended(u64),
    /// All original values were again those of the run without changes.
    Same,
}

/// A strike and what came of it.
#[derive(Debug, Drop)]
pub struct Struck {
    /// The changes, in the order of their steps.
    pub changes: Changes,
    pub verdict: Verdict,
}
