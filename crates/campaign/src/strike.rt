//! A strike of a run that is kept.
ghost use Rattle.std.specs.Prelude.{◌≡◌, ◌+◌, ◌-◌, ◌≤◌, IfOk};
ghost use Rattle.machine.specs.Step.{run};

use crate::snapshots::{SPACING, Snapshots};
use fault_inject::Trace;
use qed_model::Change;
use rv_step::Machine;
use std::alloc::{AllocError, Global};

/// Changes of a run with copies.
#[derive(Clone, Copy)]
pub struct Strike<'a> {
    pub alloc: Global,
    /// The run without changes, with its copies.
    pub way: &'a Snapshots,
    /// What that run touches.
    pub trace: &'a Trace,
    /// The step of that run from which the changes count theirs.
    pub start: u64,
    pub changes: &'a [Change],
    /// The most steps of the changed run behind the last change.
    pub bound: u64,
}

impl<'a> Strike<'a> {
    /// Brings a machine of the run without changes from `start + from` to `start + to`.
    pub fn bring(&self, machine: &mut Machine, from: u64, to: u64) -> Result<(), AllocError>
        requires there { machine.old.state ≡ run self.now.way.now.start (self.now.start + from) }
        requires order { from ≤ to }
        ensures { IfOk result (λ _. machine.new.state ≡ run machine.old.state (to - from)) }
    {
        if to - from > SPACING && self.start <= u64::MAX - to {
            *machine = self.way.machine_at(self.alloc, self.start + to)?;
            return Ok(());
        }
        machine.run(to - from)?;
        Ok(())
    }
}
