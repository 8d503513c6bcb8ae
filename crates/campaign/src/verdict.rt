//! What a strike shows, when both machines stand at the step from which its changes are counted.
ghost use Rattle.std.specs.Prelude.{◌≡◌, IfOk, MatchOption, Ok};
ghost use Rattle.machine.specs.Step.{State, run};
ghost use Rattle.qed_model.specs.Promise.Changed.{Ordered, last_step as last_step_of};
ghost use Rattle.campaign.specs.Verdict.{has_closed as has_closed_of, IsTried, Shows};
ghost use Rattle.fault_inject.specs.Touched.{IsTrace};
ghost use Rattle.campaign.specs.Found.{verdict_of, Stops, TellsStop, IsStill, IsSilentAt, ShowsUnchanged};
ghost use Rattle.campaign.specs.Later.{one_word as one_word_of, IsChangedAt};

use crate::spared::one_word;
use crate::strike::Strike;
use fault_inject::{Silent, closed, run_changed};
use qed_model::{Change, Outcome, Verdict};
use rv_step::Machine;
use std::alloc::AllocError;

/// The step of the last change; 0 if there is none.
pub fn last_step(changes: &[Change]) -> u64
    ensures { result ≡ last_step_of changes.now }
{
    let mut last = 0;
    for change in changes {
        last = change.step;
    }
    last
}

/// The verdict of a machine that stopped `steps` steps after the last change; None if it trapped.
fn stopped_verdict(outcome: Outcome, steps: u64) -> Option<Verdict>
    ensures { result ≡ verdict_of outcome steps }
{
    match outcome {
        Outcome::Fired => Some(Verdict::Fired(steps)),
        Outcome::Ended => Some(Verdict::Ended(steps)),
        _ => None,
    }
}

impl<'a> Strike<'a> {
    /// Brings a machine of the run without changes from `start` to the last change. Returns whether
    /// a place is closed when it would be changed.
    fn has_closed(&self, machine: &mut Machine) -> Result<bool, AllocError>
        requires there { machine.old.state ≡ run self.now.way.now.start self.now.start }
        requires ordered { Ordered self.now.changes.now }
        ensures closed { IfOk result (λ closed. closed ≡ has_closed_of machine.old.state self.now.changes.now) }
        ensures there { IfOk result (λ _. machine.new.state ≡ run machine.old.state (last_step_of self.now.changes.now)) }
    {
        let mut steps = 0;
        let mut is_closed = false;
        for change in self.changes {
            self.bring(machine, steps, change.step)?;
            steps = change.step;
            is_closed |= closed(machine, &change.place);
        }
        Ok(is_closed)
    }

    /// The verdict that needs no change: the machine stops before the last one, or a place is
    /// closed. None if neither holds.
    fn shown_by(&self, machine: &mut Machine) -> Result<Option<Verdict>, AllocError>
        requires there { machine.old.state ≡ run self.now.way.now.start self.now.start }
        requires ordered { Ordered self.now.changes.now }
        ensures shown { IfOk result (λ v.
            MatchOption v (IsTried machine.old.state self.now.changes.now) (ShowsUnchanged machine.old.state self.now.changes.now)) }
        ensures there { IfOk result (λ _. machine.new.state ≡ run machine.old.state (last_step_of self.now.changes.now)) }
    {
        let is_closed = self.has_closed(machine)?;
        if machine.outcome() != Outcome::Going {
            return Ok(Some(Verdict::NotReached));
        }
        if is_closed {
            return Ok(Some(Verdict::Closed));
        }
        Ok(None)
    }

    /// As `shown_by`; `output` stays, and is copied if steps must be made.
    fn unchanged_verdict(&self, output: &mut Machine) -> Result<Option<Verdict>, AllocError>
        requires there { output.old.state ≡ run self.now.way.now.start self.now.start }
        requires ordered { Ordered self.now.changes.now }
        ensures shown { IfOk result (λ v.
            MatchOption v (IsTried output.old.state self.now.changes.now) (ShowsUnchanged output.old.state self.now.changes.now)) }
        ensures same { IfOk result (λ _. output.new.state ≡ output.old.state) }
    {
        if last_step(self.changes) == 0 {
            let verdict = self.shown_by(output)?;
            return Ok(verdict);
        }
        let mut copy = output.copy(self.alloc)?;
        let verdict = self.shown_by(&mut copy)?;
        Ok(verdict)
    }

    /// As `steps_to_stop`, up to the bound, of a machine that has made its changes.
    fn steps_behind(&self, machine: &mut Machine) -> Result<Option<u64>, AllocError>
        requires trace { IsTrace self.now.way.now.start self.now.trace.now }
        requires there { IsChangedAt (run self.now.way.now.start self.now.start) (one_word_of self.now.changes.now) machine.old.state }
        ensures { IfOk result (TellsStop machine.old.state self.now.bound machine.new.state) }
    {
        match one_word(self.changes) {
            Some((address, value)) => self.steps_spared(machine, address, value),
            None => self.steps_beside(machine, 0),
        }
    }

    /// The verdict of a machine that has made its changes; None if it neither fires nor ends in the bound.
    fn later_verdict(&self, machine: &mut Machine) -> Result<Option<Verdict>, AllocError>
        requires trace { IsTrace self.now.way.now.start self.now.trace.now }
        requires there { IsChangedAt (run self.now.way.now.start self.now.start) (one_word_of self.now.changes.now) machine.old.state }
        ensures { IfOk result (λ v. MatchOption v (IsStill machine.old.state self.now.bound) (Stops machine.old.state self.now.bound)) }
    {
        let Some(steps) = self.steps_behind(machine)? else {
            return Ok(None);
        };
        Ok(stopped_verdict(machine.outcome(), steps))
    }

    /// What the changes show of an output that stands at `start`; None if no check fires and the
    /// test does not end. The steps of the changes do not fall.
    pub fn verdict(&self, output: Machine) -> Result<Option<Verdict>, AllocError>
        requires trace { IsTrace self.now.way.now.start self.now.trace.now }
        requires there { output.state ≡ run self.now.way.now.start self.now.start }
        requires ordered { Ordered self.now.changes.now }
        ensures { IfOk result (λ v. MatchOption v (IsSilentAt output.state self.now.bound self.now.changes.now) (λ v.
            (input : State) → Shows input output.state self.now.bound self.now.changes.now (Ok v))) }
    {
        let mut output = output;
        if let Some(verdict) = self.unchanged_verdict(&mut output)? {
            return Ok(Some(verdict));
        }
        let last = last_step(self.changes);
        run_changed(&mut output, self.changes, last, &mut Silent::new())?;
        let verdict = self.later_verdict(&mut output)?;
        Ok(verdict)
    }
}
