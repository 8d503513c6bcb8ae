//! A run that is watched for a trap.
ghost use Rattle.std.specs.Prelude.{◌≡◌, ◌+◌, IfOk, IfSome, IfNone};
ghost use Rattle.machine.specs.declared.outcome.Outcome.TheVariants as outcome;
ghost use Rattle.machine.specs.Step.{run};
ghost use Rattle.campaign.specs.Found.{trap_pc_of};

use qed_model::Outcome;
use rv_step::Machine;
use std::alloc::{AllocError, Global};
use std::marker::Model;

/// A machine at its start, and as it stands `steps` steps later; it went on before each.
#[derive(Drop)]
pub struct Watched {
    start: Machine,
    later: Machine,
    steps: u64,
}

impl Model for Watched {
    ghost use Rattle.machine.specs.Step.{State};
    ghost use Rattle.rv_step.specs.Codes.{state_code};
    ghost use Rattle.campaign.specs.Found.{IsOn};

    ghost Value = { State };

    ghost coded = { state_code };

    ghost view = { λ w. w.start.state };

    ghost invariant = { λ w. IsOn w.start.state w.steps w.later.state };
}

/// The pc of a trap.
fn trap_pc(outcome: Outcome) -> Option<u64>
    ensures { result ≡ trap_pc_of outcome }
{
    match outcome {
        Outcome::Trapped(_, pc) => Some(pc),
        _ => None,
    }
}

impl Watched {
    /// Watches a machine for `most` steps, or until it stops.
    pub fn watch(alloc: Global, start: Machine, most: u64) -> Result<Watched, AllocError>
        ensures { IfOk result (λ watched. watched ≡ start.state) }
    {
        let mut later = start.copy(alloc)?;
        let steps = later.run_made(most)?;
        Ok(Watched {
            start,
            later,
            steps,
        })
    }

    /// The pc where the machine traps within `last + bound` steps; None if it does not.
    pub fn trap(&self, alloc: Global, last: u64, bound: u64) -> Result<Option<u64>, AllocError>
        ensures { IfOk result (λ pc. pc ≡ trap_pc_of (run self.now (last + bound)).outcome) }
    {
        let outcome = self.later.outcome();
        if outcome == Outcome::Ended {
            return Ok(None);
        }
        match self.later(alloc, last, bound)? {
            Some(machine) => Ok(trap_pc(machine.outcome())),
            None => Ok(None),
        }
    }

    /// The machine after `last + more` steps; None if it goes on before and after them.
    pub fn later(&self, alloc: Global, last: u64, more: u64) -> Result<Option<Machine>, AllocError>
        ensures there { IfOk result (λ r. IfSome r (λ machine. machine.state ≡ run self.now (last + more))) }
        ensures going { IfOk result (λ r. IfNone r ((run self.now (last + more)).outcome ≡ outcome.Going)) }
    {
        if u128::from(last) + u128::from(more) < u128::from(self.steps) {
            return Ok(None);
        }
        let mut machine = self.later.copy(alloc)?;
        machine.run(last.saturating_sub(self.steps))?;
        machine.run(more - self.steps.saturating_sub(last))?;
        Ok(Some(machine))
    }

    /// The machine after `last + 1 + more` steps; None if it goes on before and after them.
    pub fn behind(&self, alloc: Global, last: u64, more: u64) -> Result<Option<Machine>, AllocError>
        ensures there { IfOk result (λ r. IfSome r (λ machine. machine.state ≡ run self.now (last + 1 + more))) }
        ensures going { IfOk result (λ r. IfNone r ((run self.now (last + 1 + more)).outcome ≡ outcome.Going)) }
    {
        if last < self.steps {
            let machine = self.later(alloc, last + 1, more)?;
            return Ok(machine);
        }
        let mut machine = self.later.copy(alloc)?;
        machine.run(last - self.steps)?;
        machine.run(1)?;
        machine.run(more)?;
        Ok(Some(machine))
    }
}
