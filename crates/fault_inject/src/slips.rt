//! Runs in which one instruction goes wrong.
ghost use Rattle.std.specs.Prelude.{◌≡◌, ◌-◌, ◌≤◌, IfOk};
ghost use Rattle.qed_model.specs.Promise.Changed.{Ordered};
ghost use Rattle.rv_step.specs.Slipped.{slipped};
ghost use Rattle.fault_inject.specs.Slipped.{slipped_at, slipped_part, slipped_run, slipped_steps, what_part, what_slipped};

use crate::progress::Progress;
use crate::runs::{is_going, make_change, run_on};
use qed_model::Change;
use rv_step::{Machine, SlipAt};
use std::alloc::AllocError;

/// What became of a slip in a run.
#[derive(Clone, Copy, Debug, PartialEq, Eq)]
pub enum Slipped {
    /// The instruction at this pc went wrong.
    At(u64),
    /// The instruction at this pc has no such slip, so the run is as without it.
    NoSlip(u64),
    /// The run stopped before its step.
    NotReached,
}

/// What a slip shows. Steps are counted from behind it.
#[derive(Clone, Copy, Debug, PartialEq, Eq)]
pub enum SlipVerdict {
    /// The output had stopped before it.
    NotReached,
    /// A check fired, this many steps behind it.
    Fired(u64),
    /// A step trapped, this many steps behind it.
    Trapped(u64),
    /// The output ended, this many steps behind it.
    Ended(u64),
    /// The output goes on behind the bound.
    Going,
}

/// A slip of a campaign, and what it shows.
#[derive(Clone, Copy, Debug, PartialEq, Eq)]
pub struct SlipFound {
    pub at: SlipAt,
    pub verdict: SlipVerdict,
    /// Whether the output ended with the values that the input has at its end; None if that was not asked for.
    pub right: Option<bool>,
}

/// Makes the step of a slip. Returns what became of it.
fn slip_now(machine: &mut Machine, slip: &SlipAt) -> Result<Slipped, AllocError>
    ensures run { IfOk result (λ _. machine.new ≡ slipped slip.now.slip machine.old) }
    ensures slipped { IfOk result (λ what. what ≡ slipped_at slip.now machine.old.state) }
{
    let goes = is_going(machine);
    let pc = machine.pc();
    let can = machine.slip(&slip.slip)?;
    if !goes {
        return Ok(Slipped::NotReached);
    }
    if can {
        return Ok(Slipped::At(pc));
    }
    Ok(Slipped::NoSlip(pc))
}

/// Runs a machine from step `from` to step `to`, and lets the instruction of the slip go wrong if it is between them.
/// Returns what became of that slip, and None if it is not between them.
fn slip_on(
    machine: &mut Machine,
    from: u64,
    to: u64,
    slip: &SlipAt,
    progress: &mut dyn Progress,
) -> Result<Option<Slipped>, AllocError>
    requires order { from ≤ to }
    requires told { told progress.old ≡ from }
    requires within { to ≤ all progress.old }
    ensures told { IfOk result (λ _. told progress.new ≡ to) }
    ensures all { IfOk result (λ _. all progress.new ≡ all progress.old) }
    ensures run { IfOk result (λ _. machine.new ≡ slipped_part slip.now machine.old from (to - from)) }
    ensures slipped { IfOk result (λ what. what ≡ what_part slip.now machine.old from to) }
{
    let at = slip.step;
    if at < from || to <= at {
        run_on(machine, from, to, progress)?;
        return Ok(None);
    }
    run_on(machine, from, at, progress)?;
    let what = slip_now(machine, slip)?;
    let behind = at + 1;
    progress.tell(behind);
    run_on(machine, behind, to, progress)?;
    Ok(Some(what))
}

/// Runs the machine for n steps with changes, as `run_changed` does, and lets one instruction go wrong: the one of the
/// step behind `slip.step` steps, and behind the changes of that step. Returns what became of it.
///
/// An Err is want of memory; how the machine stands then is left open.
pub fn run_slipped(
    machine: &mut Machine,
    changes: &[Change],
    slip: &SlipAt,
    n: u64,
    progress: &mut dyn Progress,
) -> Result<Slipped, AllocError>
    requires { Ordered changes.now }
    ensures state { IfOk result (λ _. machine.new.state ≡ slipped_run machine.old.state changes.now slip.now n) }
    ensures steps { IfOk result (λ _. machine.new.steps ≡ slipped_steps machine.old changes.now slip.now n) }
    ensures slipped { IfOk result (λ what. what ≡ what_slipped machine.old.state changes.now slip.now n) }
    ensures told { IfOk result (λ _. (told progress.new ≡ n) × (all progress.new ≡ n)) }
{
    progress.begin(n);
    let mut steps = 0;
    let mut found = Slipped::NotReached;
    for change in changes {
        if change.step > n {
            break;
        }
        let more = slip_on(machine, steps, change.step, slip, progress)?;
        found = more.unwrap_or(found);
        steps = change.step;
        make_change(machine, change)?;
    }
    let more = slip_on(machine, steps, n, slip, progress)?;
    Ok(more.unwrap_or(found))
}
