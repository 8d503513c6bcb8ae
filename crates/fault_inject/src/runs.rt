//! Runs with changes.
ghost use Rattle.std.specs.Prelude.{◌≡◌, ◌-◌, ◌≤◌, IfOk, IfErr};
ghost use Rattle.machine.specs.Progress.{progress as progress_of};
ghost use Rattle.qed_model.specs.Promise.Changed.{Ordered, changed, changed_run};
ghost use Rattle.fault_inject.specs.Counted.{changed_steps, IsPartOf};
ghost use Rattle.rv_step.specs.Known.{does_step, IsPart};

use crate::progress::Progress;
use qed_model::{Change, Outcome};
use rv_step::Machine;
use std::alloc::AllocError;

/// How many steps a run makes between two reports: in some 60 ms, so that its progress shows each
/// second. Starting a run takes no time beside them.
const TOLD_STEPS: u64 = 1 << 24;

/// Whether the machine has not stopped.
pub(crate) fn is_going(machine: &Machine) -> bool
    ensures { result ≡ does_step machine.now.state.outcome }
{
    matches!(machine.outcome(), Outcome::Going)
}

/// Makes a change, unless the machine has stopped. If no memory is left for a page, nothing changes.
pub(crate) fn make_change(machine: &mut Machine, change: &Change) -> Result<(), AllocError>
    ensures state { IfOk result (λ _. machine.new.state ≡ changed change.now machine.old.state) }
    ensures steps { IfOk result (λ _. machine.new.steps ≡ machine.old.steps) }
    ensures kept { IfErr result (λ _. machine.new ≡ machine.old) }
{
    if machine.outcome() == Outcome::Going {
        machine.strike(&change.place, change.value)?;
    }
    Ok(())
}

/// Runs a machine from step `made` to step `next`, and reports that.
fn run_part(
    machine: &mut Machine,
    made: u64,
    next: u64,
    progress: &mut dyn Progress,
) -> Result<Outcome, AllocError>
    requires order { made ≤ next }
    requires told { told progress.old ≡ made }
    requires within { next ≤ all progress.old }
    ensures told { IfOk result (λ _. told progress.new ≡ next) }
    ensures all { IfOk result (λ _. all progress.new ≡ all progress.old) }
    ensures run { IfOk result (λ _. machine.new ≡ progress_of machine.old (next - made)) }
    ensures outcome { IfOk result (λ o. o ≡ machine.new.state.outcome) }
    ensures part { IfErr result (λ _. IsPart machine.old (next - made) machine.new) }
{
    let outcome = machine.run(next - made)?;
    progress.tell(next);
    Ok(outcome)
}

/// Runs a machine from step `from` to step `to` in parts, and reports each part.
pub(crate) fn run_on(
    machine: &mut Machine,
    from: u64,
    to: u64,
    progress: &mut dyn Progress,
) -> Result<Outcome, AllocError>
    requires order { from ≤ to }
    requires told { told progress.old ≡ from }
    requires within { to ≤ all progress.old }
    ensures told { IfOk result (λ _. told progress.new ≡ to) }
    ensures all { IfOk result (λ _. all progress.new ≡ all progress.old) }
    ensures run { IfOk result (λ _. machine.new ≡ progress_of machine.old (to - from)) }
    ensures outcome { IfOk result (λ o. o ≡ machine.new.state.outcome) }
    ensures part { IfErr result (λ _. IsPart machine.old (to - from) machine.new) }
{
    for parts in 0..(to - from) / TOLD_STEPS {
        let made = from + TOLD_STEPS * parts;
        let outcome = run_part(machine, made, made + TOLD_STEPS, progress)?;
        if !is_going(machine) {
            progress.tell(to);
            return Ok(outcome);
        }
    }
    let outcome = run_part(machine, to - (to - from) % TOLD_STEPS, to, progress)?;
    Ok(outcome)
}

/// Runs the machine for n steps with changes. Returns how it stands then, and reports its progress.
///
/// The steps of the changes count from the call, and do not fall. A change at step k is made after k steps, before the
/// next one; changes of one step in the order of the list. Changes behind the n-th step are not made, and a stopped
/// machine is neither stepped nor changed. The time is that of the steps made and of one look at each change.
///
/// If no memory is left for a page, the machine stands as the steps and changes so far have left it.
pub fn run_changed(
    machine: &mut Machine,
    changes: &[Change],
    n: u64,
    progress: &mut dyn Progress,
) -> Result<Outcome, AllocError>
    requires { Ordered changes.now }
    ensures state { IfOk result (λ _. machine.new.state ≡ changed_run machine.old.state changes.now n) }
    ensures steps { IfOk result (λ _. machine.new.steps ≡ changed_steps machine.old changes.now n) }
    ensures outcome { IfOk result (λ o. o ≡ machine.new.state.outcome) }
    ensures part { IfErr result (λ _. IsPartOf machine.old changes.now n machine.new) }
    ensures told { IfOk result (λ _. (told progress.new ≡ n) × (all progress.new ≡ n)) }
{
    progress.begin(n);
    let mut steps = 0;
    for change in changes {
        if change.step > n {
            break;
        }
        run_on(machine, steps, change.step, progress)?;
        steps = change.step;
        make_change(machine, change)?;
    }
    let outcome = run_on(machine, steps, n, progress)?;
    Ok(outcome)
}
