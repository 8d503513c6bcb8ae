//! Runs with changes, and the indirect jumps in them that lead astray.
ghost use Rattle.std.specs.Prelude.{◌≡◌, ◌-◌, ◌%◌, ◌≤◌, IfOk};
ghost use Rattle.machine.specs.Progress.{advanced, progress as progress_of};
ghost use Rattle.qed_model.specs.Promise.Changed.{Ordered, changed_run};
ghost use Rattle.rv_step.specs.Known.{known_at};
ghost use Rattle.machine.specs.Sets.{has_address};
ghost use Rattle.fault_inject.specs.Astray.{is_jalr, astray_of, first_jump, first_astray};
ghost use Rattle.fault_inject.specs.Counted.{changed_steps};

use crate::progress::Progress;
use crate::runs::{is_going, make_change};
use qed_model::Change;
use rv_isa::Class;
use rv_step::Machine;
use std::alloc::AllocError;
use std::collections::BTreeSet;

/// How many watched steps a run makes between two reports.
const TOLD_STEPS: u64 = 1 << 20;

/// Whether the next instruction is a JALR.
fn is_next_jalr(machine: &Machine) -> bool
    ensures { result ≡ is_jalr (known_at machine.now.state machine.now.state.pc) }
{
    match machine.next() {
        Some(ins) => matches!(ins.class(), Class::JumpReg),
        None => false,
    }
}

/// Makes a step. Returns its jump, from where to where, if that leads astray.
#[tactic(auto, unfolding(crate::specs::Astray::is_astray, machine::specs::Progress::advanced))]
fn watched_step(
    machine: &mut Machine,
    reached: &BTreeSet<u64>,
) -> Result<Option<(u64, u64)>, AllocError>
    ensures step { IfOk result (λ _. machine.new ≡ advanced machine.old) }
    ensures astray { IfOk result (λ found. found ≡ astray_of (has_address reached.now) machine.old.state) }
{
    let jumps = is_next_jalr(machine);
    let at = machine.pc();
    machine.step()?;
    let to = machine.pc();
    if jumps && is_going(machine) && !reached.contains(&to) {
        return Ok(Some((at, to)));
    }
    Ok(None)
}

/// Reports `done` steps if `made`, those since the last change, is a multiple of `TOLD_STEPS`.
fn tell_at(progress: &mut dyn Progress, made: u64, done: u64)
    requires rises { told progress.old ≤ done }
    requires within { done ≤ all progress.old }
    ensures told { told progress.new ≤ done }
    ensures part { made % 1048576 ≡ 0 → told progress.new ≡ done }
    ensures all { all progress.new ≡ all progress.old }
{
    if made % TOLD_STEPS == 0 {
        progress.tell(done);
    }
}

/// Runs a machine from step `from` to step `to`, and reports its progress. Returns the first jump
/// that leads astray.
fn watch_on(
    machine: &mut Machine,
    from: u64,
    to: u64,
    reached: &BTreeSet<u64>,
    progress: &mut dyn Progress,
) -> Result<Option<(u64, u64)>, AllocError>
    requires order { from ≤ to }
    requires told { told progress.old ≡ from }
    requires within { to ≤ all progress.old }
    ensures told { IfOk result (λ _. told progress.new ≡ to) }
    ensures all { IfOk result (λ _. all progress.new ≡ all progress.old) }
    ensures run { IfOk result (λ _. machine.new ≡ progress_of machine.old (to - from)) }
    ensures astray { IfOk result (λ found. found ≡ first_jump (has_address reached.now) (λ k. (progress_of machine.old k).state) (to - from)) }
{
    let mut found = None;
    for made in 0..to - from {
        if !is_going(machine) {
            progress.tell(to);
            return Ok(found);
        }
        tell_at(progress, made, from + made);
        let jump = watched_step(machine, reached)?;
        found = found.or(jump);
    }
    progress.tell(to);
    Ok(found)
}

/// Runs the machine for n steps with changes, as `run_changed` does. Returns the first indirect
/// jump to an address outside the set: the address of the JALR, and its target.
///
/// A JALR that traps leads nowhere. The time is that of the steps made, each by itself, and of one look at
/// each change. An Err is want of memory for a page; how the machine stands then is left open.
pub fn run_watched(
    machine: &mut Machine,
    changes: &[Change],
    n: u64,
    reached: &BTreeSet<u64>,
    progress: &mut dyn Progress,
) -> Result<Option<(u64, u64)>, AllocError>
    requires { Ordered changes.now }
    ensures state { IfOk result (λ _. machine.new.state ≡ changed_run machine.old.state changes.now n) }
    ensures steps { IfOk result (λ _. machine.new.steps ≡ changed_steps machine.old changes.now n) }
    ensures astray { IfOk result (λ astray. astray ≡ first_astray (has_address reached.now) machine.old.state changes.now n) }
    ensures told { IfOk result (λ _. (told progress.new ≡ n) × (all progress.new ≡ n)) }
{
    progress.begin(n);
    let mut steps = 0;
    let mut found = None;
    for change in changes {
        if change.step > n {
            break;
        }
        let more = watch_on(machine, steps, change.step, reached, progress)?;
        found = found.or(more);
        steps = change.step;
        make_change(machine, change)?;
    }
    let more = watch_on(machine, steps, n, reached, progress)?;
    Ok(found.or(more))
}
