//! The bounds of the lean form.
ghost use Rattle.std.specs.Prelude.{◌≡◌, ◌+◌, ◌*◌, ◌≤◌, ◌<◌, ◌^◌};
ghost use Rattle.std.specs.Option.{SomeIff};
ghost use Rattle.qed_model.specs.declared.steps.TheConstants.{LEAN_LEAVE_STEPS};
ghost use Rattle.qed_model.specs.Weave.LeanBounds.{cost_of, entry_steps as entry_steps_of, call_steps as call_steps_of, check_bound, period as period_of};
ghost use Rattle.qed_model.specs.Weave.LeanBounds.{lean_bounds_of};
ghost use Rattle.qed_model.specs.Weave.Pieces.{piece_count};
ghost use Rattle.bound_calc.specs.Fitting.{fitting, AreSmall};

use crate::steps::{bounds_from, end, fitting, round};
use qed_model::steps::{LEAN_LEAVE_STEPS, call_steps, entry_steps, lean_instruction_steps};
use qed_model::{Bounds, Shape};

/// The steps of the check.
fn check(shape: &Shape) -> Option<u64>
    requires { 1 ≤ shape.now.round }
    ensures { result ≡ fitting (check_bound shape.now.words shape.now.ranges shape.now.round) }
{
    let round = round(shape)?;
    fitting(36 + u128::from(round))
}

/// The steps of an entry that calls the check.
fn call(shape: &Shape) -> u128
    ensures value { result ≡ entry_steps_of shape.now.land + call_steps_of shape.now.land }
    ensures bound { result ≤ 9 }
{
    u128::from(entry_steps(shape.land) + call_steps(shape.land))
}

/// The steps of the longest piece, with a check before it and the leave.
fn piece(shape: &Shape, check: u64) -> Option<u64>
    ensures { result ≡ fitting (LEAN_LEAVE_STEPS + call_steps_of shape.now.land
        + 2 * entry_steps_of shape.now.land + check + cost_of shape.now.diverse * shape.now.inst_max) }
{
    let cost = u128::from(lean_instruction_steps(shape.diverse));
    let body = cost * u128::from(shape.inst_max);
    let entry = u128::from(entry_steps(shape.land)) + call(shape);
    fitting(u128::from(LEAN_LEAVE_STEPS) + entry + u128::from(check) + body)
}

/// The steps from check to check.
fn period(shape: &Shape, check: u64, every: u64) -> Option<u64>
    ensures { result ≡ fitting (period_of shape.now.land check every) }
{
    fitting(u128::from(check) + u128::from(every) + call(shape))
}

/// In how many checks all words are visited, and one more.
fn checks(words: u64, round: u64) -> u128
    requires some { 1 ≤ words }
    requires visits { 1 ≤ round }
    ensures value { result ≡ piece_count round words + 1 }
    ensures low { result ≤ 2 ^ 64 }
{
    (u128::from(words) + u128::from(round) - 1) / u128::from(round) + 1
}

/// The bounds of an output in the lean form, with a check every `every` steps, in steps. None
/// exactly if one of them is 2^64 or above.
pub fn lean_bounds(shape: &Shape, every: u64) -> Option<Bounds>
    requires { 1 ≤ shape.now.round }
    ensures { SomeIff result (AreSmall (lean_bounds_of shape.now every)) (lean_bounds_of shape.now every) }
{
    let check = check(shape)?;
    let piece = piece(shape, check)?;
    let start = fitting(31 + end(shape))?;
    let period = period(shape, check, every)?;
    let early = 53 + call(shape);
    let first = early + end(shape);
    let register = fitting(first + u128::from(period))?;
    let mut bounds = bounds_from(piece, register, None, start);
    bounds.early_register = Some(fitting(early + u128::from(period))?);
    if shape.words > 0 {
        let checks = fitting(checks(shape.words, shape.round))?;
        let visits = u128::from(checks) * u128::from(period);
        bounds.word = Some(fitting(first + visits)?);
        bounds.early_word = Some(fitting(early + visits)?);
    }
    Some(bounds)
}
