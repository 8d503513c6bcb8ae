//! The bounds. Sums use 128 bits. Each part is tested when it is added: no part exceeds its bound.
ghost use Rattle.std.specs.Prelude.{◌≡◌, ◌+◌, ◌-◌, ◌*◌, ◌/◌, ◌≤◌, ◌<◌, ◌^◌};
ghost use Rattle.std.specs.Option.{SomeIff};
ghost use Rattle.qed_model.specs.Weave.Bounds.{visit_bound, end_bound, start_steps, longest_piece, bounds_of};
ghost use Rattle.bound_calc.specs.Fitting.{fitting, AreSmall};

use qed_model::steps::instruction_steps;
use qed_model::{Bounds, Shape};

/// A number, if it is below 2^64.
pub(crate) fn fitting(number: u128) -> Option<u64>
    ensures { result ≡ fitting number }
{
    u64::try_from(number).ok()
}

/// The steps of the visit of one data word, with `words` data words in `ranges` data ranges.
fn visit(words: u64, ranges: u64) -> Option<u64>
    ensures { result ≡ fitting (visit_bound words ranges) }
{
    if words == 0 {
        Some(10)
    } else {
        fitting(7 + 3 * u128::from(ranges))
    }
}

/// The steps of a visit of `round` data words.
pub(crate) fn round(shape: &Shape) -> Option<u64>
    requires { 1 ≤ shape.now.round }
    ensures { result ≡ fitting (visit_bound shape.now.words shape.now.ranges * shape.now.round) }
{
    let visit = visit(shape.words, shape.ranges)?;
    fitting(u128::from(visit) * u128::from(shape.round))
}

/// The steps of the longest piece, with its entry and its leave.
fn piece(shape: &Shape) -> Option<u64>
    requires { 1 ≤ shape.now.round }
    ensures { result ≡ fitting (longest_piece shape.now) }
{
    let cost = u128::from(instruction_steps(shape.diverse));
    let round = round(shape)?;
    fitting(30 + cost * u128::from(shape.inst_max) + u128::from(round))
}

/// The steps before the end.
pub(crate) fn end(shape: &Shape) -> u128
    ensures value { result ≡ end_bound shape.now.sweep shape.now.ranges shape.now.words }
    ensures low { result < 2 ^ 68 }
{
    if shape.sweep {
        2 * u128::from(shape.ranges) + 8 * u128::from(shape.words) + 14
    } else {
        0
    }
}

/// The steps before the first entry, and those before the end.
fn start(shape: &Shape) -> Option<u64>
    ensures { result ≡ fitting (start_steps shape.now) }
{
    let first: u128 = if shape.far { 33 } else { 32 };
    fitting(first + end(shape))
}

/// In how many pieces all data words are visited, and two more.
fn pieces(words: u64, round: u64) -> u128
    requires { 1 ≤ round }
    ensures value { result ≡ (words + round - 1) / round + 2 }
    ensures low { result ≤ 2 ^ 64 + 1 }
{
    (u128::from(words) + u128::from(round) - 1) / u128::from(round) + 2
}

/// Bounds with these numbers, without any for early changes.
pub(crate) fn bounds_from(most: u64, changed: u64, visited: Option<u64>, first: u64) -> Bounds
    ensures { result ≡ record { piece = most; register = changed; word = visited; start = first; early_register = None; early_word = None } }
{
    Bounds {
        piece: most,
        register: changed,
        word: visited,
        start: first,
        early_register: None,
        early_word: None,
    }
}

/// The bounds of an output, in steps. None exactly if one of them is 2^64 or above.
pub fn bounds(shape: &Shape) -> Option<Bounds>
    requires { 1 ≤ shape.now.round }
    ensures { SomeIff result (AreSmall (bounds_of shape.now)) (bounds_of shape.now) }
{
    let piece = piece(shape)?;
    let start = start(shape)?;
    let register = fitting(u128::from(start) + 2 * u128::from(piece))?;
    if shape.words == 0 {
        return Some(bounds_from(piece, register, None, start));
    }
    let pieces = fitting(pieces(shape.words, shape.round))?;
    let word = fitting(u128::from(start) + u128::from(pieces) * u128::from(piece))?;
    Some(bounds_from(piece, register, Some(word), start))
}
