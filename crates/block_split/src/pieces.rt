//! The pieces of a body, by their lengths.
ghost use Rattle.std.specs.Prelude.{◌≡◌, ◌++◌, ◌≤◌, ◌<◌, ◌+◌, ◌*◌, ◌^◌, IfOk, OnOk, replicate};
ghost use Rattle.qed_model.specs.Weave.Pieces.{piece_count, run_lengths};
ghost use Rattle.block_split.specs.Lengths.{AreLengths};

use crate::runs::run_length;
use rv_isa::Ins;
use std::alloc::{AllocError, Global};

/// Adds a length `times` times.
fn push_times(lengths: &mut Vec<u64>, times: u64, length: u64) -> Result<(), AllocError>
    ensures { OnOk result (lengths.new.items ≡ lengths.old.items ++ replicate times length) }
{
    for _k in 0..times {
        lengths.push(length)?;
    }
    Ok(())
}

/// How many pieces of at most `max` instructions a run of `size` instructions has: the fewest, 1 to `size`.
#[tactic(auto, using(crate::proofs::PieceCounts::count_is, crate::proofs::PieceCounts::count_some, crate::proofs::PieceCounts::count_few))]
fn piece_count(size: u64, max: u64) -> u64
    requires some { 1 ≤ size }
    requires least { 1 ≤ max }
    ensures value { result ≡ piece_count max size }
    ensures least { 1 ≤ result }
    ensures most { result ≤ size }
{
    size.div_ceil(max)
}

/// Adds the lengths of the pieces of a run of `size` instructions.
fn push_lengths(lengths: &mut Vec<u64>, size: u64, max: u64) -> Result<(), AllocError>
    requires some { 1 ≤ size }
    requires fits { size + 1 < 2 ^ 64 }
    requires least { 1 ≤ max }
    ensures { OnOk result (lengths.new.items ≡ lengths.old.items ++ run_lengths max size) }
{
    let count = piece_count(size, max);
    push_times(lengths, size % count, size / count + 1)?;
    push_times(lengths, count - size % count, size / count)?;
    Ok(())
}

/// The lengths of the pieces of a body, in instructions; an empty body has one of 0. `min` changes no length.
/// It is the floor that `max` leaves room for: a piece is shorter than `min` only if its run is.
#[tactic(auto, using(std::proofs::lemmas::List::take_rest, crate::proofs::PieceLengths::made_lengths, crate::proofs::PieceLengths::empty_lengths, crate::proofs::PieceLengths::more_made, crate::proofs::PieceLengths::all_made, crate::proofs::PieceLengths::is_nil, crate::proofs::PieceLengths::is_some, crate::proofs::PieceLengths::within_body, crate::proofs::PieceLengths::rest_some, crate::proofs::PieceLengths::some_run, crate::proofs::PieceLengths::added))]
pub fn split(alloc: Global, body: &[Ins], min: u64, max: u64) -> Result<Vec<u64>, AllocError>
    requires least { 1 ≤ min }
    requires room { 2 * min ≤ max + 1 }
    ensures { IfOk result (λ lengths. AreLengths max body.now lengths.items) }
{
    let mut lengths = Vec::new(alloc);
    if body.is_empty() {
        lengths.push(0)?;
        return Ok(lengths);
    }
    let mut at = 0;
    while at < body.len() {
        let size = run_length(&body[at..]);
        push_lengths(&mut lengths, size as u64, max)?;
        at += size;
    }
    Ok(lengths)
}
