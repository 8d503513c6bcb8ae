//! The signature, and how it turns from one block to another.
ghost use Rattle.std.specs.Prelude.{◌≡◌, ◌*◌, ◌^◌, ◌-◌, ◌≤◌, ◌++◌, false, OnOk, pos, ◌≤ℤ◌};
ghost use Rattle.machine.specs.Offsets.{distance_between as distance_of};
ghost use Rattle.qed_model.specs.Weave.Placed.{sum_of_sizes};
ghost use Rattle.qed_model.specs.Weave.Lean.{is_short as is_short_of, turn_by, turn, goes, cost};

use passes::{Emit, plain};
use qed_model::Item;
use relinker::{distance_between, upper_part};
use rv_isa::profile::{SIGNATURE, TEMPORARY};
use rv_isa::{Kind, register};
use std::alloc::AllocError;

/// Whether one immediate has a distance.
fn is_short(distance: i64) -> bool
    ensures { result ≡ is_short_of distance }
{
    distance.cast_unsigned().wrapping_add(2048) < 4096
}

/// Adds a distance to the signature.
fn put_turn_by(distance: i64, out: &mut Emit) -> Result<(), AllocError>
    requires { distance ≤ℤ pos (2 ^ 63 - 2049) }
    ensures { OnOk result (out.new ≡ out.old ++ turn_by distance) }
{
    let zero = register(0);
    let sign = register(SIGNATURE);
    if is_short(distance) {
        out.put(&[plain(Kind::Addi, sign, sign, zero, distance)])?;
        return Ok(());
    }
    let turn = register(TEMPORARY);
    let upper = upper_part(distance);
    out.put(&[
        plain(Kind::Lui, turn, zero, zero, upper),
        plain(Kind::Addi, turn, turn, zero, distance - upper),
        plain(Kind::Add, sign, sign, turn, 0),
    ])?;
    Ok(())
}

/// Turns the signature from one input address to another.
pub(crate) fn put_turn(from: u64, to: u64, out: &mut Emit) -> Result<(), AllocError>
    requires { distance_of from to ≤ℤ pos (2 ^ 63 - 2049) }
    ensures { OnOk result (out.new ≡ out.old ++ turn from to) }
{
    if from == to {
        return Ok(());
    }
    put_turn_by(distance_between(from, to), out)
}

/// Goes to the entry of another input address.
pub(crate) fn put_goes(from: u64, to: u64, out: &mut Emit) -> Result<(), AllocError>
    requires { distance_of from to ≤ℤ pos (2 ^ 63 - 2049) }
    ensures { OnOk result (out.new ≡ out.old ++ goes from to) }
{
    put_turn(from, to, out)?;
    out.push(Item::Go(to))?;
    Ok(())
}

/// The steps of a turn, of 4 bytes each.
pub(crate) fn turn_steps(from: u64, to: u64) -> u64
    ensures value { result ≡ cost (turn from to) }
    ensures size { 4 * result ≡ sum_of_sizes false (turn from to) }
    ensures bound { result ≤ 3 }
{
    if from == to {
        0
    } else if is_short(distance_between(from, to)) {
        1
    } else {
        3
    }
}

/// The bytes of a turn with the jump behind it.
pub(crate) fn goes_size(from: u64, to: u64) -> u64
    ensures value { result ≡ sum_of_sizes false (goes from to) }
    ensures bound { result ≤ 16 }
{
    4 * turn_steps(from, to) + 4
}
