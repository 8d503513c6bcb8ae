//! The entry of a block: its mark, and its tick.
ghost use Rattle.std.specs.Prelude.{◌≡◌, ◌^◌, ◌<◌, ◌≤◌, [], ◌∷◌, ◌++◌, OnOk, cond, pos};
ghost use Rattle.rv_isa.specs.declared.profile.TheConstants.{CURSOR, SPARE};
ghost use Rattle.qed_model.specs.Weave.Sequences.{check_sign, fired_check};
ghost use Rattle.machine.specs.Step.{ins, Addi, Slli, Bge, Jal};
ghost use Rattle.qed_model.specs.Weave.Lean.{named, tick, call_at as call_at_of};

use flow_tracking::put_check_sign;
use passes::{Emit, plain};
use qed_model::Item;
use rv_isa::profile::{CURSOR, SPARE, TEMPORARY};
use rv_isa::{Kind, register};
use std::alloc::AllocError;

/// How many bytes behind the entry its tick goes to the check, where entries test the signature or not.
pub(crate) fn call_at(land: bool) -> u64
    ensures value { result ≡ call_at_of land }
    ensures bound { result ≤ 28 }
{
    if land { 28 } else { 20 }
}

/// Counts `steps` steps, and goes past the rest of the tick if the count stays below 2048.
fn put_count(land: bool, steps: u64, out: &mut Emit) -> Result<(), AllocError>
    requires { steps < 2 ^ 63 }
    ensures { OnOk result (out.new ≡ out.old ++ Item.Plain (ins Addi CURSOR CURSOR 0 (pos steps))
        ∷ Item.Plain (ins Slli SPARE CURSOR 0 (pos 52)) ∷ Item.Plain (ins Bge 0 SPARE 0 (pos (cond land 12 20))) ∷ []) }
{
    let zero = register(0);
    let (count, sign) = (register(CURSOR), register(SPARE));
    let past = if land { 12 } else { 20 };
    out.put(&[
        plain(Kind::Addi, count, count, zero, steps.cast_signed()),
        plain(Kind::Slli, sign, count, zero, 52),
        plain(Kind::Bge, zero, sign, zero, past),
    ])?;
    Ok(())
}

/// Gives x30 the address of the block, where a test of the signature has not done so.
fn put_named(land: bool, at: u64, out: &mut Emit) -> Result<(), AllocError>
    ensures { OnOk result (out.new ≡ out.old ++ named land at) }
{
    if !land {
        out.push(Item::Constant(register(TEMPORARY), at))?;
    }
    Ok(())
}

/// Goes to the check, which stands at a distance.
fn put_call(distance: i64, out: &mut Emit) -> Result<(), AllocError>
    ensures { OnOk result (out.new ≡ out.old ++ Item.Plain (ins Jal 0 0 0 distance) ∷ fired_check ∷ []) }
{
    let zero = register(0);
    out.put(&[
        plain(Kind::Jal, zero, zero, zero, distance),
        plain(Kind::Ebreak, zero, zero, zero, 0),
    ])?;
    Ok(())
}

/// Counts `steps` steps at the entry of the block that begins at `at`, and goes to the check, at its distance from
/// there, if the count passes 2047.
pub(crate) fn put_tick(
    land: bool,
    at: u64,
    steps: u64,
    distance: i64,
    out: &mut Emit,
) -> Result<(), AllocError>
    requires { steps < 2 ^ 63 }
    ensures { OnOk result (out.new ≡ out.old ++ tick land at steps distance) }
{
    put_count(land, steps, out)?;
    put_named(land, at, out)?;
    put_call(distance, out)?;
    Ok(())
}

/// The mark of the block that begins at `at`, and with `land` a test of the signature.
pub(crate) fn put_mark(land: bool, at: u64, out: &mut Emit) -> Result<(), AllocError>
    ensures { OnOk result (out.new ≡ out.old ++ Item.Mark at ∷ cond land (check_sign at) []) }
{
    out.push(Item::Mark(at))?;
    if land {
        put_check_sign(at, out)?;
    }
    Ok(())
}
