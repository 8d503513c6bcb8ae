//! The check, one for all of the code.
ghost use Rattle.std.specs.Prelude.{◌≡◌, ◌^◌, ◌≤◌, ◌<◌, ◌++◌, OnOk};
ghost use Rattle.rv_isa.specs.declared.profile.TheConstants.{SIGNATURE};
ghost use Rattle.qed_model.specs.Weave.Sequences.{compare};
ghost use Rattle.qed_model.specs.Weave.Lean.{first_word as first_word_of, called, check_distance, begun, done, look_up, look_again};
ghost use Rattle.plc_rounds.specs.Spans.{spans_of};

use eddi_dup::CompareAll;
use flow_tracking::put_look_up;
use passes::{Emit, Pass, plain};
use qed_model::{Item, Range};
use rv_isa::profile::{CURSOR, DISTANCE, SIGNATURE, SPARE, TEMPORARY};
use rv_isa::{Ins, Kind, register};
use std::alloc::AllocError;

/// The address of the first data word, or where there is none the begin of the input.
pub(crate) fn first_word(base: u64, span: &[Range]) -> u64
    ensures { result ≡ first_word_of base (spans_of span.now) }
{
    if span.is_empty() { base } else { span[0].start }
}

/// Fires where the signature is not the address in x30.
pub(crate) fn put_called(out: &mut Emit) -> Result<(), AllocError>
    ensures { OnOk result (out.new ≡ out.old ++ called) }
{
    let zero = register(0);
    let (sign, address) = (register(SIGNATURE), register(TEMPORARY));
    out.put(&[
        plain(Kind::Beq, zero, sign, address, 8),
        plain(Kind::Ebreak, zero, zero, zero, 0),
    ])?;
    Ok(())
}

/// Fires where x14 is not the distance of the halves.
pub(crate) fn put_check_distance(distance: u64, out: &mut Emit) -> Result<(), AllocError>
    requires { distance < 2 ^ 63 }
    ensures { OnOk result (out.new ≡ out.old ++ check_distance distance) }
{
    let zero = register(0);
    let (half, right) = (register(DISTANCE), register(TEMPORARY));
    out.put(&[
        plain(Kind::Lui, right, zero, zero, distance.cast_signed()),
        plain(Kind::Beq, zero, half, right, 8),
        plain(Kind::Ebreak, zero, zero, zero, 0),
    ])?;
    Ok(())
}

/// Compares all registers.
pub(crate) fn put_compare(out: &mut Emit) -> Result<(), AllocError>
    ensures { OnOk result (out.new ≡ out.old ++ compare) }
{
    CompareAll.emit(&Ins::nop(), 0, out)?;
    Ok(())
}

/// Gives x15 the address of the next data word.
fn put_begun(first: u64, out: &mut Emit) -> Result<(), AllocError>
    ensures { OnOk result (out.new ≡ out.old ++ begun first) }
{
    let (cursor, address) = (register(CURSOR), register(TEMPORARY));
    out.put(&[
        plain(Kind::Srli, cursor, cursor, register(0), 12),
        Item::Constant(address, first),
        plain(Kind::Add, cursor, cursor, address, 0),
    ])?;
    Ok(())
}

/// Gives x15 the offset of the next data word again, and begins the count.
pub(crate) fn put_done(first: u64, every: u64, out: &mut Emit) -> Result<(), AllocError>
    requires { every ≤ 2047 }
    ensures { OnOk result (out.new ≡ out.old ++ done first every) }
{
    let zero = register(0);
    let (count, address) = (register(CURSOR), register(TEMPORARY));
    out.put(&[
        Item::Constant(address, first),
        plain(Kind::Sub, count, count, address, 0),
        plain(Kind::Slli, count, count, zero, 12),
        plain(Kind::Addi, count, count, zero, (2047 - every).cast_signed()),
    ])?;
    Ok(())
}

/// Looks up the entry of the signature once more, and goes there; fires if it is not the one in x30. x14 gets the
/// distance of the halves again.
pub(crate) fn put_look_again(distance: u64, out: &mut Emit) -> Result<(), AllocError>
    requires { distance < 2 ^ 63 }
    ensures { OnOk result (out.new ≡ out.old ++ look_again distance) }
{
    let (zero, half) = (register(0), register(DISTANCE));
    let (entry, place) = (register(TEMPORARY), register(SPARE));
    out.put(&[
        plain(Kind::Add, place, half, half, 0),
        plain(Kind::Add, place, place, register(SIGNATURE), 0),
        plain(Kind::Lw, half, place, zero, 0),
        plain(Kind::Add, place, place, half, 0),
        plain(Kind::Lui, half, zero, zero, distance.cast_signed()),
        plain(Kind::Beq, zero, entry, place, 8),
        plain(Kind::Ebreak, zero, zero, zero, 0),
        plain(Kind::Jalr, zero, entry, zero, 0),
    ])?;
    Ok(())
}

/// The check up to the visits, where the halves are so far apart, and the first data word stands at an address.
pub(crate) fn put_front(distance: u64, first: u64, out: &mut Emit) -> Result<(), AllocError>
    requires { distance < 2 ^ 63 }
    ensures { OnOk result (out.new ≡ out.old ++ (called ++ (check_distance distance ++ (compare ++ begun first)))) }
{
    put_called(out)?;
    put_check_distance(distance, out)?;
    put_compare(out)?;
    put_begun(first, out)?;
    Ok(())
}

/// The look-ups of the entry of the signature, and the way back to it.
pub(crate) fn put_look_ups(distance: u64, out: &mut Emit) -> Result<(), AllocError>
    requires { distance < 2 ^ 63 }
    ensures { OnOk result (out.new ≡ out.old ++ (look_up SIGNATURE ++ look_again distance)) }
{
    put_look_up(register(SIGNATURE), out)?;
    put_look_again(distance, out)
}
