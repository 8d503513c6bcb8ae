//! The words before the entries.
ghost use Rattle.std.specs.Prelude.{◌≡◌, ◌+◌, ◌^◌, ◌<◌, ◌≤◌, [], ◌∷◌, ◌++◌, OnOk, pos};
ghost use Rattle.rv_isa.specs.declared.profile.TheConstants.{DISTANCE};
ghost use Rattle.rv_isa.specs.declared.kind.Kind.TheVariants.{Lui};
ghost use Rattle.machine.specs.Table.{ins};
ghost use Rattle.qed_model.specs.Weave.Sequences.{cursor, go_on, prologue as prologue_of, zero_from};
ghost use Rattle.plc_rounds.specs.Spans.{spans_of};
ghost use Rattle.weave.specs.Form.{form};

use crate::Weaver;
use flow_tracking::Leave;
use passes::{Emit, Pass, plain};
use qed_model::{Item, Range};
use rv_isa::profile::{CURSOR, DISTANCE, ORIGINALS, PAIR_DISTANCE};
use rv_isa::{Ins, Kind, register};
use std::alloc::AllocError;

/// Appends what sets `count` registers from x`first` on to 0.
///
/// Errors: want of memory; what is appended then is left open.
pub fn put_zeros(first: u8, count: u8, out: &mut Emit) -> Result<(), AllocError>
    requires { first + count ≤ 32 }
    ensures { OnOk result (out.new ≡ out.old ++ zero_from first count) }
{
    let zero = register(0);
    for k in 0..count {
        out.push(plain(Kind::Addi, register(first + k), zero, zero, 0))?;
    }
    Ok(())
}

/// Sets x14 to the distance between the halves.
fn put_half(distance: u64, out: &mut Emit) -> Result<(), AllocError>
    requires { distance < 2 ^ 63 }
    ensures { OnOk result (out.new ≡ out.old ++ Item.Plain (ins Lui DISTANCE 0 0 (pos distance)) ∷ []) }
{
    let zero = register(0);
    let half = plain(
        Kind::Lui,
        register(DISTANCE),
        zero,
        zero,
        distance.cast_signed(),
    );
    out.push(half)?;
    Ok(())
}

/// Sets the cursor to the first data word, if there is one.
fn put_cursor(span: &[Range], out: &mut Emit) -> Result<(), AllocError>
    ensures { OnOk result (out.new ≡ out.old ++ cursor (spans_of span.now)) }
{
    if span.is_empty() {
        return Ok(());
    }
    out.push(Item::Constant(register(CURSOR), span[0].start))?;
    Ok(())
}

impl Weaver {
    /// Goes on to the entry of an input address, with its signature.
    pub(crate) fn go_on(&self, next: u64, out: &mut Emit) -> Result<(), AllocError>
        ensures { OnOk result (out.new ≡ out.old ++ go_on next) }
    {
        let leave = Leave {
            next,
            far: self.far,
        };
        leave.emit(&Ins::nop(), next, out)?;
        Ok(())
    }

    /// Appends what runs first: it sets all registers of both halves to 0, x14 to the distance between the
    /// halves, and the cursor to the first data word. Then the test begins at its entry.
    pub(crate) fn prologue(
        &self,
        distance: u64,
        entry: u64,
        out: &mut Emit,
    ) -> Result<(), AllocError>
        requires { distance < 2 ^ 63 }
        ensures { OnOk result (out.new ≡ out.old ++ prologue_of distance (form self.now).spans entry) }
    {
        put_zeros(1, ORIGINALS, out)?;
        put_zeros(PAIR_DISTANCE + 1, ORIGINALS, out)?;
        put_half(distance, out)?;
        put_cursor(self.pieces.second.second.pass.second.span.as_slice(), out)?;
        self.go_on(entry, out)?;
        Ok(())
    }
}
