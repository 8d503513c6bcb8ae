//! What runs first, before the check.
ghost use Rattle.std.specs.Prelude.{◌≡◌, ◌^◌, ◌<◌, [], ◌∷◌, ◌++◌, OnOk, pos};
ghost use Rattle.rv_isa.specs.declared.profile.TheConstants.{DISTANCE, CURSOR, SIGNATURE};
ghost use Rattle.rv_isa.specs.declared.kind.Kind.TheVariants.{Addi, Lui};
ghost use Rattle.qed_model.specs.declared.item.Item.TheVariants.{Plain, Constant, Go};
ghost use Rattle.machine.specs.Table.{ins};
ghost use Rattle.qed_model.specs.Weave.Lean.{begin};

use passes::{Emit, plain};
use qed_model::Item;
use rv_isa::profile::{CURSOR, DISTANCE, ORIGINALS, PAIR_DISTANCE, SIGNATURE};
use rv_isa::{Kind, register};
use std::alloc::AllocError;
use weave::put_zeros;

/// The bytes of what runs before the check.
pub(crate) const BEGIN_BYTES: u64 = 124;

/// Sets the halves' distance, the signature of the test's entry and a count that the first tick takes past 2047; jumps.
fn put_start(distance: u64, entry: u64, out: &mut Emit) -> Result<(), AllocError>
    requires { distance < 2 ^ 63 }
    ensures { OnOk result (out.new ≡ out.old ++ Plain (ins Lui DISTANCE 0 0 (pos distance)) ∷ Constant SIGNATURE entry
        ∷ Plain (ins Addi CURSOR 0 0 (pos 2047)) ∷ Go entry ∷ []) }
{
    let zero = register(0);
    out.put(&[
        plain(
            Kind::Lui,
            register(DISTANCE),
            zero,
            zero,
            distance.cast_signed(),
        ),
        Item::Constant(register(SIGNATURE), entry),
        plain(Kind::Addi, register(CURSOR), zero, zero, 2047),
        Item::Go(entry),
    ])?;
    Ok(())
}

/// All registers of both halves are 0, x14 is the distance of the halves, and the test begins at its entry, with the
/// first data word and a count of 2047.
pub(crate) fn put_begin(distance: u64, entry: u64, out: &mut Emit) -> Result<(), AllocError>
    requires { distance < 2 ^ 63 }
    ensures { OnOk result (out.new ≡ out.old ++ begin distance entry) }
{
    put_zeros(1, ORIGINALS, out)?;
    put_zeros(PAIR_DISTANCE + 1, ORIGINALS, out)?;
    put_start(distance, entry, out)?;
    Ok(())
}
