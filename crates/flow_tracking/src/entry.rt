//! The entry of a block.
ghost use Rattle.std.specs.Prelude.{◌≡◌, ◌++◌, OnOk, OnErr};
ghost use Rattle.qed_model.specs.Weave.Sequences.{check_sign};

use passes::{Emit, Pass, plain};
use qed_model::Item;
use rv_isa::profile::{SIGNATURE, TEMPORARY};
use rv_isa::{Ins, Kind, register};
use std::alloc::AllocError;

/// Begins the entry of the input address, and fires if the signature is another. It looks at no
/// instruction.
#[derive(Clone, Copy, Drop)]
pub struct Entry;

/// Appends what fires if the signature is not that of an input address.
///
/// Errors: want of memory, and then nothing is appended.
pub fn put_check_sign(at: u64, out: &mut Emit) -> Result<(), AllocError>
    ensures all { OnOk result (out.new ≡ out.old ++ check_sign at) }
    ensures none { OnErr result (out.new ≡ out.old) }
{
    let zero = register(0);
    let address = register(TEMPORARY);
    out.put(&[
        Item::Constant(address, at),
        plain(Kind::Beq, zero, register(SIGNATURE), address, 8),
        plain(Kind::Ebreak, zero, zero, zero, 0),
    ])?;
    Ok(())
}

impl Pass for Entry {
    ghost use Rattle.std.specs.Prelude.{[]};
    ghost use Rattle.qed_model.specs.Weave.Sequences.{enter};
    ghost use Rattle.passes.specs.Pass.{Does, same_state};
    ghost use Rattle.flow_tracking.specs.Leaving.{Enters};
    ghost use Rattle.flow_tracking.specs.Laws.{any, quiet_enter, honest_entry, lockstep_enter};

    ghost is_for = { λ p i at. Unit {0} };

    ghost suits = { λ p. any };

    ghost items = { λ p i at. enter at };

    ghost uses = { λ p i. [] };

    ghost cost = { λ p i. 3 };

    ghost needs = { λ p i at w. Enters w at };

    ghost gives = { λ p i at w. Does w same_state same_state 3 };

    ghost leaves = { λ p i at w v n z. ⊥ };

    #[tactic(auto, using(passes::specs::Emitted::part_none, passes::specs::Emitted::part_first, passes::specs::Emitted::part_second))]
    fn emit(&self, _ins: &Ins, at: u64, out: &mut Emit) -> Result<(), AllocError> {
        out.push(Item::Mark(at))?;
        put_check_sign(at, out)?;
        Ok(())
    }

    ghost quiet = { λ p i at f. quiet_enter at };

    ghost honest = { λ p i at f. honest_entry at };

    ghost lockstep = { λ p i at f. lockstep_enter at };
}
