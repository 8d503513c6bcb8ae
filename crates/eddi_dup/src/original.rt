//! The original part of an instruction.
ghost use Rattle.std.specs.Prelude.{◌≡◌};

use passes::{Emit, Pass, target};
use qed_model::Item;
use rv_isa::{Ins, Kind};
use std::alloc::AllocError;

/// The instruction itself; for AUIPC its value. What it uses must be compared before.
#[derive(Clone, Copy, Drop)]
pub struct Original;

impl Pass for Original {
    ghost use Rattle.weave_core.specs.Blocks.{FitsPiece};
    ghost use Rattle.machine.specs.Step.{step};
    ghost use Rattle.passes.specs.Pass.{Does, same_state};
    ghost use Rattle.passes.specs.Uses.{used};
    ghost use Rattle.eddi_dup.specs.Parts.{unguarded, bare_cost, StandsBefore};
    ghost use Rattle.eddi_dup.specs.Laws.{any, quiet_original, honest_original, lockstep_original};

    ghost is_for = { λ p i at. FitsPiece i };

    ghost suits = { λ p. any };

    ghost items = { λ p i at. unguarded i at };

    ghost uses = { λ p i. used i };

    ghost cost = { λ p i. bare_cost i };

    ghost needs = { λ p i at w v. StandsBefore w i at v.original };

    ghost gives = { λ p i at w. Does w step same_state 1 };

    ghost leaves = { λ p i at w v n z. ⊥ };

    fn emit(&self, ins: &Ins, at: u64, out: &mut Emit) -> Result<(), AllocError> {
        let item = match ins.kind {
            Kind::Auipc => Item::Constant(ins.rd, target(ins, at)),
            _ => Item::Plain(*ins),
        };
        out.push(item)
    }

    ghost quiet = { λ p i at f. quiet_original i at f };

    ghost honest = { λ p i at f. honest_original i at f };

    ghost lockstep = { λ p i at f. lockstep_original i at f };
}
