//! The mirror part of an instruction, of its own kind, or of other kinds if there are such words.
ghost use Rattle.weave_core.specs.Blocks.{FitsPiece};

use crate::rows::put_diverse;
use eddi_dup::put_mirrored;
use passes::{Emit, Pass};
use rv_isa::Ins;
use std::alloc::AllocError;

/// The instruction on the pairs; if `diverse` is set, by words of other kinds if it has any.
#[derive(Clone, Copy, Drop)]
pub struct Mirror {
    pub diverse: bool,
}

impl Pass for Mirror {
    ghost use Rattle.std.specs.Prelude.{[]};
    ghost use Rattle.machine.specs.Step.{step};
    ghost use Rattle.qed_model.specs.Weave.Forms.{mirror_of};
    ghost use Rattle.passes.specs.Pass.{Does, same_state};
    ghost use Rattle.eddi_dup.specs.Parts.{StandsBefore};
    ghost use Rattle.mirror_forms.specs.Laws.{any, mirror_cost, quiet_mirror, honest_mirror, lockstep_mirror};

    ghost is_for = { λ p i at. FitsPiece i };

    ghost suits = { λ p. any };

    ghost items = { λ p i at. mirror_of p.diverse i at };

    ghost uses = { λ p i. [] };

    ghost cost = { λ p i. mirror_cost p.diverse i };

    ghost needs = { λ p i at w v. StandsBefore w i at v.shadow };

    ghost gives = { λ p i at w. Does w same_state step 0 };

    ghost leaves = { λ p i at w v n z. ⊥ };

    fn emit(&self, ins: &Ins, at: u64, out: &mut Emit) -> Result<(), AllocError> {
        if self.diverse {
            put_diverse(ins, at, out)
        } else {
            put_mirrored(ins, at, out)
        }
    }

    ghost quiet = { λ p i at f. quiet_mirror p.diverse i at f };

    ghost honest = { λ p i at f. honest_mirror p.diverse i at f };

    ghost lockstep = { λ p i at f. lockstep_mirror p.diverse i at f };
}
