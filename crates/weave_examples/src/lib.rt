//! Example weaves, used by no program. `CompareOne` is a custom pass: it compares x10 with its pair behind the parts of
//! a piece, before the comparison of all registers. With its three laws the new code keeps the values and catches
//! changes. `joined_pieces` is a leaner weave. Neither needs another induction. `far_test_promised` is a test.
#![tactic(auto)]

ghost use Rattle.weave_examples.specs.Promise.{OneKept, OneCaught};
ghost use Rattle.weave_examples.specs.FarTest.{FarPromised};
ghost use Rattle.weave_examples.specs.Joined.{cut_runs, CutsRuns, JoinedKept, JoinedLanded, JoinedCaught, JoinedClean};

use passes::{Emit, Pass, put_guard};
use rv_isa::{Ins, register};
use std::alloc::AllocError;

/// Compares x10 with its pair. It looks at no instruction.
#[derive(Clone, Copy, Drop)]
pub struct CompareOne;

impl Pass for CompareOne {
    ghost use Rattle.std.specs.Prelude.{[], ◌≡◌};
    ghost use Rattle.qed_model.specs.Weave.Sequences.{guard};
    ghost use Rattle.passes.specs.Pass.{Does, same_state};
    ghost use Rattle.weave_examples.specs.Laws.{any, quiet_one, honest_one, lockstep_one};

    ghost is_for = { λ p i at. Unit {0} };

    ghost suits = { λ p. any };

    ghost items = { λ p i at. guard 10 };

    ghost uses = { λ p i. [] };

    ghost cost = { λ p i. 1 };

    ghost needs = { λ p i at w v. v.original ≡ v.shadow };

    ghost gives = { λ p i at w. Does w same_state same_state 0 };

    ghost leaves = { λ p i at w v n z. ⊥ };

    #[tactic(auto, using(passes::specs::Emitted::part_none))]
    fn emit(&self, _ins: &Ins, _at: u64, out: &mut Emit) -> Result<(), AllocError> {
        put_guard(out, register(10))
    }

    ghost quiet = { λ p i at f. quiet_one };

    ghost honest = { λ p i at f. honest_one };

    ghost lockstep = { λ p i at f. lockstep_one };
}

/// The new code with the pass keeps the values.
#[tactic(auto, using(crate::proofs::One::kept))]
pub fn one_kept()
    ensures { OneKept }
{}

/// Changes in the new code with the pass are caught within the bounds of its weave.
#[tactic(auto, using(crate::proofs::One::caught))]
pub fn one_caught()
    ensures { OneCaught }
{}

/// Several runs, each with its original and its mirror parts, make one piece with one comparison behind it.
/// All promises hold of this weave too, with its longer pieces' bounds. Any instructions can be cut so.
pub fn joined_pieces()
    ensures cut { CutsRuns }
    ensures kept { JoinedKept cut_runs }
    ensures landed { JoinedLanded cut_runs }
    ensures caught { JoinedCaught cut_runs }
    ensures clean { JoinedClean cut_runs }
{}

/// A known test with a JALR and its table, and two data ranges, one of them read only. It is woven in the far form,
/// with the sweep and mirror parts of other kinds. It meets all premises of the promises, with the numbers of the plan.
#[tactic(auto, using(crate::proofs::FarTest::far_promised))]
pub fn far_test_promised()
    ensures { FarPromised }
{}
