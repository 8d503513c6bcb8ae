//! Guards before a pass.
ghost use Rattle.std.specs.Prelude.{◌≡◌, ◌++◌, OnOk, OnErr};
ghost use Rattle.qed_model.specs.Weave.Sequences.{guards as guards_of};
ghost use Rattle.passes.specs.Emitted.{AppendsPart};
ghost use Rattle.passes.specs.Pass.{AllLow};
ghost use Rattle.passes.specs.Uses.{used as used_of};

use passes::{Emit, Pass, put_guards};
use rv_isa::{Class, Ins};
use std::alloc::AllocError;

/// Compares the base of an access and a stored register with their pairs, then does what the pass
/// emits.
#[derive(Clone, Copy, Drop)]
pub struct Guarded<A> {
    pub pass: A,
}

/// Appends the guards of an instruction.
///
/// Errors: want of memory; then a first part is appended.
fn put_guards_of(ins: &Ins, out: &mut Emit) -> Result<(), AllocError>
    requires { AllLow (used_of ins.now) }
    ensures all { OnOk result (out.new ≡ out.old ++ guards_of (used_of ins.now)) }
    ensures part { OnErr result (AppendsPart out.old out.new (guards_of (used_of ins.now))) }
{
    match ins.class() {
        Class::Load => put_guards(out, &[ins.rs1]),
        Class::Store => {
            if ins.rs2 == ins.rs1 {
                put_guards(out, &[ins.rs1])
            } else {
                put_guards(out, &[ins.rs1, ins.rs2])
            }
        }
        _ => Ok(()),
    }
}

impl<A: Pass> Pass for Guarded<A> {
    ghost use Rattle.std.specs.Prelude.{◌≡◌, ◌+◌, ◌++◌, ◌⊎◌, [], length};
    ghost use Rattle.qed_model.specs.Weave.Sequences.{guards};
    ghost use Rattle.passes.specs.Pass.{Chain, NeedsBoth, Does, same_state, AllLow, AllSame};
    ghost use Rattle.passes.specs.Uses.{used};
    ghost use Rattle.guard_insert.specs.Laws.{quiet_guarded, honest_guarded, lockstep_guarded};

    ghost is_for = { λ g i at. A.is_for g.pass i at × AllLow (used i) × (A.uses g.pass i ≡ used i) };

    ghost suits = { λ g. A.suits g.pass };

    ghost items = { λ g i at. guards (used i) ++ A.items g.pass i at };

    ghost uses = { λ g i. [] };

    ghost cost = { λ g i. length (used i) + A.cost g.pass i };

    ghost needs = { λ g i at w. NeedsBoth (λ v. AllSame (used i) v.original v.shadow) (Does w same_state same_state 0) (A.needs g.pass i at w) };

    ghost gives = { λ g i at w v. Chain v (length (used i)) (Does w same_state same_state 0 v) (A.gives g.pass i at w) };

    ghost leaves = { λ g i at w v. Chain v (length (used i)) (Does w same_state same_state 0 v) (A.leaves g.pass i at w) };

    #[tactic(auto, using(passes::specs::Emitted::part_first, passes::specs::Emitted::part_second))]
    fn emit(&self, ins: &Ins, at: u64, out: &mut Emit) -> Result<(), AllocError> {
        put_guards_of(ins, out)?;
        self.pass.emit(ins, at, out)?;
        Ok(())
    }

    ghost quiet = { λ g i at h. quiet_guarded (A.suits g.pass) (used i) (A.items g.pass i at)
        (A.needs g.pass i at) (A.gives g.pass i at) (A.leaves g.pass i at) (A.cost g.pass i) h.1 (A.quiet g.pass i at h.0) };

    ghost honest = { λ g i at h. honest_guarded (A.suits g.pass) (used i) (A.items g.pass i at) h.1 (A.honest g.pass i at h.0) };

    ghost lockstep = { λ g i at h. lockstep_guarded (A.suits g.pass) (used i) (A.uses g.pass i) (A.items g.pass i at) h.2 h.1 (A.lockstep g.pass i at h.0) };
}
