//! Passes and their compositions.
ghost use Rattle.std.specs.Prelude.{◌≡◌, ◌++◌, OnOk, OnErr};
ghost use Rattle.passes.specs.Emitted.{AppendsPart};

use crate::Emit;
use rv_isa::Ins;
use std::alloc::AllocError;

/// What is woven for one instruction of the input: items that the instruction and its input address
/// determine, with three laws.
pub trait Pass {
    ghost use Rattle.std.specs.Prelude.{ℕ, Bool, List};
    ghost use Rattle.rv_isa.specs.declared.ins.Ins.{Ins};
    ghost use Rattle.qed_model.specs.declared.item.Item.{Item};
    ghost use Rattle.weave_core.specs.World.{World};
    ghost use Rattle.passes.specs.Pass.{Views, Quiet, Honest, Lockstep};

    // The instructions that it accepts, at an input address.
    ghost is_for: { Self → Ins → ℕ → Type 0 };

    // The forms of the code, near or far, that it suits.
    ghost suits: { Self → Bool → Type 0 };

    // Its items.
    ghost items: { Self → Ins → ℕ → List Item };

    // The registers to compare with their pairs just before.
    ghost uses: { Self → Ins → List ℕ };

    // The most steps through its items.
    ghost cost: { Self → Ins → ℕ };

    // What it needs, besides items at the place where the output goes on with both halves.
    ghost needs: { Self → Ins → ℕ → World → Views → Type 0 };

    // What holds behind its items, of the views before, the steps and the views there.
    ghost gives: { Self → Ins → ℕ → World → Views → ℕ → Views → Type 0 };

    // What holds if it leads elsewhere, of the views before, the steps and the views there.
    ghost leaves: { Self → Ins → ℕ → World → Views → ℕ → Views → Type 0 };

    /// Appends the items of an instruction at an input address.
    ///
    /// Errors: want of memory; then a first part is appended.
    fn emit(&self, ins: &Ins, at: u64, out: &mut Emit) -> Result<(), AllocError>
        requires { is_for self.now ins.now at }
        ensures all { OnOk result (out.new ≡ out.old ++ items self.now ins.now at) }
        ensures part { OnErr result (AppendsPart out.old out.new (items self.now ins.now at)) };

    // Quiet: if what it needs holds, no check fires, nothing traps, and the halves are as the
    // instruction says.
    ghost quiet: { (p : Self) (i : Ins) (at : ℕ) → is_for p i at → Quiet (suits p) (items p i at) (needs p i at) (gives p i at) (leaves p i at) (cost p i) };

    // Honest: a check fires only if a pair, a word and its duplicate, or a signature and its entry
    // differ.
    ghost honest: { (p : Self) (i : Ins) (at : ℕ) → is_for p i at → Honest (suits p) (items p i at) };

    // Lockstep: its words are of the kinds of woven words, with a guard just before each use.
    ghost lockstep: { (p : Self) (i : Ins) (at : ℕ) → is_for p i at → Lockstep (suits p) (uses p i) (items p i at) };
}

/// One pass after another.
#[derive(Drop)]
pub struct Then<A, B> {
    pub first: A,
    pub second: B,
}

impl<A: Pass, B: Pass> Pass for Then<A, B> {
    ghost use Rattle.std.specs.Prelude.{◌≡◌, ◌+◌, ◌++◌, ◌⊎◌, []};
    ghost use Rattle.passes.specs.Pass.{Chain, NeedsBoth};
    ghost use Rattle.passes.specs.Compose.{quiet_then, honest_then, lockstep_then};

    ghost is_for = { λ t i at. A.is_for t.first i at × B.is_for t.second i at × (B.uses t.second i ≡ []) };

    ghost suits = { λ t far. A.suits t.first far × B.suits t.second far };

    ghost items = { λ t i at. A.items t.first i at ++ B.items t.second i at };

    ghost uses = { λ t i. A.uses t.first i };

    ghost cost = { λ t i. A.cost t.first i + B.cost t.second i };

    ghost needs = { λ t i at w. NeedsBoth (A.needs t.first i at w) (A.gives t.first i at w) (B.needs t.second i at w) };

    ghost gives = { λ t i at w v. Chain v (A.cost t.first i) (A.gives t.first i at w v) (B.gives t.second i at w) };

    ghost leaves = { λ t i at w v n z. A.leaves t.first i at w v n z ⊎ Chain v (A.cost t.first i) (A.gives t.first i at w v) (B.leaves t.second i at w) n z };

    #[tactic(auto, using(crate::specs::Emitted::part_first, crate::specs::Emitted::part_second))]
    fn emit(&self, ins: &Ins, at: u64, out: &mut Emit) -> Result<(), AllocError> {
        self.first.emit(ins, at, out)?;
        self.second.emit(ins, at, out)?;
        Ok(())
    }

    ghost quiet = { λ t i at h. quiet_then (A.suits t.first) (B.suits t.second) (A.items t.first i at) (B.items t.second i at)
        (A.needs t.first i at) (B.needs t.second i at) (A.gives t.first i at) (A.leaves t.first i at) (B.gives t.second i at)
        (B.leaves t.second i at) (A.cost t.first i) (B.cost t.second i) (A.quiet t.first i at h.0) (B.quiet t.second i at h.1) };

    ghost honest = { λ t i at h. honest_then (A.suits t.first) (B.suits t.second)
        (A.items t.first i at) (B.items t.second i at) (A.honest t.first i at h.0) (B.honest t.second i at h.1) };

    ghost lockstep = { λ t i at h. lockstep_then (A.suits t.first) (B.suits t.second) (A.uses t.first i) (B.uses t.second i)
        (A.items t.first i at) (B.items t.second i at) h.2 (A.lockstep t.first i at h.0) (B.lockstep t.second i at h.1) };
}
