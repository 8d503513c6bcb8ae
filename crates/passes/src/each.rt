//! Passes over the instructions of a piece.
ghost use Rattle.std.specs.Prelude.{◌≡◌, ◌++◌, [], OnOk, OnErr, IfOk};
ghost use Rattle.passes.specs.Emitted.{AppendsPart};
ghost use Rattle.passes.specs.Pass.{Quiet, Honest, Lockstep};

use crate::{Emit, Pass, Then};
use rv_isa::Ins;
use std::alloc::{AllocError, Global};

/// What is woven for a list of instructions, one word after another in the input, with the laws of
/// a pass.
pub trait PassAll {
    ghost use Rattle.std.specs.Prelude.{ℕ, Bool, List, []};
    ghost use Rattle.rv_isa.specs.declared.ins.Ins.{Ins};
    ghost use Rattle.qed_model.specs.declared.item.Item.{Item};
    ghost use Rattle.weave_core.specs.World.{World};
    ghost use Rattle.passes.specs.Pass.{Views, Quiet, Honest, Lockstep};

    // The lists that it accepts, from an input address on.
    ghost is_for: { Self → List Ins → ℕ → Type 0 };

    // The forms of the code, as for a pass.
    ghost suits: { Self → Bool → Type 0 };

    ghost items: { Self → List Ins → ℕ → List Item };

    ghost cost: { Self → List Ins → ℕ };

    ghost needs: { Self → List Ins → ℕ → World → Views → Type 0 };

    ghost gives: { Self → List Ins → ℕ → World → Views → ℕ → Views → Type 0 };

    ghost leaves: { Self → List Ins → ℕ → World → Views → ℕ → Views → Type 0 };

    /// Appends the items of a list whose first instruction stands at an input address; the others
    /// stand behind it, modulo 2^64.
    ///
    /// Errors: want of memory; then a first part is appended.
    fn emit_all(&self, list: &[Ins], first: u64, out: &mut Emit) -> Result<(), AllocError>
        requires { is_for self.now list.now first }
        ensures all { OnOk result (out.new ≡ out.old ++ items self.now list.now first) }
        ensures part { OnErr result (AppendsPart out.old out.new (items self.now list.now first)) };

    ghost quiet: { (p : Self) (is : List Ins) (at : ℕ)
        → is_for p is at → Quiet (suits p) (items p is at) (needs p is at) (gives p is at) (leaves p is at) (cost p is) };

    ghost honest: { (p : Self) (is : List Ins) (at : ℕ) → is_for p is at → Honest (suits p) (items p is at) };

    ghost lockstep: { (p : Self) (is : List Ins) (at : ℕ) → is_for p is at → Lockstep (suits p) [] (items p is at) };
}

/// A pass over each instruction. It guards its own uses.
#[derive(Clone, Copy, Drop)]
pub struct Each<A> {
    pub pass: A,
}

impl<A: Pass> PassAll for Each<A> {
    ghost use Rattle.passes.specs.Each.{next_at, items_each, ForEach, cost_each, NeedsEach, GivesEach, LeavesEach, quiet_each, honest_each, lockstep_each};

    ghost is_for = { λ e is at. ForEach next_at (A.is_for e.pass) (A.uses e.pass) is at };

    ghost suits = { λ e. A.suits e.pass };

    ghost items = { λ e is at. items_each next_at (A.items e.pass) is at };

    ghost cost = { λ e is. cost_each (A.cost e.pass) is };

    ghost needs = { λ e is at. NeedsEach next_at (A.needs e.pass) (A.gives e.pass) is at };

    ghost gives = { λ e is at. GivesEach next_at (A.cost e.pass) (A.gives e.pass) is at };

    ghost leaves = { λ e is at. LeavesEach next_at (A.cost e.pass) (A.gives e.pass) (A.leaves e.pass) is at };

    #[tactic(auto, using(crate::specs::Emitted::part_none, crate::specs::Emitted::done_none, crate::specs::Emitted::done_more, crate::specs::Emitted::done_part, crate::specs::Emitted::done_all))]
    fn emit_all(&self, list: &[Ins], first: u64, out: &mut Emit) -> Result<(), AllocError> {
        let mut at = first;
        for ins in list {
            self.pass.emit(ins, at, out)?;
            at = at.wrapping_add(4);
        }
        Ok(())
    }

    ghost quiet = { λ e is at f. quiet_each next_at (A.suits e.pass) (A.is_for e.pass) (A.uses e.pass)
        (A.items e.pass) (A.needs e.pass) (A.gives e.pass) (A.leaves e.pass) (A.cost e.pass) (A.quiet e.pass) is at f };

    ghost honest = { λ e is at f. honest_each (A.suits e.pass) (A.is_for e.pass) (A.uses e.pass) (A.items e.pass) (A.honest e.pass) is at f };

    ghost lockstep = { λ e is at f. lockstep_each next_at (A.suits e.pass) (A.is_for e.pass) (A.uses e.pass) (A.items e.pass) (A.lockstep e.pass) is at f };
}

/// A pass that looks at no instruction, once behind a list.
#[derive(Clone, Copy, Drop)]
pub struct Once<A> {
    pub pass: A,
}

impl<A: Pass> PassAll for Once<A> {
    ghost use Rattle.std.specs.Prelude.{◌≡◌};
    ghost use Rattle.rv_isa.specs.Ins.{nop};
    ghost use Rattle.passes.specs.Compose.{lockstep_alone};

    ghost is_for = { λ o is at. A.is_for o.pass nop at × (A.uses o.pass nop ≡ []) };

    ghost suits = { λ o. A.suits o.pass };

    ghost items = { λ o is at. A.items o.pass nop at };

    ghost cost = { λ o is. A.cost o.pass nop };

    ghost needs = { λ o is at. A.needs o.pass nop at };

    ghost gives = { λ o is at. A.gives o.pass nop at };

    ghost leaves = { λ o is at. A.leaves o.pass nop at };

    fn emit_all(&self, _list: &[Ins], first: u64, out: &mut Emit) -> Result<(), AllocError> {
        self.pass.emit(&Ins::nop(), first, out)
    }

    ghost quiet = { λ o is at f. A.quiet o.pass nop at f.0 };

    ghost honest = { λ o is at f. A.honest o.pass nop at f.0 };

    ghost lockstep = { λ o is at f. lockstep_alone (A.suits o.pass) (A.uses o.pass nop) (A.items o.pass nop at) f.1 (A.lockstep o.pass nop at f.0) };
}

impl<A: PassAll, B: PassAll> PassAll for Then<A, B> {
    ghost use Rattle.std.specs.Prelude.{◌≡◌, ◌+◌, ◌++◌, ◌⊎◌, [], refl};
    ghost use Rattle.passes.specs.Pass.{Chain, NeedsBoth};
    ghost use Rattle.passes.specs.Compose.{quiet_then, honest_then, lockstep_then};

    ghost is_for = { λ t is at. A.is_for t.first is at × B.is_for t.second is at };

    ghost suits = { λ t far. A.suits t.first far × B.suits t.second far };

    ghost items = { λ t is at. A.items t.first is at ++ B.items t.second is at };

    ghost cost = { λ t is. A.cost t.first is + B.cost t.second is };

    ghost needs = { λ t is at w. NeedsBoth (A.needs t.first is at w) (A.gives t.first is at w) (B.needs t.second is at w) };

    ghost gives = { λ t is at w v. Chain v (A.cost t.first is) (A.gives t.first is at w v) (B.gives t.second is at w) };

    ghost leaves = { λ t is at w v n z. A.leaves t.first is at w v n z
        ⊎ Chain v (A.cost t.first is) (A.gives t.first is at w v) (B.leaves t.second is at w) n z };

    #[tactic(auto, using(crate::specs::Emitted::part_first, crate::specs::Emitted::part_second))]
    fn emit_all(&self, list: &[Ins], first: u64, out: &mut Emit) -> Result<(), AllocError> {
        self.first.emit_all(list, first, out)?;
        self.second.emit_all(list, first, out)?;
        Ok(())
    }

    ghost quiet = { λ t is at h. quiet_then (A.suits t.first) (B.suits t.second) (A.items t.first is at) (B.items t.second is at)
        (A.needs t.first is at) (B.needs t.second is at) (A.gives t.first is at) (A.leaves t.first is at) (B.gives t.second is at)
        (B.leaves t.second is at) (A.cost t.first is) (B.cost t.second is) (A.quiet t.first is at h.0) (B.quiet t.second is at h.1) };

    ghost honest = { λ t is at h. honest_then (A.suits t.first) (B.suits t.second)
        (A.items t.first is at) (B.items t.second is at) (A.honest t.first is at h.0) (B.honest t.second is at h.1) };

    ghost lockstep = { λ t is at h. lockstep_then (A.suits t.first) (B.suits t.second) [] [] (A.items t.first is at)
        (B.items t.second is at) refl (A.lockstep t.first is at h.0) (B.lockstep t.second is at h.1) };
}

/// The items of a list, alone: they lead on as the pass says, their checks are honest, and they
/// keep two runs in lockstep.
pub fn emitted<P: PassAll>(
    pass: &P,
    alloc: Global,
    list: &[Ins],
    first: u64,
) -> Result<Emit, AllocError>
    requires { P.is_for pass.now list.now first }
    ensures items { IfOk result (λ out. out ≡ P.items pass.now list.now first) }
    ensures quiet { IfOk result (λ out. Quiet (P.suits pass.now) out (P.needs pass.now list.now first)
        (P.gives pass.now list.now first) (P.leaves pass.now list.now first) (P.cost pass.now list.now)) }
    ensures honest { IfOk result (λ out. Honest (P.suits pass.now) out) }
    ensures lockstep { IfOk result (λ out. Lockstep (P.suits pass.now) [] out) }
{
    let mut out = Emit::new(alloc);
    pass.emit_all(list, first, &mut out)?;
    Ok(out)
}
