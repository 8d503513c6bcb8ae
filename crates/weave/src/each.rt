//! The instructions of a piece, one after another.
ghost use Rattle.std.specs.Prelude.{◌≡◌, ◌+◌, ◌*◌, ◌^◌, ◌<◌, ◌++◌, ℕ, OnOk, length};
ghost use Rattle.rv_isa.specs.declared.ins.Ins.{Ins};
ghost use Rattle.qed_model.specs.declared.role.Role.TheVariants as role;
ghost use Rattle.qed_model.specs.Weave.Forms.{mirror_of};
ghost use Rattle.qed_model.specs.Weave.Parts.{each_parts, last_of as last_of_list};
ghost use Rattle.qed_model.specs.Weave.Sequences.{original};
ghost use Rattle.weave_core.specs.Blocks.{AllFit, FitsPiece};
ghost use Rattle.weave.specs.Handed.{Comes, Handed};
ghost use Rattle.weave.specs.Halves.{half_role};

use crate::PartSink;
use eddi_dup::Original;
use guard_insert::Guarded;
use mirror_forms::Mirror;
use passes::Pass;
use qed_model::Role;
use relinker::ItemSink;
use rv_isa::Ins;
use std::alloc::AllocError;

/// The half on which an instruction of a piece runs.
#[derive(Clone, Copy)]
enum Half {
    Original,
    Mirror,
}

impl Half {
    /// The role of the items of the instruction at an address.
    fn role(self, at: u64) -> Role
        ensures { result ≡ half_role self at }
    {
        match self {
            Half::Original => Role::Original(at),
            Half::Mirror => Role::Mirror(at),
        }
    }
}

/// Hands on what a pass emits for each instruction of a list, a part each. The first stands at an input address.
///
/// Errors: want of memory.
#[tactic(auto, using(crate::proofs::Taking::begun, crate::proofs::Taking::ended))]
fn weave_each<P: Pass, S: ItemSink>(
    pass: &P,
    half: Half,
    list: &[Ins],
    first: u64,
    to: &mut PartSink<S>,
) -> Result<(), AllocError>
    requires own { (i : Ins) (at : ℕ) → FitsPiece i → P.is_for pass.now i at }
    requires fits { AllFit list.now }
    requires low { first + 4 * length list.now < 2 ^ 64 }
    requires come { Comes (S.took to.old.sink) to.old.items (each_parts (half_role half) (P.items pass.now) list.now first) }
    ensures { OnOk result (Handed (S.took to.old.sink) (S.took to.new.sink) to.new.items (each_parts (half_role half) (P.items pass.now) list.now first)) }
{
    let mut at = first;
    for ins in list {
        pass.emit(ins, at, &mut to.items)?;
        to.end(half.role(at))?;
        at += 4;
    }
    Ok(())
}

/// Hands on the original parts of a list, then its mirror parts. The first instruction stands at an input address.
///
/// Errors: want of memory.
pub fn weave_halves<S: ItemSink>(
    mirrors: &Mirror,
    list: &[Ins],
    at: u64,
    to: &mut PartSink<S>,
) -> Result<(), AllocError>
    requires fits { AllFit list.now }
    requires low { at + 4 * length list.now < 2 ^ 64 }
    requires come { Comes (S.took to.old.sink) to.old.items (each_parts role.Original original list.now at
        ++ each_parts role.Mirror (mirror_of mirrors.now.diverse) list.now at) }
    ensures { OnOk result (Handed (S.took to.old.sink) (S.took to.new.sink) to.new.items
        (each_parts role.Original original list.now at ++ each_parts role.Mirror (mirror_of mirrors.now.diverse) list.now at)) }
{
    let originals = Guarded { pass: Original };
    weave_each(&originals, Half::Original, list, at, to)?;
    weave_each(mirrors, Half::Mirror, list, at, to)?;
    Ok(())
}

/// The address of the last instruction of a list. The first instruction stands at `at`.
pub(crate) fn last_of(list: &[Ins], at: u64) -> u64
    requires { at + 4 * length list.now < 2 ^ 64 }
    ensures { result ≡ last_of_list list.now at }
{
    at + 4 * (list.len() as u64).saturating_sub(1)
}
