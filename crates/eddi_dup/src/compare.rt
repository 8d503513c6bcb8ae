//! The comparison of all registers.
ghost use Rattle.std.specs.Prelude.{◌≡◌, ◌+◌, ◌≤◌, pos};
ghost use Rattle.rv_isa.specs.declared.profile.TheConstants.{LAST_ORIGINAL, PAIR_DISTANCE};
ghost use Rattle.rv_isa.specs.declared.kind.Kind.TheVariants.{Beq};
ghost use Rattle.machine.specs.Table.{ins as ins_of};
ghost use Rattle.qed_model.specs.Weave.Sequences.{compare, fired_check};

use passes::{Emit, Pass, plain};
use qed_model::Item;
use rv_isa::profile::{LAST_ORIGINAL, PAIR_DISTANCE};
use rv_isa::{Ins, Kind, register};
use std::alloc::AllocError;

/// Compares x1 to x13 with their pairs. It looks at no instruction.
#[derive(Clone, Copy, Drop)]
pub struct CompareAll;

/// If a register and its pair are equal, skips the check behind it.
fn unequal(n: u8) -> Item
    requires { n ≤ LAST_ORIGINAL }
    ensures { result ≡ Item.Plain (ins_of Beq 0 n (n + PAIR_DISTANCE) (pos 8)) }
{
    plain(
        Kind::Beq,
        register(0),
        register(n),
        register(n + PAIR_DISTANCE),
        8,
    )
}

/// The check.
fn fired() -> Item
    ensures { result ≡ fired_check }
{
    let zero = register(0);
    plain(Kind::Ebreak, zero, zero, zero, 0)
}

/// The comparisons of x1 to x13.
fn comparison() -> [Item; 26]
    ensures { result ≡ compare }
{
    [
        unequal(1),
        fired(),
        unequal(2),
        fired(),
        unequal(3),
        fired(),
        unequal(4),
        fired(),
        unequal(5),
        fired(),
        unequal(6),
        fired(),
        unequal(7),
        fired(),
        unequal(8),
        fired(),
        unequal(9),
        fired(),
        unequal(10),
        fired(),
        unequal(11),
        fired(),
        unequal(12),
        fired(),
        unequal(LAST_ORIGINAL),
        fired(),
    ]
}

impl Pass for CompareAll {
    ghost use Rattle.std.specs.Prelude.{[], ◌≡◌};
    ghost use Rattle.rv_isa.specs.declared.profile.TheConstants.{ORIGINALS};
    ghost use Rattle.qed_model.specs.Weave.Sequences.{compare};
    ghost use Rattle.eddi_dup.specs.Parts.{Compares};
    ghost use Rattle.eddi_dup.specs.Laws.{any, quiet_compare, honest_compare, lockstep_compare};

    ghost is_for = { λ p i at. Unit {0} };

    ghost suits = { λ p. any };

    ghost items = { λ p i at. compare };

    ghost uses = { λ p i. [] };

    ghost cost = { λ p i. ORIGINALS };

    ghost needs = { λ p i at w v. v.original ≡ v.shadow };

    ghost gives = { λ p i at. Compares };

    ghost leaves = { λ p i at w v n z. ⊥ };

    #[tactic(auto, using(passes::specs::Emitted::part_none))]
    fn emit(&self, _ins: &Ins, _at: u64, out: &mut Emit) -> Result<(), AllocError> {
        out.put(&comparison())
    }

    ghost quiet = { λ p i at f. quiet_compare };

    ghost honest = { λ p i at f. honest_compare };

    ghost lockstep = { λ p i at f. lockstep_compare };
}
