//! The mirror part of an instruction.
ghost use Rattle.std.specs.Prelude.{◌≡◌, ◌≤◌, [], ◌∷◌, ◌++◌, OnOk, OnErr, pos};
ghost use Rattle.rv_isa.specs.declared.profile.TheConstants.{LAST_ORIGINAL, DISTANCE, TEMPORARY};
ghost use Rattle.rv_isa.specs.declared.kind.Kind.TheVariants.{Add};
ghost use Rattle.machine.specs.Table.{ins as ins_of};
ghost use Rattle.qed_model.specs.Weave.Sequences.{mirrored};
ghost use Rattle.rv_isa.specs.Operation.{pair as pair_of, renamed as renamed_of};
ghost use Rattle.weave_core.specs.Blocks.{FitsPiece};
ghost use Rattle.passes.specs.Emitted.{AppendsPart};

use passes::{Emit, plain, target};
use qed_model::Item;
use rv_isa::profile::{DISTANCE, TEMPORARY};
use rv_isa::{Class, Ins, Kind, register};
use std::alloc::AllocError;

/// The instruction on the pairs of its registers.
fn on_pairs(ins: &Ins) -> Item
    requires rd { ins.now.rd ≤ LAST_ORIGINAL }
    requires rs1 { ins.now.rs1 ≤ LAST_ORIGINAL }
    requires rs2 { ins.now.rs2 ≤ LAST_ORIGINAL }
    ensures { result ≡ Item.Plain (renamed_of ins.now) }
{
    plain(
        ins.kind,
        ins.rd.pair(),
        ins.rs1.pair(),
        ins.rs2.pair(),
        ins.imm,
    )
}

/// A load from the duplicate half.
fn load_pair(ins: &Ins) -> [Item; 2]
    requires rd { ins.now.rd ≤ LAST_ORIGINAL }
    requires rs1 { ins.now.rs1 ≤ LAST_ORIGINAL }
    ensures { result ≡ Item.Plain (ins_of Add TEMPORARY (pair_of ins.now.rs1) DISTANCE (pos 0))
        ∷ Item.Plain (ins_of ins.now.kind (pair_of ins.now.rd) TEMPORARY 0 ins.now.imm) ∷ [] }
{
    let base = register(TEMPORARY);
    [
        plain(Kind::Add, base, ins.rs1.pair(), register(DISTANCE), 0),
        plain(ins.kind, ins.rd.pair(), base, register(0), ins.imm),
    ]
}

/// A store to the duplicate half.
fn store_pair(ins: &Ins) -> [Item; 2]
    requires rs1 { ins.now.rs1 ≤ LAST_ORIGINAL }
    requires rs2 { ins.now.rs2 ≤ LAST_ORIGINAL }
    ensures { result ≡ Item.Plain (ins_of Add TEMPORARY (pair_of ins.now.rs1) DISTANCE (pos 0))
        ∷ Item.Plain (ins_of ins.now.kind 0 TEMPORARY (pair_of ins.now.rs2) ins.now.imm) ∷ [] }
{
    let base = register(TEMPORARY);
    [
        plain(Kind::Add, base, ins.rs1.pair(), register(DISTANCE), 0),
        plain(ins.kind, register(0), base, ins.rs2.pair(), ins.imm),
    ]
}

/// Appends the instruction on the pairs; an access goes to the duplicate half.
///
/// Errors: want of memory; then a first part is appended.
pub fn put_mirrored(ins: &Ins, at: u64, out: &mut Emit) -> Result<(), AllocError>
    requires { FitsPiece ins.now }
    ensures all { OnOk result (out.new ≡ out.old ++ mirrored ins.now at) }
    ensures part { OnErr result (AppendsPart out.old out.new (mirrored ins.now at)) }
{
    if ins.kind == Kind::Auipc {
        return out.push(Item::Constant(ins.rd.pair(), target(ins, at)));
    }
    match ins.class() {
        Class::Compute => out.push(on_pairs(ins)),
        Class::Load => out.put(&load_pair(ins)),
        Class::Store => out.put(&store_pair(ins)),
        _ => Ok(()),
    }
}
