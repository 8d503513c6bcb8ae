//! The words of a mirror part of other kinds.
ghost use Rattle.std.specs.Prelude.{◌≡◌, ◌++◌, OnOk, OnErr};
ghost use Rattle.rv_isa.specs.Operation.{IsLow};
ghost use Rattle.qed_model.specs.Weave.Diverse.{reg_at, part_word, part_items};
ghost use Rattle.passes.specs.Emitted.{AppendsPart};

use passes::{Emit, plain};
use qed_model::Item;
use qed_model::diverse::{Part, Place};
use rv_isa::profile::{SPARE, TEMPORARY};
use rv_isa::{Ins, Reg, register};
use std::alloc::AllocError;

/// The register that a place names, for an instruction.
fn register_at(ins: &Ins, place: Place) -> Reg
    requires { IsLow ins.now }
    ensures { result ≡ reg_at ins.now place }
{
    match place {
        Place::X0 => register(0),
        Place::RD => ins.rd.pair(),
        Place::RS1 => ins.rs1.pair(),
        Place::RS2 => ins.rs2.pair(),
        Place::X30 => register(TEMPORARY),
        Place::X31 => register(SPARE),
    }
}

/// The item of one part, for an instruction.
fn word(ins: &Ins, part: &Part) -> Item
    requires { IsLow ins.now }
    ensures { result ≡ Item.Plain (part_word ins.now part.now) }
{
    let left = register_at(ins, part.left);
    let right = register_at(ins, part.right);
    plain(part.kind, register_at(ins, part.to), left, right, part.imm)
}

/// Appends the items of several parts.
///
/// Errors: want of memory; then a first part is appended.
#[tactic(auto, using(passes::specs::Emitted::part_none, passes::specs::Emitted::done_none, passes::specs::Emitted::done_more, passes::specs::Emitted::done_part, passes::specs::Emitted::done_all))]
pub(crate) fn put_parts(ins: &Ins, parts: &[Part], out: &mut Emit) -> Result<(), AllocError>
    requires { IsLow ins.now }
    ensures all { OnOk result (out.new ≡ out.old ++ part_items ins.now parts.now) }
    ensures part { OnErr result (AppendsPart out.old out.new (part_items ins.now parts.now)) }
{
    for part in parts {
        out.push(word(ins, part))?;
    }
    Ok(())
}
