//! Instructions, and comparisons of registers with their pairs.
ghost use Rattle.std.specs.Prelude.{◌≡◌, ◌<◌, ◌≤◌, ◌++◌, OnOk, OnErr};
ghost use Rattle.rv_isa.specs.declared.profile.TheConstants.{LAST_ORIGINAL};
ghost use Rattle.machine.specs.Step.{target as target_of};
ghost use Rattle.machine.specs.Table.{ins as ins_of};
ghost use Rattle.qed_model.specs.Weave.Sequences.{guard as guard_of, guards as guards_of};
ghost use Rattle.passes.specs.Emitted.{AppendsPart};
ghost use Rattle.passes.specs.Pass.{AllLow};

use crate::Emit;
use qed_model::Item;
use rv_isa::profile::PAIR_DISTANCE;
use rv_isa::{Ins, Kind, Reg, register};
use std::alloc::AllocError;

/// An item of one instruction.
pub fn plain(kind: Kind, rd: Reg, rs1: Reg, rs2: Reg, imm: i64) -> Item
    ensures { result ≡ Item.Plain (ins_of kind rd rs1 rs2 imm) }
{
    Item::Plain(Ins {
        kind,
        rd,
        rs1,
        rs2,
        imm,
    })
}

/// pc + immediate, modulo 2^64.
pub fn target(ins: &Ins, at: u64) -> u64
    ensures { result ≡ target_of ins.now at }
{
    at.wrapping_add(ins.imm.cast_unsigned())
}

/// Appends the comparison of a register up to x13 with its pair; nothing for x0.
///
/// Errors: want of memory; then nothing is appended.
pub fn put_guard(out: &mut Emit, r: Reg) -> Result<(), AllocError>
    requires { r ≤ LAST_ORIGINAL }
    ensures all { OnOk result (out.new ≡ out.old ++ guard_of r) }
    ensures none { OnErr result (out.new ≡ out.old) }
{
    if r.number() == 0 {
        return Ok(());
    }
    let zero = register(0);
    out.put(&[
        plain(Kind::Beq, zero, r, register(r.number() + PAIR_DISTANCE), 8),
        plain(Kind::Ebreak, zero, zero, zero, 0),
    ])?;
    Ok(())
}

/// Appends the comparisons of some registers up to x13 with their pairs.
///
/// Errors: want of memory; then a first part is appended.
#[tactic(auto, using(crate::specs::Emitted::part_none, crate::specs::Emitted::done_none, crate::specs::Emitted::done_more, crate::specs::Emitted::done_part, crate::specs::Emitted::done_all))]
pub fn put_guards(out: &mut Emit, registers: &[Reg]) -> Result<(), AllocError>
    requires { AllLow registers.now }
    ensures all { OnOk result (out.new ≡ out.old ++ guards_of registers.now) }
    ensures part { OnErr result (AppendsPart out.old out.new (guards_of registers.now)) }
{
    for r in registers {
        put_guard(out, *r)?;
    }
    Ok(())
}
