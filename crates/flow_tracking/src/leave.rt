//! The leave of a block.
ghost use Rattle.std.specs.Prelude.{◌≡◌, ◌≤◌, ◌++◌, OnOk, OnErr};
ghost use Rattle.rv_isa.specs.declared.profile.TheConstants.{LAST_ORIGINAL};
ghost use Rattle.qed_model.specs.Weave.Lean.{look_up};
ghost use Rattle.qed_model.specs.Weave.Sequences.{guard as guard_of, guards_of, links as links_of, go_on, leave_as};
ghost use Rattle.machine.specs.Step.{target as target_of};
ghost use Rattle.rv_isa.specs.declared.class.Class.TheVariants as class;
ghost use Rattle.passes.specs.Emitted.{AppendsPart};
ghost use Rattle.flow_tracking.specs.Leaving.{leave_form, branch_end, look_and_go, aim_of, indirect_of};

use passes::{Emit, Pass, plain, put_guard, target};
use qed_model::Item;
use rv_isa::profile::{DISTANCE, SIGNATURE, SPARE, TEMPORARY};
use rv_isa::{Class, Ins, Kind, Reg, register};
use std::alloc::AllocError;

/// The leave of a block's end, or of a block that falls through to `next`; then the instruction is
/// `Ins::nop()`. For a branch `next` is the address behind it. In the far form a jump to an entry
/// has two words.
#[derive(Clone, Copy, Drop)]
pub struct Leave {
    pub next: u64,
    pub far: bool,
}

/// Goes on to the entry of an input address, with its signature.
fn put_go_on(next: u64, out: &mut Emit) -> Result<(), AllocError>
    ensures all { OnOk result (out.new ≡ out.old ++ go_on next) }
    ensures none { OnErr result (out.new ≡ out.old) }
{
    out.put(&[Item::Constant(register(SIGNATURE), next), Item::Go(next)])?;
    Ok(())
}

/// Appends the return address of a jump, in rd up to x13 and in its pair.
///
/// Errors: want of memory, and then nothing is appended.
pub fn put_links(ins: &Ins, at: u64, out: &mut Emit) -> Result<(), AllocError>
    requires { ins.now.rd ≤ LAST_ORIGINAL }
    ensures all { OnOk result (out.new ≡ out.old ++ links_of ins.now at) }
    ensures none { OnErr result (out.new ≡ out.old) }
{
    if ins.rd.number() == 0 {
        return Ok(());
    }
    let back = at.wrapping_add(4);
    out.put(&[
        Item::Constant(ins.rd, back),
        Item::Constant(ins.rd.pair(), back),
    ])?;
    Ok(())
}

/// The comparisons of both source registers, up to x13, with their pairs.
#[tactic(auto, using(passes::specs::Emitted::part_none, passes::specs::Emitted::part_first, passes::specs::Emitted::part_second))]
fn put_guards_of(ins: &Ins, out: &mut Emit) -> Result<(), AllocError>
    requires rs1 { ins.now.rs1 ≤ LAST_ORIGINAL }
    requires rs2 { ins.now.rs2 ≤ LAST_ORIGINAL }
    ensures all { OnOk result (out.new ≡ out.old ++ guards_of ins.now) }
    ensures part { OnErr result (AppendsPart out.old out.new (guards_of ins.now)) }
{
    put_guard(out, ins.rs1)?;
    if ins.rs2 == ins.rs1 {
        return Ok(());
    }
    put_guard(out, ins.rs2)?;
    Ok(())
}

/// The leave of a JAL.
#[tactic(auto, using(passes::specs::Emitted::part_none, passes::specs::Emitted::part_first, passes::specs::Emitted::part_second))]
fn put_jump(ins: &Ins, at: u64, out: &mut Emit) -> Result<(), AllocError>
    requires { ins.now.rd ≤ LAST_ORIGINAL }
    ensures all { OnOk result (out.new ≡ out.old ++ (links_of ins.now at ++ go_on (target_of ins.now at))) }
    ensures part { OnErr result (AppendsPart out.old out.new (links_of ins.now at ++ go_on (target_of ins.now at))) }
{
    put_links(ins, at, out)?;
    put_go_on(target(ins, at), out)?;
    Ok(())
}

/// The way that a branch takes, by the originals.
#[tactic(auto, using(passes::specs::Emitted::part_none, passes::specs::Emitted::part_first, passes::specs::Emitted::part_second))]
fn put_way(ins: &Ins, next: u64, to: u64, far: bool, out: &mut Emit) -> Result<(), AllocError>
    requires rs1 { ins.now.rs1 ≤ LAST_ORIGINAL }
    requires rs2 { ins.now.rs2 ≤ LAST_ORIGINAL }
    ensures all { OnOk result (out.new ≡ out.old ++ branch_end ins.now next to far) }
    ensures part { OnErr result (AppendsPart out.old out.new (branch_end ins.now next to far)) }
{
    let skip = if far { 12 } else { 8 };
    put_guards_of(ins, out)?;
    out.put(&[
        plain(ins.kind, register(0), ins.rs1, ins.rs2, skip),
        Item::Go(next),
        Item::Go(to),
    ])?;
    Ok(())
}

/// The leave of a branch: the pairs choose the signature, the originals the way.
#[tactic(auto, using(passes::specs::Emitted::part_none, passes::specs::Emitted::part_first, passes::specs::Emitted::part_second))]
fn put_branch(ins: &Ins, at: u64, far: bool, out: &mut Emit) -> Result<(), AllocError>
    requires rs1 { ins.now.rs1 ≤ LAST_ORIGINAL }
    requires rs2 { ins.now.rs2 ≤ LAST_ORIGINAL }
    ensures all { OnOk result (out.new ≡ out.old ++ leave_as (leave_form far) class.Branch ins.now at) }
    ensures part { OnErr result (AppendsPart out.old out.new (leave_as (leave_form far) class.Branch ins.now at)) }
{
    let next = at.wrapping_add(4);
    let to = target(ins, at);
    let zero = register(0);
    let sign = register(SIGNATURE);
    out.put(&[
        plain(ins.kind, zero, ins.rs1.pair(), ins.rs2.pair(), 16),
        Item::Constant(sign, next),
        plain(Kind::Jal, zero, zero, zero, 12),
        Item::Constant(sign, to),
    ])?;
    put_way(ins, next, to, far, out)?;
    Ok(())
}

/// Appends the look-up of the entry of the input address in a register, into x30.
///
/// Errors: want of memory, and then nothing is appended.
pub fn put_look_up(address: Reg, out: &mut Emit) -> Result<(), AllocError>
    ensures all { OnOk result (out.new ≡ out.old ++ look_up address) }
    ensures none { OnErr result (out.new ≡ out.old) }
{
    let zero = register(0);
    let half = register(DISTANCE);
    let entry = register(TEMPORARY);
    let place = register(SPARE);
    out.put(&[
        plain(Kind::Add, place, address, half, 0),
        plain(Kind::Add, place, place, half, 0),
        plain(Kind::Lw, entry, place, zero, 0),
        plain(Kind::Add, entry, entry, place, 0),
    ])?;
    Ok(())
}

/// The look-up of the target in x30, and the jump to its entry.
#[tactic(auto, using(passes::specs::Emitted::part_none, passes::specs::Emitted::part_first, passes::specs::Emitted::part_second))]
fn put_look_and_go(out: &mut Emit) -> Result<(), AllocError>
    ensures all { OnOk result (out.new ≡ out.old ++ look_and_go) }
    ensures part { OnErr result (AppendsPart out.old out.new look_and_go) }
{
    let (zero, entry) = (register(0), register(TEMPORARY));
    put_look_up(entry, out)?;
    out.push(plain(Kind::Jalr, zero, entry, zero, 0))?;
    Ok(())
}

/// The return address of a JALR, the look-up of its target, and the jump.
#[tactic(auto, using(passes::specs::Emitted::part_none, passes::specs::Emitted::part_first, passes::specs::Emitted::part_second))]
fn put_linked(ins: &Ins, at: u64, out: &mut Emit) -> Result<(), AllocError>
    requires { ins.now.rd ≤ LAST_ORIGINAL }
    ensures all { OnOk result (out.new ≡ out.old ++ (links_of ins.now at ++ look_and_go)) }
    ensures part { OnErr result (AppendsPart out.old out.new (links_of ins.now at ++ look_and_go)) }
{
    put_links(ins, at, out)?;
    put_look_and_go(out)?;
    Ok(())
}

/// The target of a JALR by the original.
#[tactic(auto, using(passes::specs::Emitted::part_none, passes::specs::Emitted::part_first, passes::specs::Emitted::part_second))]
fn put_aim(ins: &Ins, at: u64, out: &mut Emit) -> Result<(), AllocError>
    requires rd { ins.now.rd ≤ LAST_ORIGINAL }
    requires rs1 { ins.now.rs1 ≤ LAST_ORIGINAL }
    ensures all { OnOk result (out.new ≡ out.old ++ aim_of ins.now at) }
    ensures part { OnErr result (AppendsPart out.old out.new (aim_of ins.now at)) }
{
    let to = register(TEMPORARY);
    out.put(&[
        plain(Kind::Addi, to, ins.rs1, register(0), ins.imm),
        plain(Kind::Andi, to, to, register(0), -2),
    ])?;
    put_linked(ins, at, out)?;
    Ok(())
}

/// The jump of a JALR: the guard of its original, the look-up of its target. The pair has set the signature.
#[tactic(auto, using(passes::specs::Emitted::part_none, passes::specs::Emitted::part_first, passes::specs::Emitted::part_second))]
fn put_leap(ins: &Ins, at: u64, out: &mut Emit) -> Result<(), AllocError>
    requires rd { ins.now.rd ≤ LAST_ORIGINAL }
    requires rs1 { ins.now.rs1 ≤ LAST_ORIGINAL }
    ensures all { OnOk result (out.new ≡ out.old ++ (guard_of ins.now.rs1 ++ aim_of ins.now at)) }
    ensures part { OnErr result (AppendsPart out.old out.new (guard_of ins.now.rs1 ++ aim_of ins.now at)) }
{
    put_guard(out, ins.rs1)?;
    put_aim(ins, at, out)?;
    Ok(())
}

/// The whole leave of a JALR.
#[tactic(auto, using(passes::specs::Emitted::part_none, passes::specs::Emitted::part_first, passes::specs::Emitted::part_second))]
fn put_indirect(ins: &Ins, at: u64, out: &mut Emit) -> Result<(), AllocError>
    requires rd { ins.now.rd ≤ LAST_ORIGINAL }
    requires rs1 { ins.now.rs1 ≤ LAST_ORIGINAL }
    ensures all { OnOk result (out.new ≡ out.old ++ indirect_of ins.now at) }
    ensures part { OnErr result (AppendsPart out.old out.new (indirect_of ins.now at)) }
{
    let sign = register(SIGNATURE);
    out.put(&[
        plain(Kind::Addi, sign, ins.rs1.pair(), register(0), ins.imm),
        plain(Kind::Andi, sign, sign, register(0), -2),
    ])?;
    put_leap(ins, at, out)?;
    Ok(())
}

impl Pass for Leave {
    ghost use Rattle.std.specs.Prelude.{◌≡◌, []};
    ghost use Rattle.rv_isa.specs.Kind.{class_of};
    ghost use Rattle.flow_tracking.specs.Leaving.{left, IsLeft, Leaving, LeavesOn};
    ghost use Rattle.flow_tracking.specs.Laws.{quiet_leave, lockstep_leave};
    ghost use Rattle.flow_tracking.specs.HonestLeave.{honest_leave};

    ghost is_for = { λ p i at. IsLeft (class_of i.kind) p.next i at };

    ghost suits = { λ p f. f ≡ p.far };

    ghost items = { λ p i at. left p.next p.far i at };

    ghost uses = { λ p i. [] };

    ghost cost = { λ p i. 14 };

    ghost needs = { λ p i at w. Leaving w p.next i at };

    ghost gives = { λ p i at w v n z. ⊥ };

    ghost leaves = { λ p i at. LeavesOn (class_of i.kind) };

    #[tactic(auto, using(passes::specs::Emitted::part_none))]
    fn emit(&self, ins: &Ins, at: u64, out: &mut Emit) -> Result<(), AllocError> {
        match ins.class() {
            Class::Compute => put_go_on(self.next, out),
            Class::Branch => put_branch(ins, at, self.far, out),
            Class::Jump => put_jump(ins, at, out),
            Class::JumpReg => put_indirect(ins, at, out),
            _ => out.put(&[Item::Plain(*ins)]),
        }
    }

    ghost quiet = { λ p i at f. quiet_leave p.next p.far i at f };

    ghost honest = { λ p i at f. honest_leave p.next p.far i at f };

    ghost lockstep = { λ p i at f. lockstep_leave p.next p.far i at f };
}
