//! Steps that touch no memory, by class: what they do to the registers, and the next pc.
ghost use Rattle.std.specs.Prelude.{◌≡◌, ℕ, ◌+◌, ◌%◌, ◌^◌};
ghost use Rattle.rv_isa.specs.Kind.{class_of};
ghost use Rattle.rv_isa.specs.declared.class.Class.TheVariants as class;
ghost use Rattle.machine.specs.Table.{row_of};
ghost use Rattle.machine.specs.Step.{State, imm, moved, jumped, execute, operand as operand_of, computed_value as computed_value_of, target as target_of};
ghost use Rattle.rv_alu.specs.Steps.{following, computed, no_write, linked, branched, landed, IsComputing, IsBranching, IsJumping, IsPassing};

use crate::{compute, taken};
use rv_isa::{Ins, Kind, Operation, Regs};

/// The instructions that compute.
pub struct Computing;

/// The branches.
pub struct Branching;

/// The jumps: JAL and JALR.
pub struct Jumping;

/// FENCE.
pub struct Passing;

/// The immediate modulo 2^64.
fn immediate(ins: &Ins) -> u64
    ensures { result ≡ imm ins.now }
{
    ins.imm.cast_unsigned()
}

/// pc + immediate: the target of a JAL or a branch, and what AUIPC computes.
fn target(ins: &Ins, pc: u64) -> u64
    ensures { result ≡ target_of ins.now pc }
{
    pc.wrapping_add(immediate(ins))
}

/// The second operand: the immediate where there is one, else the number in rs2.
fn operand(ins: &Ins, regs: &Regs) -> u64
    requires { class_of ins.now.kind ≡ class.Compute }
    ensures { result ≡ operand_of (row_of ins.now.kind).format ins.now regs.now }
{
    if ins.has_immediate() {
        immediate(ins)
    } else {
        regs.get(ins.rs2)
    }
}

/// What a computing instruction writes to rd.
#[tactic(auto, unfolding(machine::specs::Step::computed_value))]
fn computed_value(ins: &Ins, pc: u64, regs: &Regs) -> u64
    requires { class_of ins.now.kind ≡ class.Compute }
    ensures { result ≡ computed_value_of ins.now.kind ins.now pc regs.now }
{
    match ins.kind {
        Kind::Lui => immediate(ins),
        Kind::Auipc => target(ins, pc),
        kind => compute(kind, regs.get(ins.rs1), operand(ins, regs)),
    }
}

/// Where a branch goes.
fn arrival(ins: &Ins, pc: u64, regs: &Regs) -> u64
    ensures { result ≡ branched ins.now pc regs.now }
{
    if taken(ins.kind, regs.get(ins.rs1), regs.get(ins.rs2)) {
        target(ins, pc)
    } else {
        pc.wrapping_add(4)
    }
}

/// Where a jump goes. JALR clears bit 0 ("Unconditional Jumps" of the RISC-V unprivileged manual).
fn landing(ins: &Ins, pc: u64, regs: &Regs) -> u64
    ensures { result ≡ landed ins.now pc regs.now }
{
    match ins.kind {
        Kind::Jalr => regs.get(ins.rs1).wrapping_add(immediate(ins)) & !1,
        _ => target(ins, pc),
    }
}

impl Operation for Computing {
    ghost use Rattle.rv_alu.specs.Steps.{computed, following, IsComputing};
    ghost use Rattle.rv_alu.specs.Laws.{computing_frame, computing_sources, computing_mirror};

    ghost is_for = { IsComputing };

    ghost registers = { computed };

    ghost next = { following };

    /// Writes the instruction's number to rd (RISC-V unprivileged manual, "Integer Computational
    /// Instructions" and the M extension), and goes to the next word.
    fn act(&self, ins: &Ins, pc: u64, regs: &mut Regs) -> u64
        requires { IsComputing (class_of ins.now.kind) }
        ensures registers { regs.new ≡ computed ins.now pc regs.old }
        ensures next { result ≡ following ins.now pc regs.old }

        // This is a step of the machine.
        ensures step { (s : State) → s.regs ≡ regs.old → s.pc ≡ pc →
            execute (class_of ins.now.kind) ins.now s ≡ moved regs.new result s }
    {
        let value = computed_value(ins, pc, regs);
        regs.set(ins.rd, value);
        pc.wrapping_add(4)
    }

    ghost frame = { computing_frame };

    ghost sources = { computing_sources };

    ghost mirror = { computing_mirror };
}

impl Operation for Branching {
    ghost use Rattle.rv_alu.specs.Steps.{no_write, branched, IsBranching};
    ghost use Rattle.rv_alu.specs.Laws.{branching_frame, branching_sources, branching_mirror};

    ghost is_for = { IsBranching };

    ghost registers = { no_write };

    ghost next = { branched };

    /// Goes to pc + immediate where the branch is taken, else to the next word ("Conditional
    /// Branches" of the RISC-V unprivileged manual).
    #[tactic(auto, using(crate::proofs::Executed::branching_step))]
    fn act(&self, ins: &Ins, pc: u64, regs: &mut Regs) -> u64
        requires { IsBranching (class_of ins.now.kind) }
        ensures registers { regs.new ≡ no_write ins.now pc regs.old }
        ensures next { result ≡ branched ins.now pc regs.old }

        // This is a step of the machine at any pc that code may stand at.
        ensures step { (s : State) → s.regs ≡ regs.old → s.pc ≡ pc → pc % 4 ≡ 0 →
            execute (class_of ins.now.kind) ins.now s ≡ jumped regs.new result s }
    {
        arrival(ins, pc, regs)
    }

    ghost frame = { branching_frame };

    ghost sources = { branching_sources };

    ghost mirror = { branching_mirror };
}

impl Operation for Jumping {
    ghost use Rattle.rv_alu.specs.Steps.{linked, landed, IsJumping};
    ghost use Rattle.rv_alu.specs.Laws.{jumping_frame, jumping_sources, jumping_mirror};

    ghost is_for = { IsJumping };

    ghost registers = { linked };

    ghost next = { landed };

    /// Writes the address behind the jump to rd, and goes to pc + immediate, or for JALR to rs1 +
    /// immediate with bit 0 cleared ("Unconditional Jumps" of the RISC-V unprivileged manual). Where
    /// rd is rs1 too, the target is that of the number before the write.
    #[tactic(auto, using(crate::proofs::Executed::jumping_step))]
    fn act(&self, ins: &Ins, pc: u64, regs: &mut Regs) -> u64
        requires { IsJumping (class_of ins.now.kind) }
        ensures registers { regs.new ≡ linked ins.now pc regs.old }
        ensures next { result ≡ landed ins.now pc regs.old }

        // This is a step of the machine.
        ensures step { (s : State) → s.regs ≡ regs.old → s.pc ≡ pc →
            execute (class_of ins.now.kind) ins.now s ≡ jumped regs.new result s }
    {
        let target = landing(ins, pc, regs);
        regs.set(ins.rd, pc.wrapping_add(4));
        target
    }

    ghost frame = { jumping_frame };

    ghost sources = { jumping_sources };

    ghost mirror = { jumping_mirror };
}

impl Operation for Passing {
    ghost use Rattle.rv_alu.specs.Steps.{no_write, following, IsPassing};
    ghost use Rattle.rv_alu.specs.Laws.{passing_frame, passing_sources, passing_mirror};

    ghost is_for = { IsPassing };

    ghost registers = { no_write };

    ghost next = { following };

    /// Goes to the next word. On one hart a FENCE orders nothing ("Memory Ordering Instructions" of
    /// the RISC-V unprivileged manual).
    #[tactic(auto, using(crate::proofs::Executed::passing_step))]
    fn act(&self, ins: &Ins, pc: u64, regs: &mut Regs) -> u64
        requires { IsPassing (class_of ins.now.kind) }
        ensures registers { regs.new ≡ no_write ins.now pc regs.old }
        ensures next { result ≡ following ins.now pc regs.old }

        // This is a step of the machine.
        ensures step { (s : State) → s.regs ≡ regs.old → s.pc ≡ pc →
            execute (class_of ins.now.kind) ins.now s ≡ moved regs.new result s }
    {
        // A FENCE has no operands here, and leaves the registers as they are.
        let _ = ins;
        let _ = &*regs;
        pc.wrapping_add(4)
    }

    ghost frame = { passing_frame };

    ghost sources = { passing_sources };

    ghost mirror = { passing_mirror };
}
