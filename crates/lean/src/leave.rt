//! How a block is left.
ghost use Rattle.std.specs.Prelude.{◌≡◌, ◌%◌, ◌+◌, ◌^◌, ◌<◌, ◌++◌, AllPairs, OnOk, map};
ghost use Rattle.rv_isa.specs.declared.class.Class.TheVariants as class;
ghost use Rattle.rv_isa.specs.Kind.{class_of};
ghost use Rattle.machine.specs.Step.{target as target_of};
ghost use Rattle.qed_model.specs.Weave.Blocks.{begins_at as begins};
ghost use Rattle.qed_model.specs.Weave.Sequences.{guard, links};
ghost use Rattle.qed_model.specs.Weave.Lean.{opposite as opposite_of, check_way, taken, take_target, turn_leap, goes};
ghost use Rattle.qed_model.specs.Weave.LeanCode.{fall_words};
ghost use Rattle.plc_rounds.specs.Spans.{spans_of};
ghost use Rattle.block_split.specs.Listed.{block_of, end_of};
ghost use Rattle.weave.specs.Fits.{FitsEnd, FitsLeave};
ghost use Rattle.weave.specs.Handed.{Comes, Handed};
ghost use Rattle.lean.specs.Form.{lean_form, blocks_in};
ghost use Rattle.lean.specs.Leaves.{before, falls, over, leap, aim, guarded_leap, ecall_parts, lean_before_parts, lean_last_as, lean_last_items, IsNear};
ghost use Rattle.lean.specs.Leaves.{TurnsAs, Turns};

use crate::blocks::begins_at;
use crate::check::{put_called, put_check_distance, put_compare, put_look_again};
use crate::turn::{goes_size, put_goes, put_turn};
use crate::weaver::LeanWeaver;
use block_split::CodeBlock;
use end_sweep::put_checks;
use flow_tracking::{put_check_sign, put_links, put_look_up};
use passes::{Emit, plain, put_guard, target};
use qed_model::{Item, Range, Role};
use relinker::ItemSink;
use rv_isa::profile::{SIGNATURE, TEMPORARY};
use rv_isa::{Class, Ins, Kind, Reg, register};
use std::alloc::AllocError;
use weave::{PartSink, is_end};

/// The branch that is taken where another is not.
fn opposite(kind: Kind) -> Kind
    ensures { result ≡ opposite_of kind }
{
    match kind {
        Kind::Beq => Kind::Bne,
        Kind::Bne => Kind::Beq,
        Kind::Blt => Kind::Bge,
        Kind::Bge => Kind::Blt,
        Kind::Bltu => Kind::Bgeu,
        Kind::Bgeu => Kind::Bltu,
        _ => kind,
    }
}

/// Fires where a branch of some kind would not be taken on the pairs.
fn put_check_way(kind: Kind, ins: &Ins, out: &mut Emit) -> Result<(), AllocError>
    requires { FitsLeave class.Branch ins.now }
    ensures { OnOk result (out.new ≡ out.old ++ check_way kind ins.now) }
{
    let zero = register(0);
    out.put(&[
        plain(kind, zero, ins.rs1.pair(), ins.rs2.pair(), 8),
        plain(Kind::Ebreak, zero, zero, zero, 0),
    ])?;
    Ok(())
}

/// Leads behind a block: nothing, where one of the blocks stands there.
fn put_fall(blocks: &[CodeBlock], to: u64, out: &mut Emit) -> Result<(), AllocError>
    requires { AllPairs (λ b c. b.start < c.start) blocks.now }
    ensures { OnOk result (out.new ≡ out.old ++ fall_words (begins (map block_of blocks.now)) to) }
{
    if !begins_at(blocks, to) {
        out.push(Item::Go(to))?;
    }
    Ok(())
}

/// Turns the signature to the address behind a block, and leads there.
fn put_next(blocks: &[CodeBlock], start: u64, to: u64, out: &mut Emit) -> Result<(), AllocError>
    requires ascend { AllPairs (λ b c. b.start < c.start) blocks.now }
    requires near { IsNear start to }
    ensures { OnOk result (out.new ≡ out.old ++ falls (fall_words (begins (map block_of blocks.now))) start to) }
{
    put_turn(start, to, out)?;
    put_fall(blocks, to, out)
}

/// What stands before the end besides: with the sweep the comparison of all data words, and of all registers.
fn put_before(sweeps: bool, span: &[Range], out: &mut Emit) -> Result<(), AllocError>
    ensures { OnOk result (out.new ≡ out.old ++ before sweeps (spans_of span.now)) }
{
    if sweeps {
        put_checks(span, out)?;
    }
    Ok(())
}

impl<'a> LeanWeaver<'a> {
    /// Hands on what stands before an ECALL at `at`, in the block that begins at `start`.
    fn before_ecall<S: ItemSink>(
        &self,
        start: u64,
        at: u64,
        to: &mut PartSink<S>,
    ) -> Result<(), AllocError>
        requires { Comes (S.took to.old.sink) to.old.items (ecall_parts (lean_form self.now) self.now.distance start at) }
        ensures { OnOk result (Handed (S.took to.old.sink) (S.took to.new.sink) to.new.items (ecall_parts (lean_form self.now) self.now.distance start at)) }
    {
        put_compare(&mut to.items)?;
        to.end(Role::Sweep)?;
        put_check_distance(self.distance, &mut to.items)?;
        to.end(Role::Leave(at))?;
        put_check_sign(start, &mut to.items)?;
        to.end(Role::Sign(start))?;
        put_before(self.sweeps, self.visits.span.as_slice(), &mut to.items)?;
        to.end(Role::Sweep)?;
        Ok(())
    }

    /// Hands on what stands before the end at `at` of the block that begins at `start`, if it is an ECALL.
    pub(crate) fn before_end<S: ItemSink>(
        &self,
        end: &Option<Ins>,
        start: u64,
        at: u64,
        to: &mut PartSink<S>,
    ) -> Result<(), AllocError>
        requires { Comes (S.took to.old.sink) to.old.items (lean_before_parts (lean_form self.now) self.now.distance end.now start at) }
        ensures { OnOk result (Handed (S.took to.old.sink) (S.took to.new.sink) to.new.items
            (lean_before_parts (lean_form self.now) self.now.distance end.now start at)) }
    {
        if is_end(end) {
            self.before_ecall(start, at, to)?;
        }
        Ok(())
    }
}

/// The leave of a JAL.
fn put_jump(ins: &Ins, start: u64, at: u64, out: &mut Emit) -> Result<(), AllocError>
    requires fits { FitsLeave class.Jump ins.now }
    requires near { TurnsAs class.Jump ins.now start at }
    ensures { OnOk result (out.new ≡ out.old ++ (links ins.now at ++ goes start (target_of ins.now at))) }
{
    put_links(ins, at, out)?;
    put_goes(start, target(ins, at), out)
}

/// The way of a branch that is taken.
fn put_taken(ins: &Ins, start: u64, to: u64, out: &mut Emit) -> Result<(), AllocError>
    requires fits { FitsLeave class.Branch ins.now }
    requires near { IsNear start to }
    ensures { OnOk result (out.new ≡ out.old ++ taken ins.now start to) }
{
    put_check_way(ins.kind, ins, out)?;
    put_goes(start, to, out)
}

/// The branch over the way that is taken, and that way.
fn put_over(ins: &Ins, start: u64, to: u64, out: &mut Emit) -> Result<(), AllocError>
    requires fits { FitsLeave class.Branch ins.now }
    requires near { IsNear start to }
    ensures { OnOk result (out.new ≡ out.old ++ over ins.now start to) }
{
    let skip = (12 + goes_size(start, to)).cast_signed();
    let over = plain(opposite(ins.kind), register(0), ins.rs1, ins.rs2, skip);
    out.push(over)?;
    put_taken(ins, start, to, out)
}

/// The way of a branch that is not taken, to the address behind it.
fn put_missed(
    blocks: &[CodeBlock],
    ins: &Ins,
    start: u64,
    next: u64,
    out: &mut Emit,
) -> Result<(), AllocError>
    requires ascend { AllPairs (λ b c. b.start < c.start) blocks.now }
    requires fits { FitsLeave class.Branch ins.now }
    requires near { IsNear start next }
    ensures { OnOk result (out.new ≡ out.old ++ (check_way (opposite_of ins.now.kind) ins.now
        ++ falls (fall_words (begins (map block_of blocks.now))) start next)) }
{
    put_check_way(opposite(ins.kind), ins, out)?;
    put_next(blocks, start, next, out)
}

/// The leave of a branch: by the originals to one of both ways.
fn put_branch(
    blocks: &[CodeBlock],
    ins: &Ins,
    start: u64,
    at: u64,
    out: &mut Emit,
) -> Result<(), AllocError>
    requires ascend { AllPairs (λ b c. b.start < c.start) blocks.now }
    requires fits { FitsLeave class.Branch ins.now }
    requires near { TurnsAs class.Branch ins.now start at }
    ensures { OnOk result (out.new ≡ out.old ++ lean_last_as 0 (fall_words (begins (map block_of blocks.now))) class.Branch ins.now start at) }
{
    put_over(ins, start, target(ins, at), out)?;
    put_missed(blocks, ins, start, at.wrapping_add(4), out)
}

/// Takes the target of a JALR by a register, its own or the pair.
fn put_target(ins: &Ins, from: Reg, out: &mut Emit) -> Result<(), AllocError>
    ensures { OnOk result (out.new ≡ out.old ++ take_target ins.now from) }
{
    let (zero, to) = (register(0), register(TEMPORARY));
    out.put(&[
        plain(Kind::Addi, to, from, zero, ins.imm),
        plain(Kind::Andi, to, to, zero, -2),
    ])?;
    Ok(())
}

/// Turns the signature to the target of a JALR by the pair.
fn put_turn_leap(ins: &Ins, start: u64, out: &mut Emit) -> Result<(), AllocError>
    requires { FitsLeave class.JumpReg ins.now }
    ensures { OnOk result (out.new ≡ out.old ++ turn_leap ins.now start) }
{
    put_target(ins, ins.rs1.pair(), out)?;
    let (sign, address) = (register(SIGNATURE), register(TEMPORARY));
    out.put(&[
        plain(Kind::Add, sign, sign, address, 0),
        Item::Constant(address, start),
        plain(Kind::Sub, sign, sign, address, 0),
    ])?;
    Ok(())
}

/// The jump of a JALR to the target in x30, which has to be the signature: its return addresses, and both look-ups.
fn put_leap(distance: u64, ins: &Ins, at: u64, out: &mut Emit) -> Result<(), AllocError>
    requires half { distance < 2 ^ 63 }
    requires fits { FitsLeave class.JumpReg ins.now }
    ensures { OnOk result (out.new ≡ out.old ++ leap distance ins.now at) }
{
    put_called(out)?;
    put_links(ins, at, out)?;
    put_look_up(register(TEMPORARY), out)?;
    put_look_again(distance, out)
}

/// The target of a JALR by the original, and the jump there.
fn put_aim(distance: u64, ins: &Ins, at: u64, out: &mut Emit) -> Result<(), AllocError>
    requires half { distance < 2 ^ 63 }
    requires fits { FitsLeave class.JumpReg ins.now }
    ensures { OnOk result (out.new ≡ out.old ++ aim distance ins.now at) }
{
    put_target(ins, ins.rs1, out)?;
    put_leap(distance, ins, at, out)
}

/// The leave of a JALR from the test of the distance on: the guard of the original, and the jump.
fn put_guarded_leap(distance: u64, ins: &Ins, at: u64, out: &mut Emit) -> Result<(), AllocError>
    requires half { distance < 2 ^ 63 }
    requires fits { FitsLeave class.JumpReg ins.now }
    ensures { OnOk result (out.new ≡ out.old ++ guarded_leap distance ins.now at) }
{
    put_check_distance(distance, out)?;
    put_guard(out, ins.rs1)?;
    put_aim(distance, ins, at, out)
}

impl<'a> LeanWeaver<'a> {
    /// The leave of a JALR: the pair turns the signature, and the original gives the target.
    fn put_indirect(&self, ins: &Ins, start: u64, at: u64, out: &mut Emit) -> Result<(), AllocError>
        requires { FitsLeave class.JumpReg ins.now }
        ensures { OnOk result (out.new ≡ out.old ++ (turn_leap ins.now start ++ guarded_leap self.now.distance ins.now at)) }
    {
        put_turn_leap(ins, start, out)?;
        put_guarded_leap(self.distance, ins, at, out)
    }

    /// The leave of an instruction at `at`, which ends the block that begins at `start`, after what precedes an ECALL.
    fn put_stop(&self, ins: &Ins, start: u64, at: u64, out: &mut Emit) -> Result<(), AllocError>
        requires fits { FitsLeave (class_of ins.now.kind) ins.now }
        requires near { TurnsAs (class_of ins.now.kind) ins.now start at }
        ensures { OnOk result (out.new ≡ out.old
            ++ lean_last_as self.now.distance (fall_words (begins (blocks_in self.now))) (class_of ins.now.kind) ins.now start at) }
    {
        match ins.class() {
            Class::Jump => put_jump(ins, start, at, out)?,
            Class::Branch => put_branch(self.blocks, ins, start, at, out)?,
            Class::JumpReg => self.put_indirect(ins, start, at, out)?,
            _ => out.push(Item::Plain(*ins))?,
        }
        Ok(())
    }

    /// The leave of a block that begins at `start` and has its end at `at`, without what stands before an ECALL.
    pub(crate) fn put_leave(
        &self,
        end: &Option<Ins>,
        start: u64,
        at: u64,
        out: &mut Emit,
    ) -> Result<(), AllocError>
        requires fits { FitsEnd end.now }
        requires near { Turns (end_of end.now) start at }
        ensures { OnOk result (out.new ≡ out.old ++ lean_last_items self.now.distance (fall_words (begins (blocks_in self.now))) end.now start at) }
    {
        match end {
            None => put_next(self.blocks, start, at, out)?,
            Some(ins) => self.put_stop(ins, start, at, out)?,
        }
        Ok(())
    }
}
