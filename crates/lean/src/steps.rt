//! The most steps of a block.
ghost use Rattle.std.specs.Prelude.{◌≡◌, ◌+◌, ◌*◌, ◌^◌, ◌<◌, ◌≤◌, ℕ, false, true, cond, AllPairs, map};
ghost use Rattle.rv_isa.specs.Kind.{class_of};
ghost use Rattle.qed_model.specs.Weave.Blocks.{begins_at as begins};
ghost use Rattle.qed_model.specs.Weave.Placed.{sum_of_sizes};
ghost use Rattle.qed_model.specs.Weave.Sequences.{guard, links};
ghost use Rattle.qed_model.specs.Weave.Costs.{cost_each, original_cost, mirror_steps as mirror_cost, spent as spent_of};
ghost use Rattle.qed_model.specs.Weave.Lean.{cost, is_break, leave_cost, leave_cost_as};
ghost use Rattle.qed_model.specs.Weave.LeanCode.{fall_to, fall_words, mirror_steps_of, store_steps as store_cost, both_steps as both_cost};
ghost use Rattle.qed_model.specs.Weave.LeanCode.{block_steps as block_cost};
ghost use Rattle.block_split.specs.Listed.{block_of, end_of};
ghost use Rattle.relinker.specs.Counted.{capped};
ghost use Rattle.weave.specs.Fits.{FitsBlock};

use crate::blocks::begins_at;
use crate::piece::is_store;
use crate::turn::turn_steps;
use block_split::CodeBlock;
use passes::target;
use qed_model::steps::entry_steps;
use rv_isa::{Class, Ins, Kind, Reg};

/// The steps of the original part of an instruction.
fn original_steps(ins: &Ins) -> u64
    ensures { result ≡ original_cost ins.now }
{
    if ins.kind == Kind::Auipc {
        return 2;
    }
    match ins.class() {
        Class::Load => 2,
        Class::Store => if ins.rs2 == ins.rs1 { 2 } else { 3 },
        _ => 1,
    }
}

/// The steps of its mirror part, of the same kind.
fn mirror_steps(ins: &Ins) -> u64
    ensures { result ≡ mirror_cost ins.now }
{
    if ins.kind == Kind::Auipc {
        return 2;
    }
    match ins.class() {
        Class::Compute => 1,
        Class::Load => 2,
        Class::Store => 2,
        _ => 0,
    }
}

/// The most steps of its mirror part of other kinds.
fn diverse_steps(ins: &Ins) -> u64
    ensures { result ≡ mirror_steps_of true ins.now }
{
    if ins.kind == Kind::Auipc {
        return 5;
    }
    match ins.class() {
        Class::Compute => 7,
        _ => 5,
    }
}

/// The steps of a store in both halves.
fn store_steps(ins: &Ins) -> u64
    ensures value { result ≡ store_cost ins.now }
    ensures bound { result ≤ 6 }
{
    if ins.rs2 == ins.rs1 || ins.rs2.number() == 0 {
        5
    } else {
        6
    }
}

/// The steps of both parts.
fn both_steps(diverse: bool, ins: &Ins) -> u64
    ensures value { result ≡ both_cost diverse ins.now }
    ensures bound { result ≤ 16 }
{
    if is_store(ins) {
        return store_steps(ins);
    }
    let mirror = if diverse {
        diverse_steps(ins)
    } else {
        mirror_steps(ins)
    };
    original_steps(ins) + mirror
}

/// The steps of a body, 2^64 - 1 at most.
fn body_steps(diverse: bool, body: &[Ins]) -> u64
    ensures { result ≡ capped (cost_each (both_cost diverse) body.now) }
{
    let mut total = 0u64;
    for ins in body {
        total = total.saturating_add(both_steps(diverse, ins));
    }
    total
}

/// The steps that lead behind a block, of 4 bytes each: none, where a block stands there.
pub(crate) fn fall_steps(blocks: &[CodeBlock], to: u64) -> u64
    requires { AllPairs (λ b c. b.start < c.start) blocks.now }
    ensures value { result ≡ cost (fall_to (begins (map block_of blocks.now)) to) }
    ensures size { 4 * result ≡ sum_of_sizes false (fall_words (begins (map block_of blocks.now)) to) }
    ensures bound { result ≤ 1 }
{
    if begins_at(blocks, to) { 0 } else { 1 }
}

/// The steps of a guard.
fn guard_steps(r: Reg) -> u64
    ensures value { result ≡ cost (guard r) }
    ensures bound { result ≤ 1 }
{
    if r.number() == 0 { 0 } else { 1 }
}

/// The steps of the return addresses of a jump.
fn links_steps(ins: &Ins) -> u64
    ensures value { (at : ℕ) → cost (links ins.now at) ≡ result }
    ensures bound { result ≤ 4 }
{
    if ins.rd.number() == 0 { 0 } else { 4 }
}

/// The step of an instruction, unless it is an EBREAK.
fn own_step(ins: &Ins) -> u64
    ensures value { result ≡ cond (is_break ins.now.kind) 0 1 }
    ensures bound { result ≤ 1 }
{
    if ins.kind == Kind::Ebreak { 0 } else { 1 }
}

/// The most steps of a branch at `at`, in the block that begins at `start`.
fn branch_steps(blocks: &[CodeBlock], ins: &Ins, start: u64, at: u64) -> u64
    requires { AllPairs (λ b c. b.start < c.start) blocks.now }
    ensures value { result ≡ leave_cost_as (fall_to (begins (map block_of blocks.now))) Class.Branch ins.now start at }
    ensures bound { result ≤ 27 }
{
    let next = at.wrapping_add(4);
    let taken = turn_steps(start, target(ins, at)) + 1;
    let falls = turn_steps(start, next) + fall_steps(blocks, next);
    2 + if taken < falls { falls } else { taken }
}

/// The most steps of an instruction that ends a block.
fn stop_steps(blocks: &[CodeBlock], ins: &Ins, start: u64, at: u64) -> u64
    requires { AllPairs (λ b c. b.start < c.start) blocks.now }
    ensures value { result ≡ leave_cost_as (fall_to (begins (map block_of blocks.now))) (class_of ins.now.kind) ins.now start at }
    ensures bound { result ≤ 27 }
{
    match ins.class() {
        Class::End => 18 + own_step(ins),
        Class::Jump => links_steps(ins) + turn_steps(start, target(ins, at)) + 1,
        Class::Branch => branch_steps(blocks, ins, start, at),
        Class::JumpReg => 22 + guard_steps(ins.rs1) + links_steps(ins),
        _ => own_step(ins),
    }
}

/// The most steps of the leave of a block whose end stands at `at`.
fn leave_steps(blocks: &[CodeBlock], end: &Option<Ins>, start: u64, at: u64) -> u64
    requires { AllPairs (λ b c. b.start < c.start) blocks.now }
    ensures value { result ≡ leave_cost (fall_to (begins (map block_of blocks.now))) (end_of end.now) start at }
    ensures bound { result ≤ 27 }
{
    match end {
        None => turn_steps(start, at) + fall_steps(blocks, at),
        Some(ins) => stop_steps(blocks, ins, start, at),
    }
}

/// The most steps of one of the blocks.
pub(crate) fn block_steps(diverse: bool, land: bool, blocks: &[CodeBlock], block: &CodeBlock) -> u64
    requires ascend { AllPairs (λ b c. b.start < c.start) blocks.now }
    requires fits { FitsBlock block.now }
    requires few { block_cost diverse land (begins (map block_of blocks.now)) (block_of block.now) < 2048 }
    ensures { result ≡ block_cost diverse land (begins (map block_of blocks.now)) (block_of block.now) }
{
    let body = block.body.as_slice();
    let at = block.start + 4 * body.len() as u64;
    let leave = leave_steps(blocks, &block.end, block.start, at);
    body_steps(diverse, body).saturating_add(leave + entry_steps(land))
}
