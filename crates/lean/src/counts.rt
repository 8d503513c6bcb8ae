//! Which blocks have a tick, and how many steps it counts: from the last block to the first, since a tick also counts
//! the steps of blocks behind that have none.
ghost use Rattle.std.specs.Prelude.{◌≡◌, ◌+◌, ◌-◌, ◌*◌, ◌%◌, ◌^◌, ◌<◌, ◌≤◌, ℕ, ◌==◌, ◌∷◌, List, All, AllPairs, IfOk, OnOk, map, min};
ghost use Rattle.qed_model.specs.declared.steps.TheConstants.{LEAN_LEAVE_STEPS, MOST_OWED};
ghost use Rattle.rv_isa.specs.Kind.{class_of};
ghost use Rattle.elf_types.specs.declared.file.ElfFile.{ElfFile};
ghost use Rattle.qed_model.specs.Weave.Blocks.{begins_at as begins};
ghost use Rattle.qed_model.specs.Weave.LeanBounds.{cost_of, entry_steps as entry_steps_of};
ghost use Rattle.qed_model.specs.Weave.LeanCode.{block_steps as block_cost, leads_on, leads_as, owed_as as owed_as_of, owed_behind as owed_behind_of};
ghost use Rattle.qed_model.specs.Weave.LeanCode.{needs_tick as needs_tick_of, counting_of, tick_rows, has_tick, most_at};
ghost use Rattle.qed_model.specs.Weave.Sequences.{Block};
ghost use Rattle.block_split.specs.Listed.{block_of, end_of};
ghost use Rattle.weave.specs.Fits.{FitsBlock};
ghost use Rattle.lean.specs.Code.{IsLeanCut};
ghost use Rattle.lean.specs.Counts.{ticks_in, most_in, owed_in, AddsTo, counting, AreCounts};

use crate::steps::block_steps;
use block_split::CodeBlock;
use passes::target;
use qed_model::steps::{LEAN_LEAVE_STEPS, MOST_OWED, entry_steps, lean_instruction_steps};
use qed_model::{Options, Test};
use rv_isa::{Class, Ins};
use std::alloc::{AllocError, Global};
use std::collections::{BTreeMap, BTreeSet};

/// What is counted of a block.
#[derive(Clone, Copy)]
pub(crate) struct Counted {
    /// It has a tick.
    pub(crate) ticks: bool,
    /// The most steps from its entry to the next tick.
    pub(crate) most: u64,
}

/// What is counted of blocks, by where they begin.
pub(crate) type Counts = BTreeMap<u64, Counted>;

/// What the ticks depend on besides each block.
#[derive(Clone, Copy)]
pub(crate) struct Terms<'a> {
    /// Mirror parts are of other kinds.
    pub(crate) diverse: bool,
    /// Each entry tests the signature.
    pub(crate) land: bool,
    /// All blocks of the test.
    pub(crate) blocks: &'a [CodeBlock],
    /// Where the test begins.
    pub(crate) entry: u64,
    /// The most steps that are left to the tick before.
    pub(crate) room: u64,
}

/// What is counted of the block that begins at an address.
pub(crate) fn counted_at(counts: &Counts, address: u64) -> Counted
    ensures ticks { result.ticks ≡ ticks_in counts.now address }
    ensures most { result.most ≡ most_in counts.now address }
{
    match counts.get(&address) {
        Some(counted) => *counted,
        None => Counted {
            ticks: true,
            most: 0,
        },
    }
}

/// The steps behind the entry of an address that the tick before it has to count: none, where it has its own.
fn owed_at(counts: &Counts, address: u64) -> u64
    ensures { result ≡ owed_in counts.now address }
{
    let counted = counted_at(counts, address);
    if counted.ticks { 0 } else { counted.most }
}

/// The most of these behind an instruction that ends a block, where no address has more than `room`.
fn owed_by(counts: &Counts, room: u64, ins: &Ins, at: u64) -> u64
    ensures { result ≡ owed_as_of room (owed_in counts.now) (class_of ins.now.kind) ins.now at }
{
    match ins.class() {
        Class::Jump => owed_at(counts, target(ins, at)),
        Class::Branch => {
            let taken = owed_at(counts, target(ins, at));
            let falls = owed_at(counts, at.wrapping_add(4));
            if taken < falls { falls } else { taken }
        }
        Class::JumpReg => room,
        _ => 0,
    }
}

/// The most of these behind a block whose end stands at `at`.
fn owed_behind(counts: &Counts, room: u64, end: &Option<Ins>, at: u64) -> u64
    ensures { result ≡ owed_behind_of room (owed_in counts.now) (end_of end.now) at }
{
    match end {
        None => owed_at(counts, at),
        Some(ins) => owed_by(counts, room, ins, at),
    }
}

/// Adds an address.
fn add_goal(goals: &mut BTreeSet<u64>, address: u64) -> Result<(), AllocError>
    ensures { OnOk result (AddsTo goals.old goals.new (λ a. address == a)) }
{
    goals.insert(address)?;
    Ok(())
}

/// Adds the addresses to which a branch at `at` leads.
fn add_ways(goals: &mut BTreeSet<u64>, ins: &Ins, at: u64) -> Result<(), AllocError>
    ensures { OnOk result (AddsTo goals.old goals.new (leads_as Class.Branch ins.now at)) }
{
    add_goal(goals, at.wrapping_add(4))?;
    add_goal(goals, target(ins, at))?;
    Ok(())
}

/// Adds the addresses to which an instruction leads that ends a block, but by a register.
fn add_goals_of(goals: &mut BTreeSet<u64>, ins: &Ins, at: u64) -> Result<(), AllocError>
    ensures { OnOk result (AddsTo goals.old goals.new (leads_as (class_of ins.now.kind) ins.now at)) }
{
    match ins.class() {
        Class::Jump => add_goal(goals, target(ins, at))?,
        Class::Branch => add_ways(goals, ins, at)?,
        _ => {}
    }
    Ok(())
}

/// Adds the addresses to which a block leads whose end stands at `at`, but by a register.
fn add_goals(goals: &mut BTreeSet<u64>, end: &Option<Ins>, at: u64) -> Result<(), AllocError>
    ensures { OnOk result (AddsTo goals.old goals.new (leads_on (end_of end.now) at)) }
{
    match end {
        None => add_goal(goals, at)?,
        Some(ins) => add_goals_of(goals, ins, at)?,
    }
    Ok(())
}

/// Whether a block needs a tick: the first of the test, one to which a block from there on leads, and one with too many
/// steps from there on.
fn needs_tick(terms: &Terms, block: &CodeBlock, behind: bool, most: u64) -> bool
    ensures { result ≡ needs_tick_of (counting terms.now) (block_of block.now) behind most }
{
    block.start == terms.entry || behind || terms.room < most
}

/// Counts a block, where those behind it are counted, and adds the addresses to which it leads.
fn count(
    terms: &Terms,
    block: &CodeBlock,
    counts: &mut Counts,
    goals: &mut BTreeSet<u64>,
) -> Result<(), AllocError>
    requires ascend { AllPairs (λ b c. b.start < c.start) terms.now.blocks.now }
    requires fits { FitsBlock block.now }
    requires few { block_cost terms.now.diverse terms.now.land (begins (map block_of terms.now.blocks.now)) (block_of block.now) < 2048 }
    requires room { terms.now.room ≤ 48 }
    ensures { OnOk result ((bs : List Block) → AreCounts (counting terms.now) bs counts.old goals.old
        → AreCounts (counting terms.now) (block_of block.now ∷ bs) counts.new goals.new) }
{
    let at = block.start + 4 * block.body.as_slice().len() as u64;
    let own = block_steps(terms.diverse, terms.land, terms.blocks, block);
    let most = own.saturating_add(owed_behind(counts, terms.room, &block.end, at));
    add_goals(goals, &block.end, at)?;
    let ticks = needs_tick(terms, block, goals.contains(&block.start), most);
    counts.insert(block.start, Counted { ticks, most })?;
    Ok(())
}

/// Counts all blocks, from the last to the first.
fn counts_in(alloc: Global, terms: &Terms) -> Result<Counts, AllocError>
    requires ascend { AllPairs (λ b c. b.start < c.start) terms.now.blocks.now }
    requires fit { All FitsBlock terms.now.blocks.now }
    requires few { All (λ b. block_cost terms.now.diverse terms.now.land
        (begins (map block_of terms.now.blocks.now)) (block_of b) < 2048) terms.now.blocks.now }
    requires room { terms.now.room ≤ 48 }
    ensures ticks { IfOk result (λ counts. (a : ℕ) → ticks_in counts a ≡ has_tick (tick_rows (counting terms.now) (map block_of terms.now.blocks.now)) a) }
    ensures most { IfOk result (λ counts. (a : ℕ) → most_in counts a ≡ most_at (tick_rows (counting terms.now) (map block_of terms.now.blocks.now)) a) }
{
    let mut counts = BTreeMap::new(alloc);
    let mut goals = BTreeSet::new(alloc);
    let mut left = terms.blocks.len();
    while left > 0 {
        left -= 1;
        count(terms, &terms.blocks[left], &mut counts, &mut goals)?;
    }
    Ok(counts)
}

/// How many steps may be left to the tick before: a period less those that a block has at most, but 48 at most.
fn room(options: &Options, every: u64) -> u64
    requires { every ≤ 2047 }
    ensures value { result ≡ min (every - (entry_steps_of options.now.land + (LEAN_LEAVE_STEPS + 1)
        + cost_of options.now.diverse * options.now.inst_max)) MOST_OWED }
    ensures bound { result ≤ 48 }
{
    let body = lean_instruction_steps(options.diverse).saturating_mul(options.inst_max);
    let left = every.saturating_sub(body.saturating_add(
        entry_steps(options.land) + LEAN_LEAVE_STEPS + 1,
    ));
    if left < MOST_OWED { left } else { MOST_OWED }
}

/// Which blocks of a test in the lean form have a tick, and how many steps each counts; a block without one counts for
/// the ticks before it. It takes time with the instructions, and for each block searches among them.
///
/// Errors: want of memory.
pub(crate) fn counts_of(
    alloc: Global,
    test: &Test,
    options: &Options,
    every: u64,
    blocks: &[CodeBlock],
) -> Result<Counts, AllocError>
    requires { (f : ElfFile) × IsLeanCut f options.now every test.now blocks.now }
    ensures ticks { IfOk result (λ counts. (a : ℕ) → ticks_in counts a
        ≡ has_tick (tick_rows (counting_of options.now test.now.entry every (map block_of blocks.now)) (map block_of blocks.now)) a) }
    ensures most { IfOk result (λ counts. (a : ℕ) → most_in counts a
        ≡ most_at (tick_rows (counting_of options.now test.now.entry every (map block_of blocks.now)) (map block_of blocks.now)) a) }
    ensures bound { IfOk result (λ counts. (a : ℕ) → most_in counts a < 2 ^ 63) }
{
    let terms = Terms {
        diverse: options.diverse,
        land: options.land,
        blocks,
        entry: test.entry,
        room: room(options, every),
    };
    let counts = counts_in(alloc, &terms)?;
    Ok(counts)
}
