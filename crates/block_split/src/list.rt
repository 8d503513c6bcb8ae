//! The list of the blocks.
ghost use Rattle.std.specs.Prelude.{◌≡◌, ℕ, ◌+◌, ◌≤◌, ◌↔◌, All, IfOk, IsTrue, OnOk, length, map};
ghost use Rattle.machine.specs.Sets.{has_address};
ghost use Rattle.flow_recovery.specs.Sets.{lists};
ghost use Rattle.machine.specs.Numbers.{is_at};
ghost use Rattle.elf_types.specs.declared.file.ElfFile.{ElfFile};
ghost use Rattle.tests.specs.declared.options.Entries.TheVariants as entries;
ghost use Rattle.tests.specs.Admission.Leaders.{HasIndirect};
ghost use Rattle.tests.specs.Admission.Test.{AreCodeWords, IsTestOf};
ghost use Rattle.qed_model.specs.Weave.Blocks.{AreBlocks};
ghost use Rattle.qed_model.specs.Weave.SoundOptions.{AreSoundOptions};
ghost use Rattle.block_split.specs.Built.{first, behind, AreAlong, IsLongBlock, IsShortBlock, AddsBlock, Built};
ghost use Rattle.block_split.specs.Listed.{block_of, IsWithinTop};

use crate::block::{Blocks, CodeBlock};
use crate::bodies::{ends, first_body, is_at};
use crate::split;
use elf_types::{ElfFile, Listed};
use flow_recovery::{entered, has_indirect, leaders};
use qed_model::{CodeWord, Entries, Options, Test};
use rv_isa::Ins;
use std::alloc::{AllocError, Global};
use std::collections::BTreeSet;

/// The instructions of these words.
fn instructions(alloc: Global, words: &[CodeWord]) -> Result<Vec<Ins>, AllocError>
    ensures { IfOk result (λ list. list.items ≡ map (λ c. c.ins) words.now) }
{
    words.iter().map(|word| word.ins).collect(alloc)
}

/// How blocks are made of words.
#[derive(Clone, Copy)]
pub(crate) struct Cutting<'a> {
    /// Whether a word that is at no leader is a block.
    every: bool,
    /// The addresses that are reached.
    reached: &'a BTreeSet<u64>,
    options: &'a Options,
}

/// The block that begins with the first of these words, which is at a leader. The first leader behind it is `next`.
fn long_block(
    alloc: Global,
    words: &[CodeWord],
    next: Option<u64>,
    cutting: &Cutting<'_>,
) -> Result<CodeBlock, AllocError>
    requires some { 1 ≤ length words.now }
    requires sound { AreSoundOptions cutting.now.options.now }
    ensures { IfOk result (IsLongBlock (is_at next) (has_address cutting.now.reached.now) cutting.now.options.now.inst_max words.now) }
{
    let found = first_body(words, next);
    let body = instructions(alloc, &words[..found.size])?;
    let (least, most) = (cutting.options.inst_min, cutting.options.inst_max);
    let lengths = split(alloc, &body, least, most)?;
    Ok(CodeBlock {
        start: words[0].at,
        body: Listed::of(body),
        lengths: Listed::of(lengths),
        end: found.end,
        reached: cutting.reached.contains(&words[0].at),
    })
}

/// The block of a word that is at no leader: an empty piece and the end, or a piece of one instruction.
fn short_block(alloc: Global, word: &CodeWord) -> Result<CodeBlock, AllocError>
    ensures { IfOk result (IsShortBlock word.now) }
{
    let mut body = Vec::new(alloc);
    let mut lengths = Vec::new(alloc);
    if ends(word) {
        lengths.push(0)?;
        return Ok(CodeBlock {
            start: word.at,
            body: Listed::of(body),
            lengths: Listed::of(lengths),
            end: Some(word.ins),
            reached: false,
        });
    }
    body.push(word.ins)?;
    lengths.push(1)?;
    Ok(CodeBlock {
        start: word.at,
        body: Listed::of(body),
        lengths: Listed::of(lengths),
        end: None,
        reached: false,
    })
}

/// Adds the block that begins with the first of these words, if one does; `leads` says whether it is a leader.
#[tactic(auto, using(crate::proofs::BuiltLaws::adds_long, crate::proofs::BuiltLaws::adds_short, crate::proofs::BuiltLaws::adds_none))]
fn push_block(
    blocks: &mut Vec<CodeBlock>,
    words: &[CodeWord],
    leads: bool,
    next: Option<u64>,
    cutting: &Cutting<'_>,
) -> Result<(), AllocError>
    requires some { 1 ≤ length words.now }
    requires sound { AreSoundOptions cutting.now.options.now }
    ensures { OnOk result (AddsBlock leads (is_at next) cutting.now.every
        (has_address cutting.now.reached.now) cutting.now.options.now.inst_max words.now blocks.old.items blocks.new.items) }
{
    let alloc = *blocks.allocator();
    if leads {
        blocks.push(long_block(alloc, words, next, cutting)?)?;
    } else if cutting.every {
        blocks.push(short_block(alloc, &words[0])?)?;
    }
    Ok(())
}

/// The first of some leaders.
fn first(leaders: &[u64]) -> Option<u64>
    ensures { result ≡ first leaders.now }
{
    match leaders {
        [leader, ..] => Some(*leader),
        [] => None,
    }
}

/// The leaders behind an address, of leaders from it on.
fn behind(address: u64, leaders: &[u64]) -> &[u64]
    ensures { result.now ≡ behind address leaders.now }
{
    match leaders {
        [leader, rest @ ..] if *leader == address => rest,
        _ => leaders,
    }
}

/// The blocks of words, with the leaders at them.
#[tactic(auto, using(std::proofs::lemmas::List::take_rest, crate::proofs::BuiltLaws::all_built, crate::proofs::BuiltLaws::next_built))]
pub(crate) fn list(
    alloc: Global,
    words: &[CodeWord],
    leaders: &[u64],
    cutting: &Cutting<'_>,
) -> Result<Vec<CodeBlock>, AllocError>
    requires sound { AreSoundOptions cutting.now.options.now }
    requires along { AreAlong words.now leaders.now }
    ensures { IfOk result (λ blocks. Built (lists leaders.now) cutting.now.every
        (has_address cutting.now.reached.now) cutting.now.options.now.inst_max words.now blocks.items) }
{
    let mut blocks = Vec::new(alloc);
    let mut left = leaders;
    for at in 0..words.len() {
        let address = words[at].at;
        let leads = is_at(first(left), address);
        left = behind(address, left);
        push_block(&mut blocks, &words[at..], leads, first(left), cutting)?;
    }
    Ok(blocks)
}

/// Whether every code address has a block: when the code has a JALR and all addresses have entries.
fn has_every(test: &Test, options: &Options) -> bool
    ensures { (f : ElfFile) → AreCodeWords f test.now.code → IsTrue result ↔ ((options.now.entries ≡ entries.All) × HasIndirect f) }
{
    match options.entries {
        Entries::All => has_indirect(test),
        Entries::Reached => false,
    }
}

/// The blocks of the file that `test` is, in ascending order: one for each leader. If the code has
/// a JALR and all code addresses have entries, each other code address has one too. The lengths of
/// a block's pieces add up to its body's. If the code ends at `top` or below, so do the bodies.
pub fn blocks(
    alloc: Global,
    test: &Test,
    file: &ElfFile,
    options: &Options,
) -> Result<Blocks, AllocError>
    requires test { IsTestOf file.now options.now test.now }
    requires sound { AreSoundOptions options.now }
    ensures exact { IfOk result (λ blocks. AreBlocks file.now options.now (map block_of blocks)) }
    ensures within { IfOk result (λ blocks. (top : ℕ) → All (λ c. c.at + 4 ≤ top) test.now.code → All (IsWithinTop top) blocks) }
{
    let leaders = leaders(alloc, test, file, options)?;
    let every = has_every(test, options);
    let reached = entered(alloc, test, file, options)?;
    let cutting = Cutting {
        every,
        reached: &reached,
        options,
    };
    let list = list(alloc, test.code.as_slice(), leaders.as_slice(), &cutting)?;
    Ok(Listed::of(list))
}
