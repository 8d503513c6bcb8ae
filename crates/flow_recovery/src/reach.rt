//! Which words of the code are reached.
ghost use Rattle.std.specs.Prelude.{◌≡◌, ℕ, true, map, OnOk, IfOk};
ghost use Rattle.std.specs.List.{list_any};
ghost use Rattle.machine.specs.Sets.{has_address};
ghost use Rattle.flow_recovery.specs.Sets.{lists, has_word_at, Adds, AddsAt};
ghost use Rattle.tests.specs.Admission.Reached.{links_to, is_reached};

use crate::classes::is_jump;
use crate::named::{add_relocations, add_symbols};
use crate::pointers::made;
use crate::sets::{add, add_all, set_of};
use crate::stored::add_data;
use elf_types::ElfFile;
use qed_model::{CodeWord, Test};
use std::alloc::{AllocError, Global};
use std::collections::BTreeSet;

/// Adds the address behind a linking jump.
fn add_link(list: &mut Vec<u64>, word: &CodeWord) -> Result<(), AllocError>
    ensures { OnOk result (Adds list.old.items list.new.items (links_to word.now)) }
{
    if is_jump(word.ins.class()) && word.ins.rd.number() != 0 {
        add(list, word.at.wrapping_add(4))?;
    }
    Ok(())
}

/// Adds the addresses behind all linking jumps.
fn add_links(list: &mut Vec<u64>, words: &[CodeWord]) -> Result<(), AllocError>
    ensures { OnOk result (Adds list.old.items list.new.items (λ a. list_any (λ c. links_to c a) words.now)) }
{
    for word in words {
        add_link(list, word)?;
    }
    Ok(())
}

/// Adds the reached addresses that are code.
#[tactic(auto, using(crate::proofs::ReachLaws::reached_found))]
pub(crate) fn add_reached(
    list: &mut Vec<u64>,
    test: &Test,
    file: &ElfFile,
) -> Result<(), AllocError>
    ensures { OnOk result (AddsAt test.now.code list.old.items list.new.items (is_reached file.now test.now)) }
{
    let (symbols, relas) = (file.symbols.as_slice(), file.relas.as_slice());
    add(list, test.entry)?;
    add_links(list, test.code.as_slice())?;
    add_symbols(list, symbols)?;
    add_relocations(list, symbols, relas)?;
    add_data(list, test.base, test.segments.as_slice())?;
    let made = made(*list.allocator(), test)?;
    add_all(list, &made)?;
    Ok(())
}

/// The reached addresses.
#[tactic(auto, using(crate::proofs::SetLaws::at_first))]
fn listed(alloc: Global, test: &Test, file: &ElfFile) -> Result<Vec<u64>, AllocError>
    ensures { IfOk result (λ list. (a : ℕ) → has_word_at test.now.code a ≡ true → lists list.items a ≡ is_reached file.now test.now a) }
{
    let mut list = Vec::new(alloc);
    add_reached(&mut list, test, file)?;
    Ok(list)
}

/// For each word, whether the set has its address.
fn marks(alloc: Global, set: &BTreeSet<u64>, words: &[CodeWord]) -> Result<Vec<bool>, AllocError>
    ensures { IfOk result (λ marks. marks.items ≡ map (λ c. has_address set.now c.at) words.now) }
{
    words
        .iter()
        .map(|word| set.contains(&word.at))
        .collect(alloc)
}

/// For each word of a test's code, whether it is reached: whether an indirect jump may lead to it,
/// as the test's `file` shows. An Err is want of memory.
pub fn reached(alloc: Global, test: &Test, file: &ElfFile) -> Result<Vec<bool>, AllocError>
    ensures { IfOk result (λ marks. marks.items ≡ map (λ c. is_reached file.now test.now c.at) test.now.code) }
{
    let list = listed(alloc, test, file)?;
    let set = set_of(alloc, list)?;
    let marks = marks(alloc, &set, test.code.as_slice())?;
    Ok(marks)
}
