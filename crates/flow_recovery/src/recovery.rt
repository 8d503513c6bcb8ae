//! The leaders of a test.
ghost use Rattle.std.specs.Prelude.{◌≡◌, ℕ, ◌<◌, ◌^◌, ◌↔◌, true, All, AllPairs, OnOk, IfOk, IsTrue, filter, map};
ghost use Rattle.std.specs.List.{list_any};
ghost use Rattle.rv_isa.specs.Kind.{class_of};
ghost use Rattle.elf_types.specs.declared.file.ElfFile.{ElfFile};
ghost use Rattle.tests.specs.Admission.CodeWords.{is_code};
ghost use Rattle.tests.specs.Admission.Leaders.{is_indirect, HasIndirect};
ghost use Rattle.tests.specs.Admission.Test.{AreCodeWords, IsTestOf};
ghost use Rattle.qed_model.specs.Weave.Blocks.{IsEntered};
ghost use Rattle.machine.specs.Sets.{has_address};
ghost use Rattle.flow_recovery.specs.Sets.{lists, Adds, AddsAt, not_below, is_first};
ghost use Rattle.flow_recovery.specs.Words.{is_begun, is_chosen, is_entered, of_code};
ghost use Rattle.flow_recovery.specs.Leaders.{AreLeaders};

use crate::classes::is_indirect;
use crate::named::{add_relocations, add_symbols};
use crate::reach::add_reached;
use crate::sets::{add, set_of};
use crate::words::add_words;
use elf_types::ElfFile;
use qed_model::{CodeWord, Entries, Options, Test};
use std::alloc::{AllocError, Global};
use std::collections::BTreeSet;

/// Of ascending addresses, those that are not below one.
fn from_on(address: u64, addresses: &[u64]) -> &[u64]
    ensures { result.now ≡ not_below address addresses.now }
{
    let mut left = addresses;
    while let [first, rest @ ..] = left {
        if *first >= address {
            return left;
        }
        left = rest;
    }
    left
}

/// Whether the first of some addresses is this one.
fn is_first(address: u64, addresses: &[u64]) -> bool
    ensures { result ≡ is_first address addresses.now }
{
    match addresses {
        [first, ..] => *first == address,
        [] => false,
    }
}

/// Of ascending addresses, those at which words of the code stand, which ascend too.
fn of_code(alloc: Global, named: &[u64], words: &[CodeWord]) -> Result<Vec<u64>, AllocError>
    ensures { IfOk result (λ kept. kept.items ≡ of_code named.now words.now) }
{
    let mut kept = Vec::new(alloc);
    let mut left = named;
    for word in words {
        left = from_on(word.at, left);
        if is_first(word.at, left) {
            kept.push(word.at)?;
        }
    }
    Ok(kept)
}

/// The addresses at which blocks begin by the entry, by the words themselves, or by a symbol or a
/// relocation; no word need stand there.
#[tactic(auto, using(crate::proofs::LeaderLaws::collected))]
fn named(
    alloc: Global,
    test: &Test,
    file: &ElfFile,
    options: &Options,
) -> Result<Vec<u64>, AllocError>
    ensures exact { IfOk result (λ list. (a : ℕ) → lists list.items a ≡ is_begun options.now test.now.entry test.now.code file.now.symbols file.now.relas a) }
    ensures small { OnOk result (All (λ c. c.at < 2 ^ 64) test.now.code) }
{
    let (symbols, relas) = (file.symbols.as_slice(), file.relas.as_slice());
    let mut list = Vec::new(alloc);
    add(&mut list, test.entry)?;
    add_words(&mut list, test.code.as_slice(), options)?;
    add_symbols(&mut list, symbols)?;
    add_relocations(&mut list, symbols, relas)?;
    Ok(list)
}

/// Whether, besides other leaders, only reached addresses have entries.
fn is_chosen(entries: Entries) -> bool
    ensures { result ≡ is_chosen entries }
{
    matches!(entries, Entries::Reached)
}

/// Adds the reached addresses, if only they have entries and the code has a JALR.
fn add_entered(
    list: &mut Vec<u64>,
    test: &Test,
    file: &ElfFile,
    options: &Options,
) -> Result<(), AllocError>
    ensures { OnOk result (AddsAt test.now.code list.old.items list.new.items (is_entered file.now options.now test.now)) }
{
    if is_chosen(options.entries) && has_indirect(test) {
        add_reached(list, test, file)?;
    }
    Ok(())
}

/// The code addresses to which a JALR of the file that `test` is may lead, if only such addresses
/// have entries; else none. Nothing is said of other addresses in the set.
#[tactic(auto, using(crate::proofs::LeaderLaws::entered, crate::proofs::SetLaws::at_first))]
pub fn entered(
    alloc: Global,
    test: &Test,
    file: &ElfFile,
    options: &Options,
) -> Result<BTreeSet<u64>, AllocError>
    requires { IsTestOf file.now options.now test.now }
    ensures { IfOk result (λ set. (a : ℕ) → is_code file.now a ≡ true → IsTrue (has_address set a) ↔ IsEntered file.now options.now a) }
{
    let mut list = Vec::new(alloc);
    add_entered(&mut list, test, file, options)?;
    let set = set_of(alloc, list)?;
    Ok(set)
}

/// Of the addresses, those at which words of the code stand, in ascending order.
fn begun(alloc: Global, mut list: Vec<u64>, words: &[CodeWord]) -> Result<Vec<u64>, AllocError>
    ensures { IfOk result (λ begun. AllPairs (λ a b. a < b) (map (λ c. c.at) words.now) → begun.items ≡ filter (lists list.items) (map (λ c. c.at) words.now)) }
{
    list.sort_unstable();
    let kept = of_code(alloc, &list, words)?;
    Ok(kept)
}

/// The leaders of the file that `test` is, in ascending order: the code addresses at which blocks begin.
pub fn leaders(
    alloc: Global,
    test: &Test,
    file: &ElfFile,
    options: &Options,
) -> Result<Vec<u64>, AllocError>
    requires { IsTestOf file.now options.now test.now }
    ensures { IfOk result (λ leaders. AreLeaders file.now options.now test.now.code leaders.items) }
{
    let mut list = named(alloc, test, file, options)?;
    add_entered(&mut list, test, file, options)?;
    let leaders = begun(alloc, list, test.code.as_slice())?;
    Ok(leaders)
}

/// Whether some word is a JALR.
fn any_indirect(words: &[CodeWord]) -> bool
    ensures { result ≡ list_any (λ c. is_indirect (class_of c.ins.kind)) words.now }
{
    words.iter().any(|word| is_indirect(word.ins.class()))
}

/// Whether some word of the code is a JALR.
pub fn has_indirect(test: &Test) -> bool
    ensures value { result ≡ list_any (λ c. is_indirect (class_of c.ins.kind)) test.now.code }
    ensures exact { (f : ElfFile) → AreCodeWords f test.now.code → IsTrue result ↔ HasIndirect f }
{
    any_indirect(test.code.as_slice())
}
