//! The addresses at which blocks begin because of the instructions of the code.
ghost use Rattle.std.specs.Prelude.{◌≡◌, ◌==◌, ◌&&◌, ◌<◌, ◌^◌, OnOk, All, nat_lt};
ghost use Rattle.std.specs.List.{list_any};
ghost use Rattle.rv_isa.specs.Kind.{class_of};
ghost use Rattle.tests.specs.Admission.Leaders.{has_target, is_end};
ghost use Rattle.machine.specs.Step.{target};
ghost use Rattle.flow_recovery.specs.Sets.{Adds};
ghost use Rattle.flow_recovery.specs.Words.{targets, ends_before, is_even, begins_by};

use crate::classes::{has_target, is_end};
use crate::sets::add;
use qed_model::{CodeWord, Options};
use rv_isa::Ins;
use std::alloc::AllocError;

/// A number plus the immediate, modulo 2^64.
pub fn target_from(ins: &Ins, number: u64) -> u64
    ensures { result ≡ target ins.now number }
{
    number.wrapping_add(ins.imm.cast_unsigned())
}

/// Adds the target of a JAL or a branch.
fn add_target(list: &mut Vec<u64>, word: &CodeWord) -> Result<(), AllocError>
    ensures { OnOk result (Adds list.old.items list.new.items (targets word.now)) }
{
    if has_target(word.ins.class()) {
        add(list, target_from(&word.ins, word.at))?;
    }
    Ok(())
}

/// Adds the address behind a word that ends a block, if there is one.
fn add_next(list: &mut Vec<u64>, word: &CodeWord) -> Result<(), AllocError>
    ensures { OnOk result (Adds list.old.items list.new.items (ends_before word.now)) }
{
    if !is_end(word.ins.class()) {
        return Ok(());
    }
    if let Some(next) = word.at.checked_add(4) {
        add(list, next)?;
    }
    Ok(())
}

/// Adds the address of a word, if the form is lean and the address is a multiple of the bytes that
/// a piece may have. So no block has more instructions than a piece.
fn add_even(list: &mut Vec<u64>, word: &CodeWord, options: &Options) -> Result<(), AllocError>
    ensures { OnOk result (Adds list.old.items list.new.items (is_even options.now word.now)) }
{
    let size = 4 * u128::from(options.inst_max);
    if options.lean.is_some() && u128::from(word.at).is_multiple_of(size) {
        add(list, word.at)?;
    }
    Ok(())
}

/// Adds the addresses at which blocks begin because of one word.
fn add_word(list: &mut Vec<u64>, word: &CodeWord, options: &Options) -> Result<(), AllocError>
    ensures adds { OnOk result (Adds list.old.items list.new.items (begins_by options.now word.now)) }
    ensures small { OnOk result (word.now.at < 2 ^ 64) }
{
    // The contract of a reference promises that a number is below 2^64 only when it is read.
    let _at = word.at;
    add_target(list, word)?;
    add_next(list, word)?;
    add_even(list, word, options)?;
    Ok(())
}

/// Adds the addresses at which blocks begin because of the words.
#[tactic(auto, using(std::proofs::lemmas::List::take_all, crate::proofs::SetLaws::adds_more))]
pub fn add_words(
    list: &mut Vec<u64>,
    words: &[CodeWord],
    options: &Options,
) -> Result<(), AllocError>
    ensures adds { OnOk result (Adds list.old.items list.new.items (λ a. list_any (λ c. begins_by options.now c a) words.now)) }
    ensures small { OnOk result (All (λ c. c.at < 2 ^ 64) words.now) }
{
    for word in words {
        add_word(list, word, options)?;
    }
    Ok(())
}
