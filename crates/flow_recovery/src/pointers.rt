//! The sums of the global pointer's values and the immediates that words add to it.
ghost use Rattle.std.specs.Prelude.{◌≡◌, ℕ, ◌+◌, ◌%◌, ◌^◌, ◌==◌, ◌&&◌, true, OnOk, IfOk};
ghost use Rattle.std.specs.List.{list_any};
ghost use Rattle.machine.specs.Sets.{has_address};
ghost use Rattle.tests.specs.Admission.Reached.{leads, adds_to, is_made};
ghost use Rattle.flow_recovery.specs.Sets.{lists, has_word_at, Adds};
ghost use Rattle.flow_recovery.specs.Found.{CoversFound, covers, IsAdded, is_offset, sum_leads_on, sums_lead_on};

use crate::constants::{GP, add_constants, adds_to};
use crate::found::{Code, Found, add_constant, begun};
use crate::sets::{add, distinct, numbers, places};
use qed_model::{CodeWord, Test};
use std::alloc::{AllocError, Global};
use std::collections::BTreeSet;

/// Adds the immediate that a word adds to the global pointer.
fn add_offset(list: &mut Vec<u64>, word: &CodeWord) -> Result<(), AllocError>
    ensures { OnOk result (Adds list.old.items list.new.items (is_offset word.now)) }
{
    if adds_to(GP, &word.ins) {
        add(list, word.ins.imm.cast_unsigned())?;
    }
    Ok(())
}

/// Adds the immediates that all words add to the global pointer.
fn add_offsets(list: &mut Vec<u64>, words: &[CodeWord]) -> Result<(), AllocError>
    ensures { OnOk result (Adds list.old.items list.new.items (λ a. list_any (λ c. is_offset c a) words.now)) }
{
    for word in words {
        add_offset(list, word)?;
    }
    Ok(())
}

/// The immediates that words add to the global pointer, each once: 4,096 at most.
#[tactic(auto, using(crate::proofs::SetLaws::adds_first))]
fn offsets(alloc: Global, words: &[CodeWord]) -> Result<Vec<u64>, AllocError>
    ensures { IfOk result (λ list. (a : ℕ) → lists list.items a ≡ list_any (λ c. is_offset c a) words.now) }
{
    let mut list = Vec::new(alloc);
    add_offsets(&mut list, words)?;
    let offsets = distinct(alloc, list)?;
    Ok(offsets)
}

/// Adds a value of the global pointer, and its sums.
fn add_pointed(
    found: &mut Found,
    code: &Code<'_>,
    value: u64,
    offsets: &[u64],
) -> Result<(), AllocError>
    ensures same { OnOk result (found.new.pointers ≡ found.old.pointers) }
    ensures covers { OnOk result (CoversFound code.now found.old found.new (λ a. sums_lead_on code.now.test.now offsets.now a value)) }
{
    add_constant(found, code, value)?;
    for offset in offsets {
        add_constant(found, code, value.wrapping_add(*offset))?;
    }
    Ok(())
}

/// Adds the values, which ascend, with their sums: each sum is new, or was made a short while ago.
fn add_all_pointed(
    found: &mut Found,
    code: &Code<'_>,
    values: &[u64],
    offsets: &[u64],
) -> Result<(), AllocError>
    ensures same { OnOk result (found.new.pointers ≡ found.old.pointers) }
    ensures covers { OnOk result (CoversFound code.now found.old found.new (λ a. list_any (sums_lead_on code.now.test.now offsets.now a) values.now)) }
{
    for value in values {
        add_pointed(found, code, *value, offsets)?;
    }
    Ok(())
}

/// What constants lead to, with the sums of the global pointer's values.
fn summed(alloc: Global, found: Found, code: &Code<'_>) -> Result<BTreeSet<u64>, AllocError>
    ensures { IfOk result (λ set. IsAdded code.now found → (a : ℕ) → has_address code.now.places.now a ≡ true → has_address set a ≡ covers code.now found a) }
{
    let Found {
        reached,
        pointers,
        recent,
    } = found;
    let words = code.test.code.as_slice();
    let values = distinct(alloc, pointers)?;
    let offsets = offsets(alloc, words)?;
    let mut all = Found {
        reached,
        pointers: Vec::new(alloc),
        recent,
    };
    add_all_pointed(&mut all, code, &values, &offsets)?;
    Ok(all.reached)
}

/// Of the addresses at which words stand, those to which a constant of the code leads. Nothing is
/// said of other addresses in the list.
#[tactic(auto, using(crate::proofs::FoundLaws::made_is))]
pub(crate) fn made(alloc: Global, test: &Test) -> Result<Vec<u64>, AllocError>
    ensures { IfOk result (λ list. (a : ℕ) → has_word_at test.now.code a ≡ true → lists list.items a ≡ is_made test.now a test.now.code) }
{
    let places = places(alloc, test.code.as_slice())?;
    let code = Code {
        test,
        places: &places,
    };
    let mut found = begun(alloc)?;
    add_constants(&mut found, &code)?;
    let set = summed(alloc, found, &code)?;
    let list = numbers(alloc, set)?;
    Ok(list)
}
