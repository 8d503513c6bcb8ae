//! Addresses: first a list, in any order and with repetitions, then a set.
ghost use Rattle.std.specs.Prelude.{◌≡◌, ℕ, ◌==◌, ◌<◌, map, AllPairs, OnOk, IfOk};
ghost use Rattle.machine.specs.Sets.{has_address};
ghost use Rattle.flow_recovery.specs.Sets.{lists, has_word_at, Adds, Gains};

use qed_model::CodeWord;
use std::alloc::{AllocError, Global};
use std::collections::BTreeSet;

/// Adds an address.
pub fn add(list: &mut Vec<u64>, address: u64) -> Result<(), AllocError>
    ensures { OnOk result (Adds list.old.items list.new.items (λ a. address == a)) }
{
    list.push(address)?;
    Ok(())
}

/// The addresses of a list as a set, built at once.
pub fn set_of(alloc: Global, list: Vec<u64>) -> Result<BTreeSet<u64>, AllocError>
    ensures { IfOk result (λ set. (a : ℕ) → has_address set a ≡ lists list.items a) }
{
    let set = list.into_iter().collect(alloc)?;
    Ok(set)
}

/// Adds an address to a set.
pub fn insert(set: &mut BTreeSet<u64>, address: u64) -> Result<(), AllocError>
    ensures { OnOk result (Gains set.old set.new (λ a. address == a)) }
{
    set.insert(address)?;
    Ok(())
}

/// The numbers of a set, in ascending order.
pub fn numbers(alloc: Global, set: BTreeSet<u64>) -> Result<Vec<u64>, AllocError>
    ensures exact { IfOk result (λ list. (a : ℕ) → lists list.items a ≡ has_address set a) }
    ensures ascending { IfOk result (λ list. AllPairs (λ a b. a < b) list.items) }
{
    let list = set.into_iter().collect(alloc)?;
    Ok(list)
}

/// The numbers of a list in ascending order, each once.
pub fn distinct(alloc: Global, list: Vec<u64>) -> Result<Vec<u64>, AllocError>
    ensures exact { IfOk result (λ kept. (a : ℕ) → lists kept.items a ≡ lists list.items a) }
    ensures ascending { IfOk result (λ kept. AllPairs (λ a b. a < b) kept.items) }
{
    let set = set_of(alloc, list)?;
    let kept = numbers(alloc, set)?;
    Ok(kept)
}

/// Adds addresses.
pub fn add_all(list: &mut Vec<u64>, addresses: &[u64]) -> Result<(), AllocError>
    ensures { OnOk result (Adds list.old.items list.new.items (lists addresses.now)) }
{
    for address in addresses {
        add(list, *address)?;
    }
    Ok(())
}

/// The addresses at which words stand, as a list.
fn addresses(alloc: Global, words: &[CodeWord]) -> Result<Vec<u64>, AllocError>
    ensures { IfOk result (λ list. list.items ≡ map (λ c. c.at) words.now) }
{
    words.iter().map(|word| word.at).collect(alloc)
}

/// The addresses at which words stand.
pub fn places(alloc: Global, words: &[CodeWord]) -> Result<BTreeSet<u64>, AllocError>
    ensures { IfOk result (λ set. (a : ℕ) → has_address set a ≡ has_word_at words.now a) }
{
    let list = addresses(alloc, words)?;
    let set = set_of(alloc, list)?;
    Ok(set)
}
