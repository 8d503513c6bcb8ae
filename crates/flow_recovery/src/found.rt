//! What constants lead to. A repeated constant is skipped.
ghost use Rattle.std.specs.Prelude.{◌≡◌, ◌%◌, [], ℕ, ◌==◌, ◌&&◌, ◌||◌, Option, None, true, false, OnOk, IfOk};
ghost use Rattle.machine.specs.Sets.{has_address};
ghost use Rattle.tests.specs.Admission.Reached.{leads, one_pass};
ghost use Rattle.flow_recovery.specs.Sets.{Gains};
ghost use Rattle.flow_recovery.specs.Found.{CoversFound, IsAdded, is_recent};

use crate::sets::insert;
use crate::stored::add_tables;
use qed_model::{CodeWord, Test};
use std::alloc::{AllocError, Global};
use std::collections::BTreeSet;

/// How many constants are remembered. A number has at most 4,096 sums with an immediate, all near
/// it. So if numbers ascend, no sum pushes out another that comes again.
const RECENT: u64 = 8192;

/// A test, and the addresses at which the words of its code stand.
#[derive(Clone, Copy)]
pub(crate) struct Code<'a> {
    pub(crate) test: &'a Test,
    pub(crate) places: &'a BTreeSet<u64>,
}

/// What the constants so far lead to.
#[derive(Drop)]
pub(crate) struct Found {
    /// The code addresses that they lead to.
    pub(crate) reached: BTreeSet<u64>,
    /// Values of the global pointer; each word of the code may add its immediate to them.
    pub(crate) pointers: Vec<u64>,
    /// Constants whose addresses are in `reached`, each at the index of its remainder.
    pub(crate) recent: Vec<Option<u64>>,
}

/// Whether a constant is remembered.
fn is_recent(recent: &[Option<u64>], value: u64) -> bool
    ensures { result ≡ true → is_recent recent.now value ≡ true }
{
    match recent.get((value % RECENT) as usize) {
        Some(Some(last)) => *last == value,
        _ => false,
    }
}

/// Remembers a constant.
fn remember(recent: &mut Vec<Option<u64>>, value: u64)
    ensures { (u : ℕ) → is_recent recent.new.items u ≡ true → (is_recent recent.old.items u || (value == u)) ≡ true }
{
    let place = (value % RECENT) as usize;
    if place < recent.len() {
        recent[place] = Some(value);
    }
}

/// Adds an address, if a word of the code stands there.
fn add_place(reached: &mut BTreeSet<u64>, code: &Code<'_>, address: u64) -> Result<(), AllocError>
    ensures { OnOk result (Gains reached.old reached.new (λ a. has_address code.now.places.now address && (address == a))) }
{
    if code.places.contains(&address) {
        insert(reached, address)?;
    }
    Ok(())
}

/// Adds a constant, and what tables of distances from it lead to.
#[tactic(auto, using(crate::proofs::FoundLaws::recent_covers))]
pub(crate) fn add_constant(found: &mut Found, code: &Code<'_>, value: u64) -> Result<(), AllocError>
    ensures same { OnOk result (found.new.pointers ≡ found.old.pointers) }
    ensures covers { OnOk result (CoversFound code.now found.old found.new (leads code.now.test.now value)) }
{
    if is_recent(found.recent.as_slice(), value) {
        return Ok(());
    }
    add_place(&mut found.reached, code, value)?;
    add_tables(&mut found.reached, code.test, value)?;
    remember(&mut found.recent, value);
    Ok(())
}

/// Adds a value of the global pointer.
pub(crate) fn add_pointer(found: &mut Found, code: &Code<'_>, value: u64) -> Result<(), AllocError>
    ensures { OnOk result (CoversFound code.now found.old found.new (one_pass code.now.test.now code.now.test.now.code 3 value)) }
{
    found.pointers.push(value)?;
    Ok(())
}

/// Room for the constants that are remembered.
#[tactic(auto, using(crate::proofs::FoundLaws::none_more))]
fn nothing_recent(alloc: Global) -> Result<Vec<Option<u64>>, AllocError>
    ensures { IfOk result (λ recent. (u : ℕ) → is_recent recent.items u ≡ false) }
{
    let mut recent = Vec::new(alloc);
    for _ in 0..RECENT {
        recent.push(None)?;
    }
    Ok(recent)
}

/// Nothing found, with room for constants.
pub(crate) fn begun(alloc: Global) -> Result<Found, AllocError>
    ensures empty { IfOk result (λ found. (a : ℕ) → has_address found.reached a ≡ false) }
    ensures none { IfOk result (λ found. found.pointers.items ≡ []) }
    ensures fresh { IfOk result (λ found. (u : ℕ) → is_recent found.recent.items u ≡ false) }
{
    let recent = nothing_recent(alloc)?;
    Ok(Found {
        reached: BTreeSet::new(alloc),
        pointers: Vec::new(alloc),
        recent,
    })
}
