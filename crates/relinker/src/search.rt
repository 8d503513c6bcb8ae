//! Finds entries by their input addresses, which ascend: by index if every word has one, else by bisection.
ghost use Rattle.std.specs.Prelude.{◌≡◌, ◌<◌, ◌≤◌, length, drop, slice_index_or, Some, IfSome};
ghost use Rattle.qed_model.specs.declared.plan.EntryRow.{EntryRow};
ghost use Rattle.qed_model.specs.Weave.Placed.{entry_at, leads_to, EntriesAscend};

use qed_model::EntryRow;

/// How many entries have input addresses below this one.
#[tactic(auto, using(crate::proofs::Rows::skipped))]
fn below(rows: &[EntryRow], address: u64) -> usize
    requires { EntriesAscend rows.now }
    ensures bound { result ≤ length rows.now }
    ensures rest { entry_at (drop result rows.now) address ≡ entry_at rows.now address }
    ensures above { result < length rows.now → (d : EntryRow) → address ≤ (slice_index_or rows.now result d).input }
{
    let (mut low, mut high) = (0, rows.len());
    while low < high {
        let middle = low + (high - low) / 2;
        if rows[middle].input < address {
            low = middle + 1;
        } else {
            high = middle;
        }
    }
    low
}

/// The entry of an input address, if each word from the first up to it has one, as when every word may be a target.
#[tactic(auto, using(crate::proofs::Rows::found_at))]
fn guessed(rows: &[EntryRow], address: u64) -> Option<u64>
    requires { EntriesAscend rows.now }
    ensures { IfSome result (λ place. entry_at rows.now address ≡ Some place) }
{
    if rows.is_empty() {
        return None;
    }
    let at = (address.wrapping_sub(rows[0].input) / 4) as usize;
    if at >= rows.len() {
        return None;
    }
    if rows[at].input != address {
        return None;
    }
    Some(rows[at].output)
}

/// The entry of an input address.
#[tactic(auto, using(crate::proofs::Rows::found, crate::proofs::Rows::missed))]
pub fn place_of(rows: &[EntryRow], address: u64) -> Option<u64>
    requires { EntriesAscend rows.now }
    ensures { result ≡ entry_at rows.now address }
{
    if let Some(place) = guessed(rows, address) {
        return Some(place);
    }
    let at = below(rows, address);
    if at >= rows.len() {
        return None;
    }
    if rows[at].input != address {
        return None;
    }
    Some(rows[at].output)
}

/// The entry of an input address, or else the last word.
pub(crate) fn entry(rows: &[EntryRow], last: u64, address: u64) -> u64
    requires { EntriesAscend rows.now }
    ensures { result ≡ leads_to rows.now last address }
{
    place_of(rows, address).unwrap_or(last)
}
