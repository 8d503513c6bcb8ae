//! Changes as they are counted from a later step.
ghost use Rattle.std.specs.Prelude.{◌≡◌, ◌≤◌, All, IfOk};
ghost use Rattle.campaign.specs.Later.{counted_from as counted_from_of, all_from as all_from_of, first_step as first_step_of};

use qed_model::Change;
use std::alloc::{AllocError, Global};

/// The step of the first change; 0 if there is none.
pub fn first_step(changes: &[Change]) -> u64
    ensures { result ≡ first_step_of changes.now }
{
    match changes {
        [first, ..] => first.step,
        [] => 0,
    }
}

/// A change whose steps are counted from a later one, which is not after it.
fn counted_from(change: &Change, start: u64) -> Change
    requires { start ≤ change.now.step }
    ensures { result ≡ counted_from_of start change.now }
{
    Change {
        step: change.step - start,
        place: change.place,
        value: change.value,
    }
}

/// Changes whose steps are counted from a later one, which is not after any of them.
pub fn all_from(alloc: Global, changes: &[Change], start: u64) -> Result<Vec<Change>, AllocError>
    requires { All (λ c. start ≤ c.step) changes.now }
    ensures { IfOk result (λ later. later.items ≡ all_from_of start changes.now) }
{
    let mut later = Vec::new(alloc);
    for change in changes {
        later.push(counted_from(change, start))?;
    }
    Ok(later)
}
