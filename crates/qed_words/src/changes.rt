//! The changes that faults ask for.
ghost use Rattle.std.specs.Prelude.{◌≡◌, IfOk, map};
ghost use Rattle.qed_words.specs.Words.{changes_given};
ghost use Rattle.qed_words.specs.Seen.{seen};

use crate::Key;
use crate::argument::Argument;
use crate::given::value_in;
use crate::shape::fault;
use qed_model::{Changes, add_change};
use std::alloc::{AllocError, Global};

/// The changes that arguments ask for, in the order of their steps and then of the words.
#[tactic(auto, unfolding(crate::specs::Words::values, crate::specs::Words::changes_given))]
pub fn changes(alloc: Global, arguments: &[Argument<'_>]) -> Result<Changes, AllocError>
    ensures { IfOk result (λ changes. changes ≡ changes_given (map seen arguments.now)) }
{
    let mut changes = Vec::new(alloc);
    for argument in arguments {
        if let Some(text) = value_in(Key::Fault, *argument) {
            if let Some(change) = fault(text) {
                add_change(&mut changes, change)?;
            }
        }
    }
    Ok(Changes::of(changes))
}
