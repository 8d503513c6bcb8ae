//! Why arguments do not ask for a lean form.
ghost use Rattle.std.specs.Prelude.{◌≡◌, map};
ghost use Rattle.qed_words.specs.Words.{missing_lean as missing_lean_of, lean_reason as lean_reason_of};
ghost use Rattle.qed_words.specs.Seen.{seen};

use crate::argument::Argument;
use crate::given::lacks;
use crate::options::options;
use crate::{Key, Reason};
use qed_model::Entries;
use qed_model::steps::{LEAN_LEAVE_STEPS, entry_steps, lean_instruction_steps};

/// An option of the lean form is given, but not the form.
#[tactic(auto, unfolding(crate::specs::Words::missing_lean))]
pub fn missing_lean(arguments: &[Argument<'_>]) -> Option<Reason>
    ensures { result ≡ missing_lean_of (map seen arguments.now) }
{
    let has_none = lacks(arguments, Key::Every) && lacks(arguments, Key::Land);
    let is_alone = lacks(arguments, Key::Lean) && !has_none;
    is_alone.then_some(Reason::MissingOption(Key::Lean))
}

/// What is wrong with the options of the lean form, if it is asked for.
#[tactic(auto, unfolding(crate::specs::Words::lean_reason))]
pub fn lean_reason(arguments: &[Argument<'_>]) -> Option<Reason>
    ensures { result ≡ lean_reason_of (map seen arguments.now) }
{
    let options = options(arguments);
    let every = options.lean?;
    let cost = lean_instruction_steps(options.diverse);
    let most = entry_steps(options.land) + LEAN_LEAVE_STEPS + cost * options.inst_max.min(1024);
    match options.entries {
        Entries::All => Some(Reason::AllEntries),
        Entries::Reached => (every <= most).then_some(Reason::FewSteps(most)),
    }
}
