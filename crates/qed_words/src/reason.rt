//! The first reason why arguments do not make an order.
ghost use Rattle.std.specs.Prelude.{◌≡◌, map};
ghost use Rattle.qed_words.specs.Words.{window_reason as window_reason_of, watch_reason as watch_reason_of, slips_reason as slips_reason_of};
ghost use Rattle.qed_words.specs.Words.{topic_reason as topic_reason_of, reason_of};
ghost use Rattle.qed_words.specs.Seen.{seen};

use crate::argument::Argument;
use crate::given::{count_files, file, lacks, number_given};
use crate::lean::{lean_reason, missing_lean};
use crate::options::{is_split, options};
use crate::value::first_wrong_value;
use crate::words::is_slips;
use crate::wrong::{first_wrong, missing};
use crate::{Command, Key, Reason};

/// The output has no step to strike in.
#[tactic(auto, unfolding(crate::specs::Words::window_reason))]
fn window_reason(arguments: &[Argument<'_>]) -> Option<Reason>
    ensures { result ≡ window_reason_of (map seen arguments.now) }
{
    let from = number_given(Key::From, arguments)?;
    let to = number_given(Key::To, arguments)?;
    (to <= from).then_some(Reason::OutOfRange(Key::To))
}

/// A run looks for one thing.
#[tactic(auto, unfolding(crate::specs::Words::watch_reason))]
fn watch_reason(arguments: &[Argument<'_>]) -> Option<Reason>
    ensures { result ≡ watch_reason_of (map seen arguments.now) }
{
    let is_one = lacks(arguments, Key::Slip) || lacks(arguments, Key::Reached);
    (!is_one).then_some(Reason::SlipAndReached)
}

/// A strike of slips is one instruction.
#[tactic(auto, unfolding(crate::specs::Words::slips_reason))]
fn slips_reason(arguments: &[Argument<'_>]) -> Option<Reason>
    ensures { result ≡ slips_reason_of (map seen arguments.now) }
{
    let changes = number_given(Key::Changes, arguments).unwrap_or(1);
    (is_slips(arguments) && changes != 1).then_some(Reason::OutOfRange(Key::Changes))
}

/// The word behind `help` names no command.
#[tactic(auto, unfolding(crate::specs::Words::topic_reason))]
fn topic_reason(command: Command, arguments: &[Argument<'_>]) -> Option<Reason>
    ensures { result ≡ topic_reason_of command (map seen arguments.now) }
{
    match command {
        Command::Help => {
            let is_known = Command::named(file(arguments, 0)).is_some();
            (count_files(arguments) > 0 && !is_known).then_some(Reason::UnknownCommand)
        }
        _ => None,
    }
}

/// The first reason why arguments do not make an order.
#[tactic(auto, unfolding(crate::specs::Words::reason_of, crate::specs::Words::split_reason))]
pub fn first_reason(command: Command, arguments: &[Argument<'_>]) -> Option<Reason>
    ensures { result ≡ reason_of command (map seen arguments.now) }
{
    if let Some(reason) = first_wrong(command, arguments) {
        return Some(reason);
    }
    if let Some(reason) = missing(command, arguments) {
        return Some(reason);
    }
    if let Some(reason) = first_wrong_value(command, arguments) {
        return Some(reason);
    }
    if is_split(&options(arguments)) {
        return Some(Reason::Split);
    }
    if let Some(reason) = missing_lean(arguments) {
        return Some(reason);
    }
    if let Some(reason) = lean_reason(arguments) {
        return Some(reason);
    }
    if let Some(reason) = window_reason(arguments) {
        return Some(reason);
    }
    if let Some(reason) = watch_reason(arguments) {
        return Some(reason);
    }
    if let Some(reason) = slips_reason(arguments) {
        return Some(reason);
    }
    topic_reason(command, arguments)
}
