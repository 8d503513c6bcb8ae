//! What is wrong with words, and what is missing.
ghost use Rattle.std.specs.Prelude.{◌≡◌, [], map};
ghost use Rattle.qed_words.specs.Words.{is_value as is_value_of, wrong as wrong_of, first_wrong as first_wrong_of, missing as missing_of};
ghost use Rattle.qed_words.specs.Seen.{seen};

use crate::argument::{Argument, is_flag};
use crate::given::{count_files, count_values, lacks};
use crate::{Command, Reason};

fn is_value(value: &[u8]) -> bool
    ensures { result ≡ is_value_of value.now }
{
    value.first().is_some_and(|first| *first != b'-')
}

/// What is wrong with an argument, given those before it.
#[tactic(auto, unfolding(crate::specs::Words::wrong))]
fn wrong(command: Command, before: &[Argument<'_>], argument: Argument<'_>) -> Option<Reason>
    ensures { result ≡ wrong_of command (map seen before.now) (seen argument.entry) }
{
    match argument {
        Argument::Empty(word) => Some(Reason::EmptyWord(word)),
        Argument::Unknown(word) => Some(Reason::UnknownOption(word)),
        Argument::Given(word, key, value) => {
            if key.row().most <= count_values(key, before) {
                Some(Reason::Repeated(word))
            } else {
                (!is_flag(key) && !is_value(value)).then_some(Reason::MissingValue(word))
            }
        }
        Argument::File(word, _) => {
            (command.row().most_files <= count_files(before)).then_some(Reason::ExtraWord(word))
        }
    }
}

/// What is wrong with the first wrong argument.
pub fn first_wrong(command: Command, arguments: &[Argument<'_>]) -> Option<Reason>
    ensures { result ≡ first_wrong_of command [] (map seen arguments.now) }
{
    for place in 0..arguments.len() {
        let found = wrong(command, arguments.split_at(place).0, arguments[place]);
        if found.is_some() {
            return found;
        }
    }
    None
}

/// What is missing: a file, or else the first option that must be given.
#[tactic(auto, unfolding(crate::specs::Words::missing))]
pub fn missing(command: Command, arguments: &[Argument<'_>]) -> Option<Reason>
    ensures { result ≡ missing_of command (map seen arguments.now) }
{
    if count_files(arguments) < command.row().least_files {
        return Some(Reason::MissingFile);
    }
    let mut required = command.row().required.iter().copied();
    required
        .find(|key| lacks(arguments, *key))
        .map(Reason::MissingOption)
}
