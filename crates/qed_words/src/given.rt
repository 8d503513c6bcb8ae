//! The files and values that were given.
ghost use Rattle.std.specs.Prelude.{◌≡◌, map, length};
ghost use Rattle.std.specs.Option.{option_copied};
ghost use Rattle.qed_words.specs.Words.{name_in as name_in_of, files, file as file_of, value_in as value_in_of, values, value_of, lacks as lacks_of};
ghost use Rattle.qed_words.specs.Words.{number_given as number_given_of, word_given as word_given_of};
ghost use Rattle.qed_words.specs.Seen.{seen};

use crate::argument::Argument;
use crate::{Key, place_among};
use texts::number;

pub fn name_in<'a>(argument: Argument<'a>) -> Option<&'a str>
    ensures { option_copied result ≡ name_in_of (seen argument.entry) }
{
    match argument {
        Argument::File(_, name) => Some(name),
        _ => None,
    }
}

/// How many files were given.
#[tactic(auto, unfolding(crate::specs::Words::files))]
pub fn count_files(arguments: &[Argument<'_>]) -> usize
    ensures { result ≡ length (files (map seen arguments.now)) }
{
    let mut count = 0usize;
    for argument in arguments {
        if name_in(*argument).is_some() {
            count += 1;
        }
    }
    count
}

/// The value that an argument gives to an option.
pub fn value_in<'a>(key: Key, argument: Argument<'a>) -> Option<&'a [u8]>
    ensures { option_copied result ≡ value_in_of key (seen argument.entry) }
{
    match argument {
        Argument::Given(_, other, value) => (other.name() == key.name()).then_some(value),
        _ => None,
    }
}

/// How often an option was given.
#[tactic(auto, unfolding(crate::specs::Words::values))]
pub fn count_values(key: Key, arguments: &[Argument<'_>]) -> usize
    ensures { result ≡ length (values key (map seen arguments.now)) }
{
    let mut count = 0usize;
    for argument in arguments {
        if value_in(key, *argument).is_some() {
            count += 1;
        }
    }
    count
}

/// The first value given to an option.
#[tactic(auto, unfolding(crate::specs::Words::values, crate::specs::Words::value_of))]
pub fn first_value<'a>(key: Key, arguments: &[Argument<'a>]) -> Option<&'a [u8]>
    ensures { option_copied result ≡ value_of key (map seen arguments.now) }
{
    for argument in arguments {
        let found = value_in(key, *argument);
        if found.is_some() {
            return found;
        }
    }
    None
}

/// The number given to an option.
#[tactic(auto, unfolding(crate::specs::Words::number_given))]
pub fn number_given(key: Key, arguments: &[Argument<'_>]) -> Option<u64>
    ensures { result ≡ number_given_of key (map seen arguments.now) }
{
    number(first_value(key, arguments)?)
}

/// Which of an option's words was given, by its place.
#[tactic(auto, unfolding(crate::specs::Words::word_given))]
pub fn word_given(key: Key, arguments: &[Argument<'_>]) -> Option<usize>
    ensures { result ≡ word_given_of key (map seen arguments.now) }
{
    place_among(key.row().words, first_value(key, arguments)?)
}

/// Whether an option was not given.
#[tactic(auto, unfolding(crate::specs::Words::lacks))]
pub fn lacks(arguments: &[Argument<'_>], key: Key) -> bool
    ensures { result ≡ lacks_of (map seen arguments.now) key }
{
    count_values(key, arguments) == 0
}

/// The name of file number `place`; empty if there is none.
#[tactic(auto, unfolding(crate::specs::Words::files, crate::specs::Words::file))]
pub fn file<'a>(arguments: &[Argument<'a>], place: usize) -> &'a str
    ensures { result.now ≡ file_of (map seen arguments.now) place }
{
    let mut left = place;
    for argument in arguments {
        if let Some(name) = name_in(*argument) {
            if left == 0 {
                return name;
            }
            left -= 1;
        }
    }
    ""
}
