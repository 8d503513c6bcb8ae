//! The kinds of words.
ghost use Rattle.std.specs.Prelude.{◌≡◌};
ghost use Rattle.std.specs.Option.{option_copied};
ghost use Rattle.qed_words.specs.Tables.{option_of};
ghost use Rattle.qed_words.specs.Words.{behind_dashes as behind_dashes_of, is_flag as is_flag_of, takes_value as valued_of, takes_next as takes_next_of};
ghost use Rattle.qed_words.specs.Words.{key_argument as key_argument_of, option_argument as option_argument_of, argument as argument_of};
ghost use Rattle.qed_words.specs.Seen.{seen};

use crate::{Command, Key, Value};
use texts::split_once;

/// An argument, with the number of its word.
#[derive(Clone, Copy)]
pub enum Argument<'a> {
    Empty(u64),
    /// It begins with `-` and is not an option of the command.
    Unknown(u64),
    /// An option and its value: empty if there is none, ignored for a flag.
    Given(u64, Key, &'a [u8]),
    File(u64, &'a str),
}

/// The text behind `--`.
#[tactic(auto, unfolding(crate::specs::Words::behind_dashes))]
fn behind_dashes(word: &[u8]) -> Option<&[u8]>
    ensures { option_copied result ≡ behind_dashes_of word.now }
{
    match word {
        [b'-', b'-', rest @ ..] => Some(rest),
        _ => None,
    }
}

/// Whether an option has no value.
pub fn is_flag(key: Key) -> bool
    ensures { result ≡ is_flag_of (option_of key).value }
{
    matches!(key.row().value, Value::Flag)
}

/// An option, unless it is a flag.
fn valued(key: Option<Key>) -> Option<Key>
    ensures { result ≡ valued_of key }
{
    let key = key?;
    (!is_flag(key)).then_some(key)
}

/// Whether the next word is this word's value.
#[tactic(auto, unfolding(crate::specs::Words::takes_next))]
pub fn takes_next(command: Command, word: &[u8]) -> bool
    ensures { result ≡ takes_next_of command word.now }
{
    match behind_dashes(word) {
        Some(name) => valued(command.key(name)).is_some(),
        None => false,
    }
}

/// The argument for an option, if the command has it.
fn key_argument<'a>(number: u64, key: Option<Key>, value: &'a [u8]) -> Argument<'a>
    ensures { seen result ≡ key_argument_of number key value.now }
{
    match key {
        Some(key) => Argument::Given(number, key, value),
        None => Argument::Unknown(number),
    }
}

/// The argument that a word with `-` in front is.
fn option_argument<'a>(
    command: Command,
    number: u64,
    word: &'a [u8],
    next: &'a [u8],
) -> Argument<'a>
    ensures { seen result ≡ option_argument_of command number next.now (behind_dashes_of word.now) }
{
    let Some(text) = behind_dashes(word) else {
        return Argument::Unknown(number);
    };
    match split_once(text, b'=') {
        None => key_argument(number, command.key(text), next),
        Some((name, value)) => key_argument(number, valued(command.key(name)), value),
    }
}

/// The argument that a word is, by its number, given the word behind it.
#[tactic(auto, unfolding(crate::specs::Words::argument))]
pub fn read_word<'a>(command: Command, number: u64, word: &'a str, next: &'a [u8]) -> Argument<'a>
    ensures { seen result ≡ argument_of command number word.now next.now }
{
    match word.as_bytes() {
        [] => Argument::Empty(number),
        [b'-', ..] => option_argument(command, number, word.as_bytes(), next),
        _ => Argument::File(number, word),
    }
}
