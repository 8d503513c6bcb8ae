//! What is wrong with a value.
ghost use Rattle.std.specs.Prelude.{◌≡◌, map};
ghost use Rattle.qed_words.specs.Words.{is_in_range as is_in_range_of, wrong_number as wrong_number_of, wrong_value as wrong_value_of};
ghost use Rattle.qed_words.specs.Words.{wrong_values as wrong_values_of, first_wrong_value as first_wrong_value_of};
ghost use Rattle.qed_words.specs.Seen.{seen};

use crate::argument::Argument;
use crate::given::{count_files, value_in};
use crate::shape::{dump, fault, slip};
use crate::turns::wrong_turns;
use crate::{Command, Key, Reason, Value, place_among};
use rv_isa::profile::PAGE;
use texts::number;

/// Whether a number may be the value of an option.
fn is_in_range(value: Value, number: u64) -> bool
    ensures { result ≡ is_in_range_of value number }
{
    match value {
        Value::Number(least, most) => least <= number && number <= most,
        Value::Pages(most) => number % PAGE == 0 && (PAGE <= number && number <= most),
        _ => true,
    }
}

fn wrong_number(key: Key, number: Option<u64>) -> Option<Reason>
    ensures { result ≡ wrong_number_of key number }
{
    match number {
        None => Some(Reason::BadNumber(key)),
        Some(number) => {
            (!is_in_range(key.row().value, number)).then_some(Reason::OutOfRange(key))
        }
    }
}

/// What is wrong with an option's value, for `count` files.
#[tactic(auto, unfolding(crate::specs::Words::wrong_value))]
fn wrong_value(count: usize, key: Key, text: &[u8]) -> Option<Reason>
    ensures { result ≡ wrong_value_of count key text.now }
{
    let row = key.row();
    let is_shaped = match row.value {
        Value::Flag => true,
        Value::Fault => fault(text).is_some(),
        Value::Slip => slip(text).is_some(),
        Value::Dump => dump(text).is_some(),
        Value::Word => place_among(row.words, text).is_some(),
        Value::Turns => return wrong_turns(count, text),
        Value::Number(_, _) | Value::Pages(_) => return wrong_number(key, number(text)),
    };
    (!is_shaped).then_some(Reason::BadShape(key))
}

/// What is wrong with the first wrong value of an option.
#[tactic(auto, unfolding(crate::specs::Words::values, crate::specs::Words::wrong_values))]
fn wrong_values(arguments: &[Argument<'_>], key: Key) -> Option<Reason>
    ensures { result ≡ wrong_values_of (map seen arguments.now) key }
{
    let count = count_files(arguments);
    for argument in arguments {
        if let Some(value) = value_in(key, *argument) {
            let found = wrong_value(count, key, value);
            if found.is_some() {
                return found;
            }
        }
    }
    None
}

/// What is wrong with the first wrong value, option by option in the command's order.
#[tactic(auto, unfolding(crate::specs::Words::first_wrong_value))]
pub fn first_wrong_value(command: Command, arguments: &[Argument<'_>]) -> Option<Reason>
    ensures { result ≡ first_wrong_value_of command (map seen arguments.now) }
{
    for &key in command.row().keys {
        let found = wrong_values(arguments, key);
        if found.is_some() {
            return found;
        }
    }
    None
}
