//! The harts that make the turns.
ghost use Rattle.std.specs.Prelude.{◌≡◌, ◌&&◌, IfOk, map, length, nat_le, nat_lt, option_and_then};
ghost use Rattle.std.specs.Char.{digit_value};
ghost use Rattle.std.specs.List.{list_all};
ghost use Rattle.qed_words.specs.declared.orders.Key.TheVariants as key;
ghost use Rattle.qed_words.specs.Words.{is_digit as is_digit_of, turns as turns_of, value_of, wrong_turns as wrong_turns_of};
ghost use Rattle.qed_words.specs.Seen.{seen};

use crate::argument::Argument;
use crate::given::first_value;
use crate::{Key, Reason};
use elf_types::Bytes;
use std::alloc::{AllocError, Global};

/// The value of a digit or a letter, 36 for any other byte.
fn digit(byte: u8) -> u8
    ensures { result ≡ digit_value byte }
{
    match char::from(byte).to_digit(36) {
        Some(value) => value as u8,
        None => 36,
    }
}

/// Whether all bytes are decimal digits.
fn are_digits(text: &[u8]) -> bool
    ensures { result ≡ list_all is_digit_of text.now }
{
    text.iter().all(|&byte| digit(byte) < 10)
}

/// Whether each hart has one of `count` files.
fn are_below(text: &[u8], count: usize) -> bool
    ensures { result ≡ list_all (λ hart. nat_lt hart count) (map digit_value text.now) }
{
    let mut harts = text.iter().map(|&byte| digit(byte));
    harts.all(|hart| usize::from(hart) < count)
}

/// Whether a text is 1 to 64 decimal digits.
fn are_turns(text: &[u8]) -> bool
    ensures { result ≡ ((nat_le 1 (length text.now) && nat_le (length text.now) 64) && list_all is_digit_of text.now) }
{
    1 <= text.len() && text.len() <= 64 && are_digits(text)
}

/// What is wrong with turns, for `count` files.
#[tactic(auto, unfolding(crate::specs::Words::turns))]
pub fn wrong_turns(count: usize, text: &[u8]) -> Option<Reason>
    ensures { result ≡ wrong_turns_of count (turns_of text.now) }
{
    if !are_turns(text) {
        return Some(Reason::BadShape(Key::Turns));
    }
    (!are_below(text, count)).then_some(Reason::OutOfRange(Key::Turns))
}

/// The harts that arguments ask for, by their numbers.
#[tactic(auto, unfolding(crate::specs::Words::turns))]
pub fn turns_given(alloc: Global, arguments: &[Argument<'_>]) -> Result<Option<Bytes>, AllocError>
    ensures { IfOk result (λ harts. harts ≡ option_and_then turns_of (value_of key.Turns (map seen arguments.now))) }
{
    let Some(text) = first_value(Key::Turns, arguments) else {
        return Ok(None);
    };
    if !are_turns(text) {
        return Ok(None);
    }
    let harts: Vec<u8> = text.iter().map(|&byte| digit(byte)).collect(alloc)?;
    Ok(Some(Bytes::of(harts)))
}
