//! The order that words ask for.
ghost use Rattle.std.specs.Prelude.{◌≡◌, Ok, IfOk, IfErr, map, option_and_then};
ghost use Rattle.qed_words.specs.declared.orders.Key.TheVariants as key;
ghost use Rattle.qed_words.specs.Words.{texts, dump as dump_of, places as places_of, is_slips as is_slips_of, draws as draws_of, value_of};
ghost use Rattle.qed_words.specs.Words.{file as file_of, files};
ghost use Rattle.qed_words.specs.Words.{steps_given as steps_given_of, watch_given as watch_given_of, order_of, asked};
ghost use Rattle.qed_words.specs.Seen.{seen};
ghost use Rattle.qed_words.specs.Sound.{IsSoundOrder};
ghost use Rattle.qed_words.specs.WordsError.{ExplainsWords};

use crate::argument::Argument;
use crate::arguments::arguments;
use crate::changes::changes;
use crate::error::WordsError;
use crate::given::{file, first_value, lacks, name_in, number_given, word_given};
use crate::options::options;
use crate::reason::first_reason;
use crate::shape::{dump, slip};
use crate::turns::turns_given;
use crate::{Command, Key, Name, Names, Order, Reason, Topic, Watch};
use qed_model::{Aim, Draws, Places};
use std::alloc::{AllocError, Global};

/// The default number of steps of a run.
const DEFAULT_STEPS: u64 = 1_000_000;

/// The name of file number `place`.
fn name(alloc: Global, arguments: &[Argument<'_>], place: usize) -> Result<Name, AllocError>
    ensures { IfOk result (λ name. name ≡ file_of (map seen arguments.now) place) }
{
    Ok(Name::of(String::from_str(alloc, file(arguments, place))?))
}

/// The names of all files, in the order of the words.
#[tactic(auto, unfolding(crate::specs::Words::files))]
pub fn names(alloc: Global, arguments: &[Argument<'_>]) -> Result<Names, AllocError>
    ensures { IfOk result (λ names. names ≡ files (map seen arguments.now)) }
{
    let mut names = Vec::new(alloc);
    for argument in arguments {
        if let Some(name) = name_in(*argument) {
            names.push(Name::of(String::from_str(alloc, name)?))?;
        }
    }
    Ok(Names::of(names))
}

/// The greatest number of steps, or of turns.
#[tactic(auto, unfolding(crate::specs::Words::steps_given))]
fn steps_given(arguments: &[Argument<'_>]) -> u64
    ensures { result ≡ steps_given_of (map seen arguments.now) }
{
    number_given(Key::Steps, arguments).unwrap_or(DEFAULT_STEPS)
}

/// The address and the length of the dump that arguments ask for.
fn dump_given(arguments: &[Argument<'_>]) -> Option<(u64, u64)>
    ensures { result ≡ option_and_then dump_of (value_of key.Dump (map seen arguments.now)) }
{
    dump(first_value(Key::Dump, arguments)?)
}

/// What a run looks for.
#[tactic(auto, unfolding(crate::specs::Words::watch_given))]
fn watch_given(arguments: &[Argument<'_>]) -> Watch
    ensures { result ≡ watch_given_of (map seen arguments.now) }
{
    if !lacks(arguments, Key::Reached) {
        return Watch::Jumps;
    }
    match first_value(Key::Slip, arguments).and_then(slip) {
        None => Watch::Nothing,
        Some(at) => Watch::Slip(at),
    }
}

/// The places that the words of `--only` name, by their place; `slips` names none.
fn places(place: usize) -> Option<Places>
    ensures { result ≡ places_of place }
{
    match place {
        0 => Some(Places::Registers),
        1 => Some(Places::Words),
        _ => None,
    }
}

/// Whether strikes are slips.
#[tactic(auto, unfolding(crate::specs::Words::is_slips))]
pub fn is_slips(arguments: &[Argument<'_>]) -> bool
    ensures { result ≡ is_slips_of (map seen arguments.now) }
{
    word_given(Key::Only, arguments) == Some(2)
}

/// The strikes that arguments ask for.
#[tactic(auto, unfolding(crate::specs::Words::draws))]
fn draws(arguments: &[Argument<'_>]) -> Draws
    ensures { result ≡ draws_of (map seen arguments.now) }
{
    Draws {
        seed: number_given(Key::Seed, arguments).unwrap_or(0),
        count: number_given(Key::Count, arguments).unwrap_or(0),
        changes: number_given(Key::Changes, arguments).unwrap_or(1),
        aim: Aim {
            only: word_given(Key::Only, arguments).and_then(places),
            from: number_given(Key::From, arguments).unwrap_or(0),
            to: number_given(Key::To, arguments),
        },
    }
}

/// The order that arguments ask for, if nothing is wrong with them.
#[tactic(auto, unfolding(crate::specs::Words::order_of))]
fn make_order(
    alloc: Global,
    command: Command,
    arguments: &[Argument<'_>],
) -> Result<Order, AllocError>
    ensures { IfOk result (λ order. order ≡ order_of command (map seen arguments.now)) }
{
    let first = name(alloc, arguments, 0)?;
    match command {
        Command::Transform => {
            let second = name(alloc, arguments, 1)?;
            Ok(Order::Transform(first, second, options(arguments)))
        }
        Command::Plan => Ok(Order::Plan(first, options(arguments))),
        Command::Explain => {
            let at = number_given(Key::At, arguments);
            Ok(Order::Explain(first, options(arguments), at))
        }
        Command::Run => {
            let steps = steps_given(arguments);
            let changes = changes(alloc, arguments)?;
            let watch = watch_given(arguments);
            Ok(Order::Run(first, steps, changes, dump_given(arguments), watch))
        }
        Command::Campaign => {
            let results = !lacks(arguments, Key::Results);
            let (options, draws) = (options(arguments), draws(arguments));
            if is_slips(arguments) {
                return Ok(Order::Slips(first, options, draws, results));
            }
            Ok(Order::Campaign(first, options, draws, results))
        }
        Command::Gen => {
            let seed = number_given(Key::Seed, arguments).unwrap_or(0);
            let size = number_given(Key::Size, arguments).unwrap_or(0);
            Ok(Order::Gen(first, seed, size))
        }
        Command::List => Ok(Order::List(first)),
        Command::Asm => Ok(Order::Asm(first, name(alloc, arguments, 1)?)),
        Command::Harts => {
            let files = names(alloc, arguments)?;
            let turns = turns_given(alloc, arguments)?;
            Ok(Order::Harts(files, turns, steps_given(arguments)))
        }
        Command::Help => match Command::named(file(arguments, 0)) {
            None => Ok(Order::Tell(Topic::All)),
            Some(command) => Ok(Order::Tell(Topic::One(command))),
        },
        Command::Version => Ok(Order::Tell(Topic::Version)),
    }
}

/// What the words of the command line ask for. The first word names the command.
#[tactic(auto, unfolding(crate::specs::Words::asked))]
pub fn order(alloc: Global, words: &[String]) -> Result<Order, WordsError>
    ensures order { IfOk result (λ order. asked (texts words.now) ≡ Ok order) }
    ensures sound { IfOk result IsSoundOrder }
    ensures usage { IfErr result (ExplainsWords (texts words.now)) }
{
    let [word, rest @ ..] = words else {
        return Err(WordsError::Usage(Reason::NoCommand));
    };
    let Some(command) = Command::named(word.as_str()) else {
        return Err(WordsError::Usage(Reason::UnknownCommand));
    };
    let arguments = arguments(alloc, command, rest)?;
    if let Some(reason) = first_reason(command, &arguments) {
        return Err(WordsError::Usage(reason));
    }
    let order = make_order(alloc, command, &arguments)?;
    Ok(order)
}
