//! Words that ask for nothing.

use crate::names::{near_command, near_option, push_lines};
use crate::sentences::sentence_of;
use qed_words::{Command, Topic, fault};
use report::topic_text;
use std::alloc::{AllocError, Global};
use texts::{MOST_OF_NAME, number, printable};

/// A word and its number.
#[derive(Clone, Copy)]
struct Word<'a> {
    number: usize,
    text: &'a str,
}

/// The word of this number.
fn word_at(words: &[String], number: usize) -> Option<Word<'_>> {
    let text = words.get(number)?.as_str();
    Some(Word { number, text })
}

/// The value that the word of this number gives to an option.
fn value_at<'a>(words: &'a [String], number: usize, name: &str) -> Option<Word<'a>> {
    let given = words.get(number)?.as_str().strip_prefix("--")?;
    if given == name {
        return word_at(words, number + 1);
    }
    let (front, text) = given.split_once("=")?;
    (front == name).then_some(Word { number, text })
}

/// The word with the wrong value of an option.
fn wrong_value<'a>(words: &'a [String], name: &str) -> Option<Word<'a>> {
    let mut values = (0..words.len()).filter_map(|place| value_at(words, place, name));
    values.find(|word| name != "fault" || fault(word.text.as_bytes()).is_none())
}

/// A reason in two parts: what is wrong, and the number of a word or the name of an option.
fn parts(reason: &str) -> (&str, &str) {
    match reason.rsplit_once(" ") {
        Some((head, tail)) if sentence_of(head).is_some() => (head, tail),
        _ => (reason, ""),
    }
}

/// The faulty word.
fn at_fault<'a>(
    words: &'a [String],
    command: Option<Command>,
    head: &str,
    tail: &str,
) -> Option<Word<'a>> {
    if head == "unknown command" {
        return word_at(words, usize::from(command == Some(Command::Help)));
    }
    match number(tail.as_bytes()) {
        Some(place) => word_at(words, place as usize),
        None => wrong_value(words, tail),
    }
}

/// The name that the user may have meant.
fn meant(
    alloc: Global,
    command: Option<Command>,
    head: &str,
    word: &str,
) -> Result<Option<&'static str>, AllocError> {
    match (head, command) {
        ("unknown command", _) => near_command(alloc, word),
        ("unknown option at", Some(command)) => near_option(alloc, command, word),
        _ => Ok(None),
    }
}

/// What is wrong, with the faulty word and its number.
fn first_line(
    alloc: Global,
    head: &str,
    sentence: &str,
    option: &str,
    word: Option<Word<'_>>,
) -> Result<String, AllocError> {
    match word {
        Some(word) => {
            let text = printable(alloc, word.text.as_bytes(), MOST_OF_NAME)?;
            format!(in alloc; "qed: '{text}', word {}: {sentence}", word.number)
        }
        None if head == "missing option" => format!(in alloc; "qed: --{option}: {sentence}"),
        None => format!(in alloc; "qed: {sentence}"),
    }
}

/// How to call the command: the first line of its text, or the whole text if a word asks for help.
fn synopsis(command: Option<Command>, word: Option<Word<'_>>) -> &'static str {
    let page = match command {
        None | Some(Command::Help | Command::Version) => return "qed help tells all commands",
        Some(command) => topic_text(Topic::One(command)),
    };
    match word {
        Some(word) if word.text == "--help" || word.text == "-h" => page,
        _ => page.lines().next().unwrap_or(""),
    }
}

/// For words that ask for nothing: the faulty word with its number, why, the name that may be
/// meant, the line about the option, and how to call the command.
pub(crate) fn usage(alloc: Global, words: &[String], reason: &str) -> Result<String, AllocError> {
    let (head, tail) = parts(reason);
    let command = words.first().and_then(|word| Command::named(word.as_str()));
    // The option that the reason is about, if any.
    let option = match head {
        "all entries" => "entries",
        "few steps" => "every",
        "slip and reached" => "slip",
        _ => tail,
    };
    let word = at_fault(words, command, head, option);
    let sentence = sentence_of(reason).or(sentence_of(head)).unwrap_or("");
    let mut text = first_line(alloc, head, sentence, option, word)?;
    if head == "few steps" {
        text.push_str(&format!(in alloc; " {tail}")?)?;
    }
    if let Some(name) = meant(alloc, command, head, word.map_or("", |word| word.text))? {
        let dashes = if head == "unknown command" { "" } else { "--" };
        text.push_str(&format!(in alloc; ": did you mean {dashes}{name}?")?)?;
    }
    text.push_str("\n")?;
    if let Some(command) = command {
        push_lines(alloc, &mut text, command, option)?;
    }
    text.push_str(synopsis(command, word))?;
    if !text.as_str().ends_with("\n") {
        text.push_str("\n")?;
    }
    Ok(text)
}
