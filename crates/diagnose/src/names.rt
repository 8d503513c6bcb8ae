//! Names of commands and options that are near to a word, and what `help` says about an option.

use qed_words::{COMMANDS, Command, Topic};
use report::topic_text;
use std::alloc::{AllocError, Global};
use strsim::levenshtein;

/// Appends the lines of `help` about an option of a command: those of `transform`, if it has the option.
pub(crate) fn push_lines(
    alloc: Global,
    text: &mut String,
    command: Command,
    name: &str,
) -> Result<(), AllocError> {
    let front = format!(in alloc; "--{name} ")?;
    let home = match Command::Transform.key(name.as_bytes()) {
        Some(_) => Command::Transform,
        None => command,
    };
    for line in topic_text(Topic::One(home)).lines() {
        if line.starts_with(front.as_str()) {
            text.push_str(line)?;
            text.push_str("\n")?;
        }
    }
    Ok(())
}

/// A name, and how many letters lead to it.
#[derive(Clone, Copy)]
struct Near {
    name: &'static str,
    edits: usize,
}

/// Whichever is nearer to a word: what was found, or a name.
fn nearer(
    alloc: Global,
    found: Option<Near>,
    word: &str,
    name: &'static str,
) -> Result<Option<Near>, AllocError> {
    let edits = levenshtein(alloc, word, name)?;
    let most = found.map_or(usize::MAX, |near| near.edits);
    if edits < most && edits < name.len().div_ceil(2) {
        return Ok(Some(Near { name, edits }));
    }
    Ok(found)
}

/// The command whose name is near to a word.
pub(crate) fn near_command(alloc: Global, word: &str) -> Result<Option<&'static str>, AllocError> {
    let mut found = None;
    for command in COMMANDS {
        if let Some(name) = command.row().names.first() {
            found = nearer(alloc, found, word, name)?;
        }
    }
    Ok(found.map(|near| near.name))
}

/// The option of a command whose name is near to a word's.
pub(crate) fn near_option(
    alloc: Global,
    command: Command,
    word: &str,
) -> Result<Option<&'static str>, AllocError> {
    let (front, _) = word.split_once("=").unwrap_or((word, ""));
    let name = front.trim_start_matches('-');
    let mut found = None;
    for key in command.row().keys {
        found = nearer(alloc, found, name, key.name())?;
    }
    Ok(found.map(|near| near.name))
}
