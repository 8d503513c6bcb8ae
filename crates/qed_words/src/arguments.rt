//! The arguments that all words are.
ghost use Rattle.std.specs.Prelude.{◌≡◌, false, map, IfOk};
ghost use Rattle.qed_words.specs.Words.{texts, arguments as arguments_of, first_text as first_text_of};
ghost use Rattle.qed_words.specs.Seen.{seen};

use crate::Command;
use crate::argument::{Argument, read_word, takes_next};
use std::alloc::{AllocError, Global};

/// The first of some words; empty if there is none.
fn first_text(words: &[String]) -> &[u8]
    ensures { result.now ≡ first_text_of (texts words.now) }
{
    match words {
        [] => &[],
        [word, ..] => word.as_bytes(),
    }
}

/// The arguments that the words behind the command are.
pub fn arguments(
    alloc: Global,
    command: Command,
    words: &[String],
) -> Result<Vec<Argument<'_>>, AllocError>
    ensures { IfOk result (λ read. map seen read.items ≡ arguments_of command false 1 (texts words.now)) }
{
    let mut read = Vec::new(alloc);
    let mut rest = words;
    let mut is_value = false;
    while let [word, later @ ..] = rest {
        if is_value {
            is_value = false;
        } else {
            let number = (words.len() - rest.len()) as u64 + 1;
            read.push(read_word(command, number, word.as_str(), first_text(later)))?;
            is_value = takes_next(command, word.as_bytes());
        }
        rest = later;
    }
    Ok(read)
}
