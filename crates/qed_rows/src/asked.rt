//! What the words of a line ask for, by the command line's own rules.
ghost use Rattle.std.specs.Prelude.{IfOk, IfSome};
ghost use Rattle.qed_model.specs.Weave.SoundOptions.{AreSoundOptions};

use qed_model::{Changes, Options, add_change};
use qed_words::{Name, Order, WordsError, fault, order};
use std::alloc::{AllocError, Global};

/// The words between spaces.
pub(crate) fn words(alloc: Global, line: &str) -> Result<Vec<String>, AllocError> {
    let mut words = Vec::new(alloc);
    for word in line.split(' ') {
        words.push(String::from_str(alloc, word)?)?;
    }
    Ok(words)
}

/// A file, and the options for its test.
#[derive(Drop)]
pub struct Asked {
    pub name: Name,
    pub options: Options,
}

/// The file and the options of a line, as `plan` takes them; None if it does not.
pub(crate) fn planned(alloc: Global, line: &str) -> Result<Option<Asked>, AllocError>
    ensures { IfOk result (λ asked. IfSome asked (λ a. AreSoundOptions a.options)) }
{
    let line = format!(in alloc; "plan {line}")?;
    match order(alloc, &words(alloc, &line)?) {
        Ok(Order::Plan(name, options)) => Ok(Some(Asked { name, options })),
        Err(WordsError::Memory) => Err(AllocError),
        _ => Ok(None),
    }
}

/// The changes of a line, as `--fault` takes them, in the order of their steps; None if it does not.
pub(crate) fn changes(alloc: Global, line: &str) -> Result<Option<Changes>, AllocError> {
    let mut all = Vec::new(alloc);
    for word in line.split(' ') {
        let Some(change) = fault(word.as_bytes()) else {
            return Ok(None);
        };
        add_change(&mut all, change)?;
    }
    Ok(Some(Changes::of(all)))
}
