//! What is printed if the words of the command line ask for nothing.
ghost use Rattle.std.specs.Prelude.{◌≡◌, IfOk};
ghost use Rattle.qed_words.specs.Text.Usage.{reason_line};

use crate::lines::{keyed, numbered};
use elf_types::Bytes;
use qed_words::Reason;
use std::alloc::{AllocError, Global};

/// The line about words that ask for nothing. A word has its number, an option its name without dashes.
pub fn usage_text(alloc: Global, reason: Reason) -> Result<Bytes, AllocError>
    ensures { IfOk result (λ text. text ≡ reason_line reason) }
{
    let line = match reason {
        Reason::NoCommand => String::from_str(alloc, "usage: no command\n")?,
        Reason::UnknownCommand => String::from_str(alloc, "usage: unknown command\n")?,
        Reason::EmptyWord(i) => numbered(alloc, "usage: empty word ", i)?,
        Reason::UnknownOption(i) => numbered(alloc, "usage: unknown option at ", i)?,
        Reason::Repeated(i) => numbered(alloc, "usage: repeated option at ", i)?,
        Reason::MissingValue(i) => numbered(alloc, "usage: missing value at ", i)?,
        Reason::ExtraWord(i) => numbered(alloc, "usage: extra word ", i)?,
        Reason::MissingFile => String::from_str(alloc, "usage: missing file\n")?,
        Reason::MissingOption(key) => keyed(alloc, "usage: missing option ", key)?,
        Reason::BadNumber(key) => keyed(alloc, "usage: bad number ", key)?,
        Reason::BadShape(key) => keyed(alloc, "usage: bad shape ", key)?,
        Reason::OutOfRange(key) => keyed(alloc, "usage: out of range ", key)?,
        Reason::Split => String::from_str(alloc, "usage: split\n")?,
        Reason::AllEntries => String::from_str(alloc, "usage: all entries\n")?,
        Reason::SlipAndReached => String::from_str(alloc, "usage: slip and reached\n")?,
        Reason::FewSteps(steps) => numbered(alloc, "usage: few steps ", steps)?,
    };
    Ok(Bytes::of(line.into_bytes()))
}
