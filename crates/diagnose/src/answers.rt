//! The text on standard error about a call.
ghost use Rattle.std.specs.Prelude.{◌≡◌};
ghost use Rattle.qed_words.specs.Sound.{IsSoundOrder};

use crate::growth::growth;
use crate::places::{abi_name, push_largest, push_place};
use crate::run::of_run;
use crate::sentences::rule_sentence;
use crate::usage::usage;
use bstr::ByteSlice;
use elf_read::{read_elf, read_sections};
use elf_types::{Bytes, ElfFile};
use qed_io::{LoadError, Shelf};
use qed_model::limits::MAX_RUN_FILE_BYTES;
use qed_words::{Name, Order, order};
use std::alloc::{AllocError, Global};
use std::io::Error;
use std::slice;
use texts::{MOST_OF_NAME, MOST_OF_PATH, digits, printable};

/// A call that ended: its words, the first bytes that it printed, and the machine's reason for a failed load or store.
#[derive(Clone, Copy)]
pub struct EndedCall<'a> {
    pub words: &'a [String],
    pub printed: &'a str,
    pub reason: Option<Error>,
}

/// The files that an order reads.
fn sources(order: &Order) -> &[Name] {
    match order {
        Order::Transform(name, _, _)
        | Order::Plan(name, _)
        | Order::Explain(name, _, _)
        | Order::Run(name, _, _, _, _)
        | Order::Campaign(name, _, _, _)
        | Order::Slips(name, _, _, _)
        | Order::List(name)
        | Order::Asm(name, _) => slice::from_ref(name),
        Order::Harts(files, _, _) => files.as_slice(),
        Order::Gen(_, _, _) | Order::Tell(_) => &[],
    }
}

/// The bytes of a file, if it can be loaded.
fn loaded<S: Shelf>(alloc: Global, name: &str, shelf: &mut S) -> Result<Option<Bytes>, AllocError>
    ensures { S.files shelf.new ≡ S.files shelf.old }
{
    match shelf.load(alloc, name, MAX_RUN_FILE_BYTES) {
        Ok(bytes) => Ok(Some(bytes)),
        Err(LoadError::Memory) => Err(AllocError),
        Err(_) => Ok(None),
    }
}

/// A file, if it can be read.
pub(crate) fn read<S: Shelf>(
    alloc: Global,
    name: &str,
    shelf: &mut S,
) -> Result<Option<ElfFile>, AllocError>
    ensures { S.files shelf.new ≡ S.files shelf.old }
{
    let Some(bytes) = loaded(alloc, name, shelf)? else {
        return Ok(None);
    };
    Ok(read_elf(alloc, bytes.as_slice()).ok())
}

/// The address behind a mark in a line.
pub(crate) fn address_behind(line: &str, mark: &str) -> Option<u64> {
    let (_, rest) = line.split_once(mark)?;
    let (text, _) = rest.split_once(",").unwrap_or((rest, ""));
    digits(16, 16, text.as_bytes())
}

/// Appends the name of the register in a line about a refusal.
fn push_register(alloc: Global, text: &mut String, line: &str) -> Result<(), AllocError> {
    if let Some((_, number)) = line.split_once("register ") {
        if let Some(name) = digits(10, 2, number.as_bytes()).and_then(abi_name) {
            text.push_str(&format!(in alloc; ", and x{number} is {name}")?)?;
        }
    }
    Ok(())
}

/// Appends the line of a file, numbered from 1, that a printed line names.
fn push_line(alloc: Global, text: &mut String, line: &str, bytes: &[u8]) -> Result<(), AllocError> {
    let (_, number) = line.split_once("line ").unwrap_or((line, ""));
    let number = digits(10, 20, number.as_bytes()).unwrap_or(0);
    if number == 0 {
        return Ok(());
    }
    let mut lines = bytes.split(|byte| *byte == b'\n');
    if let Some(found) = lines.nth((number - 1) as usize) {
        let found = found.trim_with(|c| c == ' ' || c == '\t');
        text.push_str(&printable(alloc, found, MOST_OF_NAME)?)?;
        text.push_str("\n")?;
    }
    Ok(())
}

/// Whether a line names a limit on a file that was read: any limit but those on loading and
/// reading. Then only the file's sections need reading again.
fn was_read(line: &str) -> bool {
    let (limit, _) = line.split_once(":").unwrap_or((line, ""));
    limit.starts_with('L') && limit != "L1" && limit != "L5" && limit != "L10"
}

/// Appends the place in a file that a line names, or for a limit the largest section.
fn push_where(
    alloc: Global,
    text: &mut String,
    line: &str,
    bytes: &[u8],
) -> Result<(), AllocError> {
    if line.starts_with('N') {
        return Ok(());
    }
    if was_read(line) {
        return match read_sections(alloc, bytes) {
            Ok(sections) => push_largest(alloc, text, sections.as_slice()),
            Err(_) => Ok(()),
        };
    }
    let Ok(file) = read_elf(alloc, bytes) else {
        return Ok(());
    };
    if let Some(address) = address_behind(line, "address 0x") {
        push_place(alloc, text, &file, address)?;
        push_register(alloc, text, line)?;
        return text.push_str("\n");
    }
    if line.starts_with('L') {
        return push_largest(alloc, text, file.sections.as_slice());
    }
    Ok(())
}

/// For a refused file or an exceeded limit: why, what mends it, and the place.
fn refused<S: Shelf>(
    alloc: Global,
    asked: &Order,
    line: &str,
    shelf: &mut S,
) -> Result<String, AllocError>
    ensures { S.files shelf.new ≡ S.files shelf.old }
{
    let sentence = rule_sentence(line);
    let (_, found) = line.split_once(": ").unwrap_or(("", line));
    let [name] = sources(asked) else {
        return format!(in alloc; "qed: {sentence} ({found})\n");
    };
    let file = path(alloc, name.as_str())?;
    let mut text = format!(in alloc; "qed: {file}: {sentence} ({found})\n")?;
    if let Some(bytes) = loaded(alloc, name.as_str(), shelf)? {
        push_where(alloc, &mut text, line, bytes.as_slice())?;
        push_line(alloc, &mut text, line, bytes.as_slice())?;
    }
    Ok(text)
}

/// The name of a file, as it is printed.
pub(crate) fn path(alloc: Global, name: &str) -> Result<String, AllocError> {
    printable(alloc, name.as_bytes(), MOST_OF_PATH)
}

/// Ends a line with the machine's reason, if there is one.
pub(crate) fn push_reason(
    alloc: Global,
    text: &mut String,
    reason: Option<Error>,
) -> Result<(), AllocError> {
    if let Some(error) = reason {
        text.push_str(&format!(in alloc; ": {error}")?)?;
    }
    text.push_str("\n")
}

/// The first of the files that cannot be read.
fn first_unread<'a, S: Shelf>(alloc: Global, names: &'a [Name], shelf: &mut S) -> Option<&'a Name>
    ensures { S.files shelf.new ≡ S.files shelf.old }
{
    let mut found = None;
    for name in names {
        let loaded = shelf.load(alloc, name.as_str(), 0);
        if matches!(&loaded, Err(LoadError::Failed)) && found.is_none() {
            found = Some(name);
        }
    }
    found
}

/// The file that could not be read, and the machine's reason.
fn unread<S: Shelf>(
    alloc: Global,
    asked: &Order,
    reason: Option<Error>,
    shelf: &mut S,
) -> Result<String, AllocError>
    ensures { S.files shelf.new ≡ S.files shelf.old }
{
    let Some(name) = first_unread(alloc, sources(asked), shelf) else {
        return Ok(String::new(alloc));
    };
    let name = path(alloc, name.as_str())?;
    let mut text = format!(in alloc; "qed: {name} could not be read")?;
    push_reason(alloc, &mut text, reason)?;
    Ok(text)
}

/// That an output replaced its input, or else, on a terminal, how much longer the output is.
fn output_note<S: Shelf>(
    alloc: Global,
    asked: &Order,
    line: &str,
    on_terminal: bool,
    shelf: &mut S,
) -> Result<String, AllocError>
    requires { IsSoundOrder asked.now }
    ensures { S.files shelf.new ≡ S.files shelf.old }
{
    let (code, _) = line.split_once(" ").unwrap_or((line, ""));
    let bytes = digits(10, 20, code.as_bytes()).unwrap_or(0);
    match asked {
        Order::Transform(input, output, _) if input.as_str() == output.as_str() => {
            let name = path(alloc, output.as_str())?;
            format!(in alloc; "qed: {name} is the output now, and the test is gone\n")
        }
        Order::Transform(input, _, options) if on_terminal => {
            growth(alloc, input.as_str(), options, bytes / 4, shelf)
        }
        _ => Ok(String::new(alloc)),
    }
}

/// The text for a person about a call, by the first line that it printed: what is wrong, and what may help. Empty if
/// nothing is wrong. On a terminal it adds how much longer an output is than its test. Changes no file.
pub fn advice<S: Shelf>(
    alloc: Global,
    call: &EndedCall<'_>,
    on_terminal: bool,
    shelf: &mut S,
) -> Result<String, AllocError>
    ensures { S.files shelf.new ≡ S.files shelf.old }
{
    let line = call.printed.lines().next().unwrap_or("");
    let (kind, rest) = line.split_once(" ").unwrap_or((line, ""));
    if kind == "usage:" {
        return usage(alloc, call.words, rest);
    }
    let Ok(asked) = order(alloc, call.words) else {
        return Ok(String::new(alloc));
    };
    match kind {
        "refused" | "limit" => refused(alloc, &asked, rest, shelf),
        "read" => unread(alloc, &asked, call.reason, shelf),
        "code" => output_note(alloc, &asked, rest, on_terminal, shelf),
        _ => of_run(alloc, &asked, call.printed, shelf),
    }
}
