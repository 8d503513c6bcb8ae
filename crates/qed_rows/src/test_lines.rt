//! Rows about a test: its places, its code and data, its leaders and its blocks.
ghost use Rattle.qed_model.specs.Weave.SoundOptions.{AreSoundOptions};
ghost use Rattle.tests.specs.Admission.Test.{IsTestOf};

use crate::file_parts::{refusal, text_of};
use crate::line::Lines;
use block_split::{CodeBlock, blocks};
use elf_read::read_elf;
use elf_types::ElfFile;
use flow_recovery::{leaders, reached};
use qed_model::{Options, Range, Test};
use report::admit_text;
use std::alloc::{AllocError, Global};
use test_admission::admit;

fn range(lines: &mut Lines, what: &str, range: &Range) -> Result<(), AllocError> {
    lines.text(what)?;
    lines.hex(range.start)?;
    lines.field("to", range.end)?;
    lines.end()
}

fn places(lines: &mut Lines, test: &Test) -> Result<(), AllocError> {
    lines.text("entry")?;
    lines.hex(test.entry)?;
    lines.field("image", test.low)?;
    lines.field("to", test.high)?;
    lines.field("base", test.base)?;
    lines.field("distance", test.distance)?;
    lines.end()
}

fn at(lines: &mut Lines, what: &str, address: u64) -> Result<(), AllocError> {
    lines.text(what)?;
    lines.hex(address)?;
    lines.end()
}

fn with_text(lines: &mut Lines, what: &str, address: u64, text: &str) -> Result<(), AllocError> {
    lines.text(what)?;
    lines.hex(address)?;
    lines.word(text)?;
    lines.end()
}

/// The places, the code ranges, the data ranges and the code words.
fn parts(alloc: Global, lines: &mut Lines, test: &Test) -> Result<(), AllocError> {
    places(lines, test)?;
    for it in test.ranges.as_slice() {
        range(lines, "range", it)?;
    }
    for it in test.span.as_slice() {
        range(lines, "data", it)?;
    }
    for it in test.code.as_slice() {
        let word = it.word;
        with_text(lines, "word", it.at, &format!(in alloc; "0x{word:08x}")?)?;
    }
    Ok(())
}

/// The lengths of a block's pieces, and the kind of its end.
fn pieces(alloc: Global, block: &CodeBlock) -> Result<String, AllocError> {
    let lengths = block.lengths.as_slice();
    let end = block.end.map(|ins| ins.kind);
    format!(in alloc; "{lengths:?} {end:?}")
}

/// The leaders and the blocks of a test.
fn cut(
    alloc: Global,
    lines: &mut Lines,
    file: &ElfFile,
    test: &Test,
    options: &Options,
) -> Result<(), AllocError>
    requires test { IsTestOf file.now options.now test.now }
    requires sound { AreSoundOptions options.now }
{
    for it in leaders(alloc, test, file, options)?.as_slice() {
        at(lines, "leader", *it)?;
    }
    for it in blocks(alloc, test, file, options)?.as_slice() {
        with_text(lines, "block", it.start, &pieces(alloc, it)?)?;
    }
    Ok(())
}

/// The addresses of the words of a test that are reached.
fn reaches(
    alloc: Global,
    lines: &mut Lines,
    file: &ElfFile,
    test: &Test,
) -> Result<(), AllocError> {
    let marks = reached(alloc, test, file)?;
    for (i, it) in test.code.as_slice().iter().enumerate() {
        match marks.get(i) {
            Some(mark) if *mark => at(lines, "reached", it.at)?,
            _ => {}
        }
    }
    Ok(())
}

/// All lines about a test, or its reached words.
fn lines_of(
    alloc: Global,
    file: &ElfFile,
    test: &Test,
    options: &Options,
    is_reaching: bool,
) -> Result<String, AllocError>
    requires test { IsTestOf file.now options.now test.now }
    requires sound { AreSoundOptions options.now }
{
    let mut lines = Lines::new(alloc);
    if is_reaching {
        reaches(alloc, &mut lines, file, test)?;
    } else {
        parts(alloc, &mut lines, test)?;
        cut(alloc, &mut lines, file, test, options)?;
    }
    Ok(lines.into_text())
}

/// All lines about the test with these bytes, or its reached words, or why they are not a test.
pub(crate) fn test(
    alloc: Global,
    bytes: &[u8],
    options: &Options,
    is_reaching: bool,
) -> Result<String, AllocError>
    requires { AreSoundOptions options.now }
{
    let file = match read_elf(alloc, bytes) {
        Ok(file) => file,
        Err(error) => return refusal(alloc, error),
    };
    match admit(alloc, &file, options) {
        Ok(test) => lines_of(alloc, &file, &test, options, is_reaching),
        Err(error) => text_of(alloc, &admit_text(alloc, &error)?),
    }
}
