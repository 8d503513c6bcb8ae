//! What is read of a file, a line for each part.

use crate::digest::digest_of;
use crate::line::Lines;
use elf_read::read_elf;
use elf_types::{Bytes, ElfError, ElfFile, Rela, Section, Segment, Symbol};
use report::error_text;
use std::alloc::{AllocError, Global};

/// A name as text: `-` if it is empty, `?` if it is not UTF-8.
fn named(name: &Bytes) -> &str {
    match str::from_utf8(name.as_slice()) {
        Ok("") => "-",
        Ok(text) => text,
        Err(_) => "?",
    }
}

fn segment(lines: &mut Lines, segment: &Segment, bytes: &str) -> Result<(), AllocError> {
    lines.text("segment")?;
    lines.field("type", u64::from(segment.kind))?;
    lines.field("flags", u64::from(segment.flags))?;
    lines.field("at", segment.address)?;
    lines.field("memory", segment.memory)?;
    lines.text(", ")?;
    lines.text(bytes)?;
    lines.end()
}

fn section(lines: &mut Lines, section: &Section) -> Result<(), AllocError> {
    lines.text("section")?;
    lines.word(named(&section.name))?;
    lines.field("type", u64::from(section.kind))?;
    lines.field("flags", section.flags)?;
    lines.field("at", section.address)?;
    lines.field("size", section.size)?;
    lines.end()
}

fn symbol(lines: &mut Lines, symbol: &Symbol) -> Result<(), AllocError> {
    lines.text("symbol")?;
    lines.word(named(&symbol.name))?;
    lines.field("value", symbol.value)?;
    lines.field("size", symbol.size)?;
    lines.count("type", u64::from(symbol.kind))?;
    lines.count("binding", u64::from(symbol.binding))?;
    lines.count("other", u64::from(symbol.other))?;
    lines.field("section", u64::from(symbol.index))?;
    lines.end()
}

fn relocation(lines: &mut Lines, rela: &Rela, addend: &str) -> Result<(), AllocError> {
    lines.text("relocation")?;
    lines.field("at", rela.place)?;
    lines.count("type", u64::from(rela.kind))?;
    lines.count("symbol", u64::from(rela.symbol))?;
    lines.word("addend")?;
    lines.word(addend)?;
    lines.end()
}

fn header(lines: &mut Lines, file: &ElfFile) -> Result<(), AllocError> {
    lines.text("entry")?;
    lines.hex(file.entry)?;
    lines.field("flags", u64::from(file.flags))?;
    lines.end()
}

/// The lines of a file that was read.
fn parts(alloc: Global, file: &ElfFile) -> Result<String, AllocError> {
    let mut lines = Lines::new(alloc);
    header(&mut lines, file)?;
    for it in file.segments.as_slice() {
        segment(&mut lines, it, &digest_of(alloc, it.bytes.as_slice())?)?;
    }
    for it in file.sections.as_slice() {
        section(&mut lines, it)?;
    }
    for it in file.symbols.as_slice() {
        symbol(&mut lines, it)?;
    }
    for it in file.relas.as_slice() {
        let addend = it.addend;
        relocation(&mut lines, it, &format!(in alloc; "{addend}")?)?;
    }
    Ok(lines.into_text())
}

/// A printed line as text.
pub(crate) fn text_of(alloc: Global, line: &Bytes) -> Result<String, AllocError> {
    String::from_str(alloc, named(line))
}

/// The line about a file that is not read.
pub(crate) fn refusal(alloc: Global, error: ElfError) -> Result<String, AllocError> {
    text_of(alloc, &error_text(alloc, error)?)
}

/// What is read of a file.
pub(crate) fn read(alloc: Global, bytes: &[u8]) -> Result<String, AllocError> {
    match read_elf(alloc, bytes) {
        Ok(file) => parts(alloc, &file),
        Err(error) => refusal(alloc, error),
    }
}
