//! Places of a file, as its sections and symbols name them.

use elf_types::{ElfFile, Section, Segment};
use listing::nearest;
use rv_text::text_of;
use std::alloc::{AllocError, Global};
use texts::{MOST_OF_NAME, printable};

/// The names that the calling convention has for x14 to x31.
const NAMES: [&str; 18] = [
    "a4", "a5", "a6", "a7", "s2", "s3", "s4", "s5", "s6", "s7", "s8", "s9", "s10", "s11", "t3",
    "t4", "t5", "t6",
];

/// The name of a register above x13 in the calling convention.
pub(crate) fn abi_name(register: u64) -> Option<&'static str> {
    NAMES.get((register as usize).checked_sub(14)?).copied()
}

/// Whether a file is an output: it has a section `.qed.map`.
pub(crate) fn is_output(file: &ElfFile) -> bool {
    file.sections.as_slice().iter().any(|section| section.name.as_slice() == b".qed.map".as_slice())
}

/// Whether an address is mapped.
fn is_mapped(file: &ElfFile, address: u64) -> bool {
    file.segments.as_slice().iter().any(|segment| segment.is_load()
        && segment.address <= address
        && u128::from(address) < segment.end())
}

/// Whether the eight bytes from an address on are mapped.
pub(crate) fn is_word_mapped(file: &ElfFile, address: u64) -> bool {
    (0..8).all(|place| is_mapped(file, address.saturating_add(place)))
}

/// The bytes of a segment from an address on.
fn bytes_at(segment: &Segment, address: u64) -> &[u8] {
    if !segment.is_load() || address < segment.address {
        return &[];
    }
    let offset = address - segment.address;
    let bytes = segment.bytes.as_slice();
    if offset >= bytes.len() as u64 {
        return &[];
    }
    bytes.split_at(offset as usize).1
}

/// The word at an address.
pub(crate) fn word_at(file: &ElfFile, address: u64) -> Option<u32> {
    for segment in file.segments.as_slice() {
        if let [a, b, c, d, ..] = bytes_at(segment, address) {
            return Some(u32::from_le_bytes([*a, *b, *c, *d]));
        }
    }
    None
}

/// Appends an address by the nearest code symbol at or below it, if there is one: `, NAME+0xN`.
fn push_symbol(
    alloc: Global,
    text: &mut String,
    file: &ElfFile,
    address: u64,
) -> Result<(), AllocError> {
    let Some(symbol) = nearest(address, file.symbols.as_slice()) else {
        return Ok(());
    };
    let name = printable(alloc, symbol.name.as_slice(), MOST_OF_NAME)?;
    let offset = address.saturating_sub(symbol.value);
    text.push_str(&format!(in alloc; ", {name}+0x{offset:x}")?)
}

/// Appends where a code address is: its symbol, and the instruction there.
pub(crate) fn push_place(
    alloc: Global,
    text: &mut String,
    file: &ElfFile,
    address: u64,
) -> Result<(), AllocError> {
    text.push_str(&format!(in alloc; "at 0x{address:x}")?)?;
    push_symbol(alloc, text, file, address)?;
    if let Some(word) = word_at(file, address) {
        let instruction = text_of(alloc, word)?;
        text.push_str(": ")?;
        text.push_str(str::from_utf8(instruction.as_slice()).unwrap_or(""))?;
    }
    Ok(())
}

/// Appends the name of a file's largest section.
pub(crate) fn push_largest(
    alloc: Global,
    text: &mut String,
    sections: &[Section],
) -> Result<(), AllocError> {
    let mut largest = None;
    let mut size = 0;
    for section in sections {
        if section.size > size {
            size = section.size;
            largest = Some(section);
        }
    }
    if let Some(section) = largest {
        let name = printable(alloc, section.name.as_slice(), MOST_OF_NAME)?;
        text.push_str(&format!(in alloc; "the largest section is {name} with {size} bytes\n")?)?;
    }
    Ok(())
}
