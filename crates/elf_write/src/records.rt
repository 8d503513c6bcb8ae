//! The records of the file's tables (ELF gABI): header, program header, symbol, section header.
ghost use Rattle.std.specs.Prelude.{◌≡◌, ◌+◌, ◌^◌, ◌<◌, ◌≤◌, ◌++◌, OnOk, length};
ghost use Rattle.machine.specs.declared.limits.TheConstants.{MAX_OUTPUT_SECTIONS};
ghost use Rattle.machine.specs.declared.limits.Limit.TheVariants as limit;
ghost use Rattle.machine.specs.Limits.{limit_of};
ghost use Rattle.tests.specs.Elf.Written.{fields_bytes, program_fields};
ghost use Rattle.elf_write.specs.Widths.{SegmentFits};
ghost use Rattle.tests.specs.Elf.Layout.{file_fields, symbol_bytes, header_bytes, alignment as alignment_of};

use crate::numbers::{Number, push_numbers};
use byteorder::{ByteOrder, LittleEndian};
use elf_types::abi::{
    EHDR_SIZE, ELFCLASS64, ELFDATA2LSB, ELFMAG, EM_RISCV, ET_EXEC, EV_CURRENT, PHDR_SIZE,
    SHDR_SIZE, SHT_NULL, SHT_SYMTAB,
};
use elf_types::{OutFile, SectionHeader, Segment, SymbolEntry};
use rv_isa::profile::PAGE;
use std::alloc::AllocError;

/// The header of the null section.
pub const NULL: SectionHeader = SectionHeader {
    name: 0,
    kind: SHT_NULL,
    flags: 0,
    addr: 0,
    offset: 0,
    size: 0,
    link: 0,
    info: 0,
    entsize: 0,
};

/// Appends the header of a file whose section headers stand at an offset.
pub fn push_header(out: &mut Vec<u8>, file: &OutFile, headers: u64) -> Result<(), AllocError>
    requires few_segments { length file.now.segments ≤ limit_of limit.OutputSegments }
    requires few_sections { length file.now.sections ≤ MAX_OUTPUT_SECTIONS }
    ensures bytes { OnOk result (out.new.items ≡ out.old.items
        ++ fields_bytes (file_fields file.now.entry file.now.flags (length file.now.segments) headers (length file.now.sections))) }
    ensures fits { (file.now.entry < 2 ^ 64) × (file.now.flags < 2 ^ 32) }
{
    let (entry, flags) = (file.entry, file.flags);
    let segments = file.segments.as_slice().len() as u16;
    let sections = file.sections.as_slice().len() as u16;
    push_numbers(
        out,
        &[
            Number::Word(ELFMAG),
            Number::Byte(ELFCLASS64),
            Number::Byte(ELFDATA2LSB),
            Number::Byte(EV_CURRENT),
            Number::Byte(0),
            Number::Long(0),
            Number::Half(ET_EXEC),
            Number::Half(EM_RISCV),
            Number::Word(u32::from(EV_CURRENT)),
            Number::Long(entry),
            Number::Long(u64::from(EHDR_SIZE)),
            Number::Long(headers),
            Number::Word(flags),
            Number::Half(EHDR_SIZE),
            Number::Half(PHDR_SIZE),
            Number::Half(segments),
            Number::Half(SHDR_SIZE),
            Number::Half(sections + 4),
            Number::Half(sections + 3),
        ],
    )
}

/// Appends the program header of a segment whose bytes stand at an offset.
pub fn push_program_header(
    out: &mut Vec<u8>,
    segment: &Segment,
    offset: u64,
) -> Result<(), AllocError>
    ensures bytes { OnOk result (out.new.items ≡ out.old.items ++ fields_bytes (program_fields segment.now offset)) }
    ensures fits { OnOk result (SegmentFits segment.now) }
{
    let (flags, address, memory) = (segment.flags, segment.address, segment.memory);
    push_numbers(
        out,
        &[
            Number::Word(segment.kind),
            Number::Word(flags),
            Number::Long(offset),
            Number::Long(address),
            Number::Long(address),
            Number::Long(segment.bytes.as_slice().len() as u64),
            Number::Long(memory),
            Number::Long(PAGE),
        ],
    )
}

/// The bytes of an entry of the symbol table.
#[tactic(auto, unfolding(tests::specs::Elf::Layout::symbol_bytes, machine::specs::Numbers::number_bytes))]
pub fn symbol_bytes(entry: SymbolEntry) -> [u8; 24]
    ensures { result ≡ symbol_bytes entry }
{
    let mut bytes = [0; 24];
    LittleEndian::write_u32(&mut bytes, entry.name);
    bytes[4] = entry.info;
    bytes[5] = entry.other;
    LittleEndian::write_u16(&mut bytes[6..], entry.index);
    LittleEndian::write_u64(&mut bytes[8..], entry.value);
    LittleEndian::write_u64(&mut bytes[16..], entry.size);
    bytes
}

/// The alignment that the header of a section of this type tells, in bytes.
fn alignment(kind: u32) -> u64
    ensures { result ≡ alignment_of kind }
{
    match kind {
        SHT_NULL => 0,
        SHT_SYMTAB => 8,
        _ => 1,
    }
}

/// Appends a section header.
#[tactic(auto, unfolding(tests::specs::Elf::Layout::header_bytes))]
pub fn push_section_header(out: &mut Vec<u8>, header: SectionHeader) -> Result<(), AllocError>
    ensures { OnOk result (out.new.items ≡ out.old.items ++ header_bytes header) }
{
    push_numbers(
        out,
        &[
            Number::Word(header.name),
            Number::Word(header.kind),
            Number::Long(header.flags),
            Number::Long(header.addr),
            Number::Long(header.offset),
            Number::Long(header.size),
            Number::Word(header.link),
            Number::Word(header.info),
            Number::Long(alignment(header.kind)),
            Number::Long(header.entsize),
        ],
    )
}
