//! The sections of the output.
ghost use Rattle.std.specs.Prelude.{◌≡◌, ◌++◌, OnOk, IfOk};
ghost use Rattle.qed_model.specs.Weave.OutputParts.{map_section as map_section_of, row_bytes, map_bytes as map_bytes_of};
ghost use Rattle.output_file.specs.Sections.{sections_over};

use elf_types::abi::{SHF_ALLOC, SHF_EXECINSTR};
use elf_types::{Bytes, OutSection, Segment};
use elf_write::section;
use qed_model::EntryRow;
use std::alloc::{AllocError, Global};

/// The size of an entry in the map, in bytes.
const ROW_SIZE: u64 = 16;

/// Appends the input address and the new address of an entry.
#[tactic(auto, unfolding(machine::specs::Numbers::number_bytes, qed_model::specs::Weave::OutputParts::row_bytes))]
fn push_row(bytes: &mut Vec<u8>, row: &EntryRow) -> Result<(), AllocError>
    ensures { OnOk result (bytes.new.items ≡ bytes.old.items ++ row_bytes row.now) }
{
    bytes.extend_from_slice(&row.input.to_le_bytes())?;
    bytes.extend_from_slice(&row.output.to_le_bytes())?;
    Ok(())
}

/// The input address and the new address of each entry.
fn map_bytes(alloc: Global, entries: &[EntryRow]) -> Result<Vec<u8>, AllocError>
    ensures { IfOk result (λ bytes. bytes.items ≡ map_bytes_of entries.now) }
{
    let mut bytes = Vec::new(alloc);
    for row in entries {
        push_row(&mut bytes, row)?;
    }
    Ok(bytes)
}

/// The section with the places of the entries.
fn map_section(alloc: Global, entries: &[EntryRow]) -> Result<OutSection, AllocError>
    ensures { IfOk result (λ s. s ≡ map_section_of entries.now) }
{
    Ok(OutSection {
        name: Bytes::copied(alloc, b".qed.map")?,
        flags: 0,
        address: 0,
        size: ROW_SIZE * entries.len() as u64,
        bytes: Bytes::of(map_bytes(alloc, entries)?),
    })
}

/// The sections: over the new code, over the table if there is one, and the map.
pub fn sections(
    alloc: Global,
    code: &Segment,
    table: &Option<Segment>,
    entries: &[EntryRow],
) -> Result<Vec<OutSection>, AllocError>
    ensures { IfOk result (λ sections. sections.items ≡ sections_over code.now table.now entries.now) }
{
    let mut sections = Vec::new(alloc);
    sections.push(section(alloc, b".qed.text", SHF_ALLOC | SHF_EXECINSTR, code)?)?;
    if let Some(table) = table {
        sections.push(section(alloc, b".qed.table", SHF_ALLOC, table)?)?;
    }
    sections.push(map_section(alloc, entries)?)?;
    Ok(sections)
}
