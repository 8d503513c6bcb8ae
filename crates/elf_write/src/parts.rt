//! The parts of the file, one behind the other.
ghost use Rattle.std.specs.Prelude.{◌≡◌, ◌-◌, ◌^◌, ◌<◌, ◌≤◌, ◌++◌, OnOk, All, length};
ghost use Rattle.machine.specs.declared.limits.TheConstants.{MAX_OUTPUT_SECTIONS};
ghost use Rattle.machine.specs.declared.limits.Limit.TheVariants as limit;
ghost use Rattle.machine.specs.Limits.{limit_of};
ghost use Rattle.tests.specs.Elf.Layout.{IsSymbol, names_bytes, table_names, headers_bytes, table_headers, table_header as header_of_table, written};
ghost use Rattle.elf_write.specs.Widths.{FileFits};
ghost use Rattle.elf_write.specs.Places.{ArePlaces, PartsEndWithin};

use crate::layout::{Places, TABLE_NAMES_SIZE};
use crate::numbers::push_zeros;
use crate::records::{NULL, push_header, push_section_header};
use crate::sections::{push_given_headers, push_own_bytes, push_section_names};
use crate::segments::{push_program_headers, push_segments};
use crate::symbols::{first_global, push_name, push_symbol_names, push_symbols};
use elf_types::abi::{SHT_STRTAB, SHT_SYMTAB, SYM_SIZE};
use elf_types::{OutFile, SectionHeader};
use std::alloc::AllocError;

/// Appends the names of the tables that are added.
fn push_table_names(out: &mut Vec<u8>) -> Result<(), AllocError>
    ensures { OnOk result (out.new.items ≡ out.old.items ++ names_bytes table_names) }
{
    push_name(out, b".symtab")?;
    push_name(out, b".strtab")?;
    push_name(out, b".shstrtab")
}

/// Appends the headers of the tables that are added.
#[tactic(auto, using(crate::proofs::Sizes::laid_out))]
fn push_table_headers(out: &mut Vec<u8>, file: &OutFile, places: &Places) -> Result<(), AllocError>
    requires places { ArePlaces file.now places.now }
    requires size { PartsEndWithin (limit_of limit.CountedBytes) file.now }
    requires few_sections { length file.now.sections ≤ MAX_OUTPUT_SECTIONS }
    ensures { OnOk result (out.new.items ≡ out.old.items ++ headers_bytes (table_headers file.now)) }
{
    let sections = file.sections.as_slice().len() as u32;
    let name = (places.names_end - places.names - TABLE_NAMES_SIZE) as u32;
    let symtab = table_header(name, SHT_SYMTAB, places.symbols, places.strings);
    push_section_header(
        out,
        SectionHeader {
            link: sections + 2,
            info: first_global(file.symbols.as_slice()) as u32,
            entsize: SYM_SIZE,
            ..symtab
        },
    )?;
    push_section_header(
        out,
        table_header(name + 8, SHT_STRTAB, places.strings, places.names),
    )?;
    push_section_header(
        out,
        table_header(name + 16, SHT_STRTAB, places.names, places.names_end),
    )?;
    Ok(())
}

/// The header of a table that stands from one place of the file to another.
fn table_header(name: u32, kind: u32, from: u128, to: u128) -> SectionHeader
    requires from { from ≤ to }
    requires to { to < 2 ^ 64 }
    ensures { result ≡ header_of_table name kind from (to - from) 0 0 0 }
{
    SectionHeader {
        name,
        kind,
        offset: from as u64,
        size: (to - from) as u64,
        ..NULL
    }
}

/// Appends the parts of a file, one behind the other.
pub fn push_parts(out: &mut Vec<u8>, file: &OutFile, places: &Places) -> Result<(), AllocError>
    requires places { ArePlaces file.now places.now }
    requires size { PartsEndWithin (limit_of limit.CountedBytes) file.now }
    requires few_segments { length file.now.segments ≤ limit_of limit.OutputSegments }
    requires few_sections { length file.now.sections ≤ MAX_OUTPUT_SECTIONS }
    requires symbols { All IsSymbol file.now.symbols }
    ensures bytes { OnOk result (out.new.items ≡ out.old.items ++ written file.now) }
    ensures fits { OnOk result (FileFits file.now) }
{
    let segments = file.segments.as_slice();
    let sections = file.sections.as_slice();
    let symbols = file.symbols.as_slice();
    let start = places.start as u64;
    push_header(out, file, places.headers as u64)?;
    push_program_headers(out, segments, start)?;
    push_segments(out, segments, start)?;
    push_own_bytes(out, sections)?;
    push_zeros(out, (places.symbols - places.own_end) as u64)?;
    push_symbols(out, symbols)?;
    out.push(0)?;
    push_symbol_names(out, symbols)?;
    out.push(0)?;
    push_section_names(out, sections)?;
    push_table_names(out)?;
    push_zeros(out, (places.headers - places.names_end) as u64)?;
    push_section_header(out, NULL)?;
    push_given_headers(out, sections, segments, start, places.own as u64)?;
    push_table_headers(out, file, places)?;
    Ok(())
}
