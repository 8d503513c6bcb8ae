//! The output file.
ghost use Rattle.std.specs.Prelude.{◌≡◌, ℕ, ◌+◌, ◌*◌, ◌^◌, ◌<◌, ◌++◌, ◌∷◌, [], if◌then◌else◌, Some, None, IfOk, OnOk};
ghost use Rattle.tests.specs.declared.options.Options.{Options as TestOptions};
ghost use Rattle.machine.specs.Numbers.{bytes_of as bytes_of_words};
ghost use Rattle.qed_model.specs.Weave.OutputParts.{code_segment as code_segment_of, out_symbols};
ghost use Rattle.qed_model.specs.Weave.OutputFile.{table_segment as table_segment_of, file_of};
ghost use Rattle.qed_model.specs.Weave.Placed.{EntriesAscend};
ghost use Rattle.output_file.specs.Entries.{AreEntries};
ghost use Rattle.output_file.specs.Segments.{if_any};
ghost use Rattle.output_file.specs.Tests.{IsEntered};

use crate::bytes::bytes_of;
use crate::halves::halves;
use crate::sections::sections;
use crate::segments::{moved, whole_segment};
use crate::symbols::symbols;
use crate::table::table_segment;
use elf_types::abi::{PF_R, PF_X};
use elf_types::{Bytes, ElfFile, Listed, OutFile, Segment, Symbol};
use qed_model::{EntryRow, Test};
use std::alloc::{AllocError, Global};

/// The new code as a segment.
fn code_segment(alloc: Global, address: u64, code: &[u32]) -> Result<Segment, AllocError>
    ensures { IfOk result (λ s. s ≡ code_segment_of address (bytes_of_words code.now)) }
{
    let bytes = bytes_of(alloc, code)?;
    Ok(whole_segment(PF_R | PF_X, address, Bytes::of(bytes)))
}

/// The table, if there is one.
fn table_part(
    alloc: Global,
    table: bool,
    entries: &[EntryRow],
    distance: u64,
) -> Result<Option<Segment>, AllocError>
    ensures { IfOk result (λ part. (high : ℕ) → AreEntries high entries.now
        → high + 2 * distance < 2 ^ 64 → part ≡ (if table then Some (table_segment_of distance entries.now) else None)) }
{
    if !table {
        return Ok(None);
    }
    let segment = table_segment(alloc, entries, distance)?;
    Ok(Some(segment))
}

/// Appends the table, if there is one, and the new code.
fn push_parts(
    segments: &mut Vec<Segment>,
    table: Option<Segment>,
    code: Segment,
) -> Result<(), AllocError>
    ensures { OnOk result (segments.new.items ≡ segments.old.items ++ (if_any table ++ code ∷ [])) }
{
    if let Some(table) = table {
        segments.push(table)?;
    }
    segments.push(code)?;
    Ok(())
}

/// Where the new code begins: behind both halves and the room of the table.
fn code_address(test: &Test) -> u64
    ensures { test.now.base + 3 * test.now.distance < 2 ^ 64 → result ≡ test.now.base + 3 * test.now.distance }
{
    let second = moved(test.base, test.distance);
    moved(moved(second, test.distance), test.distance)
}

/// The new code of a test, and how many bytes it has.
#[derive(Clone, Copy)]
pub struct Code<'a> {
    pub words: &'a [u32],
    pub bytes: u64,
    pub entries: &'a [EntryRow],
    /// Whether the output has a table, as `has_table` answers for the blocks.
    pub table: bool,
}

/// The output of a file that was admitted as a test, with this new code, but without symbols.
pub fn bare_file(
    alloc: Global,
    file: &ElfFile,
    test: &Test,
    code: &Code<'_>,
) -> Result<OutFile, AllocError>
    ensures { IfOk result (λ out. (o : TestOptions) → IsEntered file.now o test.now code.now.entries.now
        → out ≡ record (file_of file.now o.half code.now.table code.now.entries.now (bytes_of_words code.now.words.now)) { symbols = [] }) }
{
    let (image, span) = (test.segments.as_slice(), test.span.as_slice());
    let mut segments = halves(alloc, image, span, test.distance)?;
    let table = table_part(alloc, code.table, code.entries, test.distance)?;
    let address = code_address(test);
    let segment = code_segment(alloc, address, code.words)?;
    let sections = sections(alloc, &segment, &table, code.entries)?;
    push_parts(&mut segments, table, segment)?;
    Ok(OutFile {
        entry: address,
        flags: file.flags,
        segments: Listed::of(segments),
        sections: Listed::of(sections),
        symbols: Listed::of(Vec::new(alloc)),
    })
}

/// The output with the symbols of its input, at their new addresses by these entries.
pub fn with_symbols(
    alloc: Global,
    bare: OutFile,
    entries: &[EntryRow],
    given: &[Symbol],
) -> Result<OutFile, AllocError>
    ensures { IfOk result (λ out. EntriesAscend entries.now → out ≡ record bare { symbols = out_symbols entries.now given.now }) }
{
    let symbols = symbols(alloc, entries, given)?;
    Ok(OutFile {
        symbols: Listed::of(symbols),
        ..bare
    })
}
