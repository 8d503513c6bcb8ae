//! The rules on the entry and on the shape of code.
ghost use Rattle.std.specs.Prelude.{◌≡◌, position, ◌&&◌, ◌||◌, not, ◌==◌, ◌+◌, ◌%◌, MatchResult, OnOk};
ghost use Rattle.std.specs.List.{list_any};
ghost use Rattle.tests.specs.declared.options.Options.{Options};
ghost use Rattle.machine.specs.Loading.{load_segments, section_ranges};
ghost use Rattle.tests.specs.Admission.Terms.{is_cut, is_ragged, is_in, is_in_any, is_code_address};
ghost use Rattle.tests.specs.Admission.CodeWords.{ranges_of, loads_of};
ghost use Rattle.tests.specs.Admission.Rules.{is_misshapen_section, is_misshapen_segment, is_empty};
ghost use Rattle.tests.specs.Admission.Refusals.{IsRefusedBy};
ghost use Rattle.tests.specs.Ranges.{span, spans};
ghost use Rattle.test_admission.specs.Order.{PassesBelow};
ghost use Rattle.test_admission.specs.Shape.{IsShaped, is_ragged_code};

use elf_types::{ElfFile, Section, Segment};
use qed_model::AdmitError;
use tests::{Span, is_cut_by_any, lies_in_any};

/// Whether an address is in one of the ranges.
fn is_in_any(ranges: &[Span], address: u64) -> bool
    ensures { result ≡ is_in_any (spans ranges.now) address }
{
    let mut ends = ranges.iter().map(|range| (range.start, range.end));
    ends.any(|range| range.0 <= address && u128::from(address) < range.1)
}

/// Whether an address is a multiple of 4 in one of the ranges.
fn is_code(ranges: &[Span], address: u64) -> bool
    ensures { result ≡ is_code_address (spans ranges.now) address }
{
    address % 4 == 0 && is_in_any(ranges, address)
}

/// Whether the start or the size of a range is not a multiple of 4.
fn is_ragged(start: u64, size: u64) -> bool
    ensures { result ≡ is_ragged (start, start + size) }
{
    start % 4 != 0 || size % 4 != 0
}

/// Whether a section of code is cut by an executable segment, or is a ragged code range.
fn is_misshapen_section(segments: &[Segment], section: &Section) -> bool
    ensures { result ≡ is_misshapen_section (load_segments segments.now) section.now }
{
    section.is_code()
        && (is_cut_by_any(section, segments)
            || lies_in_any(section, segments) && is_ragged(section.address, section.size))
}

/// The number of the first such section.
fn first_misshapen_section(file: &ElfFile) -> Option<usize>
    ensures { result ≡ position (is_misshapen_section (loads_of file.now)) file.now.sections }
{
    let segments = file.segments.as_slice();
    let sections = file.sections.as_slice();
    sections
        .iter()
        .position(|section| is_misshapen_section(segments, section))
}

/// Whether no section is a code range.
fn has_no_section(segments: &[Segment], sections: &[Section]) -> bool
    ensures { result ≡ is_empty (section_ranges (load_segments segments.now) sections.now) }
{
    for section in sections {
        if section.is_code() && lies_in_any(section, segments) {
            return false;
        }
    }
    true
}

/// Whether a segment is executable and has bytes in memory, and its start or size is not a multiple of 4.
fn is_ragged_segment(segment: &Segment) -> bool
    ensures { result ≡ is_ragged_code segment.now }
{
    segment.is_in_image() && segment.is_executable() && is_ragged(segment.address, segment.memory)
}

/// The number of the first segment that is a ragged code range.
fn first_misshapen_segment(file: &ElfFile) -> Option<usize>
    ensures { result ≡ position (is_misshapen_segment file.now) file.now.segments }
{
    let segments = file.segments.as_slice();
    let whole = has_no_section(segments, file.sections.as_slice());
    segments
        .iter()
        .position(|segment| whole && is_ragged_segment(segment))
}

/// Tests the rules on the entry and on the shape of code, behind the first three.
#[tactic(auto, using(crate::proofs::ShapeLaws::refused_entry, crate::proofs::ShapeLaws::refused_section, crate::proofs::ShapeLaws::refused_segment, crate::proofs::ShapeLaws::passes_shape, crate::proofs::ShapeLaws::shaped))]
pub fn check_shape(file: &ElfFile, ranges: &[Span]) -> Result<(), AdmitError>
    requires ranges { spans ranges.now ≡ ranges_of file.now }
    requires passed { (o : Options) → PassesBelow file.now o 4 }
    ensures order { MatchResult result (λ _. (o : Options) → PassesBelow file.now o 6) (λ e. (o : Options) → IsRefusedBy file.now o e) }
    ensures shaped { OnOk result (IsShaped file.now) }
{
    if !is_code(ranges, file.entry) {
        return Err(AdmitError::NoCode(file.entry));
    }
    if let Some(number) = first_misshapen_section(file) {
        return Err(AdmitError::CodeShape(number as u64));
    }
    if let Some(number) = first_misshapen_segment(file) {
        return Err(AdmitError::CodeShape(number as u64));
    }
    Ok(())
}
