//! The code ranges of a file.
ghost use Rattle.std.specs.Prelude.{◌≡◌, ◌++◌, true, false, IfOk};
ghost use Rattle.machine.specs.Loading.{load_segment, load_segments, lies_in_code, lies_in_any, section_ranges, segment_ranges, code_ranges};
ghost use Rattle.tests.specs.Admission.CodeWords.{ranges_of};
ghost use Rattle.tests.specs.Ranges.{spans};

use crate::range::Span;
use elf_types::{ElfFile, Section, Segment};
use std::alloc::{AllocError, Global};

/// Whether a section lies wholly inside a segment, which is executable.
pub fn lies_in(section: &Section, segment: &Segment) -> bool
    ensures { result ≡ lies_in_code section.now (load_segment segment.now) }
{
    segment.is_executable()
        && segment.address <= section.address
        && u128::from(section.address) + u128::from(section.size)
            <= u128::from(segment.address) + u128::from(segment.memory)
}

/// Whether a section lies wholly inside one executable segment of type PT_LOAD.
pub fn lies_in_any(section: &Section, segments: &[Segment]) -> bool
    ensures { result ≡ lies_in_any section.now (load_segments segments.now) }
{
    for segment in segments {
        if segment.is_load() && lies_in(section, segment) {
            return true;
        }
    }
    false
}

/// The sections of code that lie wholly inside an executable segment.
fn ranges_of_sections(
    alloc: Global,
    segments: &[Segment],
    sections: &[Section],
) -> Result<Vec<Span>, AllocError>
    ensures { IfOk result (λ ranges. spans ranges.items ≡ section_ranges (load_segments segments.now) sections.now) }
{
    let mut ranges = Vec::new(alloc);
    for section in sections {
        if section.is_code() && lies_in_any(section, segments) {
            ranges.push(Span {
                start: section.address,
                end: u128::from(section.address) + u128::from(section.size),
            })?;
        }
    }
    Ok(ranges)
}

/// The executable segments of type PT_LOAD that have bytes in memory.
fn ranges_of_segments(alloc: Global, segments: &[Segment]) -> Result<Vec<Span>, AllocError>
    ensures { IfOk result (λ ranges. spans ranges.items ≡ segment_ranges (load_segments segments.now)) }
{
    let mut ranges = Vec::new(alloc);
    for segment in segments {
        if segment.is_in_image() && segment.is_executable() {
            ranges.push(Span {
                start: segment.address,
                end: segment.end(),
            })?;
        }
    }
    Ok(ranges)
}

/// The code ranges of a file, in the order of their sections, or, where no section is one, in the order of their
/// segments.
pub fn code_ranges(alloc: Global, file: &ElfFile) -> Result<Vec<Span>, AllocError>
    ensures { IfOk result (λ ranges. spans ranges.items ≡ ranges_of file.now) }
{
    let segments = file.segments.as_slice();
    let found = ranges_of_sections(alloc, segments, file.sections.as_slice())?;
    if !found.is_empty() {
        return Ok(found);
    }
    let whole = ranges_of_segments(alloc, segments)?;
    Ok(whole)
}
