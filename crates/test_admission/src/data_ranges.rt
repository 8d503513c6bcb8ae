//! The data ranges, and the rule on segments that share a word with them.
ghost use Rattle.std.specs.Prelude.{◌≡◌, ◌<◌, ◌++◌, map, filter, position, IfOk, List, MatchResult};
ghost use Rattle.elf_types.specs.declared.file.Segment.{Segment as ElfSegment};
ghost use Rattle.tests.specs.declared.options.Options.{Options};
ghost use Rattle.tests.specs.Admission.Terms.{image_segments};
ghost use Rattle.tests.specs.Admission.DataRanges.{rounded, meets_code, is_data, data_parts};
ghost use Rattle.tests.specs.Admission.Rules.{is_mixed, segment_range};
ghost use Rattle.tests.specs.Admission.Refusals.{IsRefusedBy};
ghost use Rattle.tests.specs.Admission.Places.{image_of};
ghost use Rattle.tests.specs.Ranges.{span, spans, AreSpaced};
ghost use Rattle.test_admission.specs.Spans.{HaveSome};
ghost use Rattle.test_admission.specs.DataSpans.{executed_spans, AreCode, IsDataOf};
ghost use Rattle.test_admission.specs.Order.{PassesBelow};

use crate::spans::{joined, meets};
use elf_types::{ElfFile, Segment};
use qed_model::AdmitError;
use std::alloc::{AllocError, Global};
use tests::Span;

/// The aligned words of code, and the data ranges, each joined and in ascending order.
#[derive(Drop)]
pub struct DataSpans {
    /// The segments that are executed, rounded out to multiples of 8.
    pub code: Vec<Span>,
    pub ranges: Vec<Span>,
}

/// The addresses of a segment.
fn whole(segment: &Segment) -> Span
    ensures { span result ≡ segment_range segment.now }
{
    Span {
        start: segment.address,
        end: segment.end(),
    }
}

/// The addresses of a segment, rounded out to multiples of 8.
fn rounded(segment: &Segment) -> Span
    ensures { span result ≡ rounded segment.now }
{
    let (address, memory) = (segment.address, segment.memory);
    let end = u128::from(address) + u128::from(memory);
    Span {
        start: segment.address / 8 * 8,
        end: (end + 7) / 8 * 8,
    }
}

/// The segments of the image that are executed, rounded out.
fn code_parts(alloc: Global, segments: &[Segment]) -> Result<Vec<Span>, AllocError>
    ensures parts { IfOk result (λ parts. spans parts.items ≡ executed_spans (image_segments segments.now)) }
    ensures some { IfOk result (λ parts. HaveSome parts.items) }
{
    let mut parts = Vec::new(alloc);
    for segment in segments {
        if segment.is_in_image() && segment.is_executable() {
            parts.push(rounded(segment))?;
        }
    }
    Ok(parts)
}

/// Whether a segment of the image shares an aligned word of 8 bytes with the code of the image.
#[tactic(auto, using(crate::proofs::DataLaws::meets_joined))]
fn meets_code(code: &[Span], segment: &Segment) -> bool
    requires spaced { AreSpaced span code.now }
    requires room { 0 < segment.now.memory }
    ensures { (ss : List ElfSegment) → AreCode (image_segments ss) code.now → result ≡ meets_code (image_segments ss) segment.now }
{
    meets(code, rounded(segment))
}

/// Whether a segment of the image is one of data, given the code of the image.
fn is_data(code: &[Span], segment: &Segment) -> bool
    requires spaced { AreSpaced span code.now }
    requires room { 0 < segment.now.memory }
    ensures { (ss : List ElfSegment) → AreCode (image_segments ss) code.now → result ≡ is_data (image_segments ss) segment.now }
{
    segment.is_writable() || !segment.is_executable() && !meets_code(code, segment)
}

/// The data segments, rounded out.
fn data_parts(alloc: Global, segments: &[Segment], code: &[Span]) -> Result<Vec<Span>, AllocError>
    requires { AreCode (image_segments segments.now) code.now }
    ensures parts { IfOk result (λ parts. spans parts.items ≡ data_parts (image_segments segments.now)) }
    ensures some { IfOk result (λ parts. HaveSome parts.items) }
{
    let mut parts = Vec::new(alloc);
    for segment in segments {
        if segment.is_in_image() && is_data(code, segment) {
            parts.push(rounded(segment))?;
        }
    }
    Ok(parts)
}

/// The code of the image, rounded out, and its data ranges.
pub fn data_spans(alloc: Global, file: &ElfFile) -> Result<DataSpans, AllocError>
    ensures { IfOk result (λ spans. IsDataOf (image_of file.now) spans) }
{
    let segments = file.segments.as_slice();
    let code = joined(alloc, code_parts(alloc, segments)?)?;
    let ranges = joined(alloc, data_parts(alloc, segments, &code)?)?;
    Ok(DataSpans { code, ranges })
}

/// Whether a segment of the image is not one of data, and has a byte in a data range.
fn is_mixed(spans: &DataSpans, segment: &Segment) -> bool
    requires code { AreSpaced span spans.now.code.items }
    requires ranges { AreSpaced span spans.now.ranges.items }
    ensures { (ss : List ElfSegment) → IsDataOf (image_segments ss) spans.now → result ≡ is_mixed (image_segments ss) segment.now }
{
    segment.is_in_image() && !is_data(&spans.code, segment) && meets(&spans.ranges, whole(segment))
}

/// The number of the first such segment of a file.
fn first_mixed(file: &ElfFile, spans: &DataSpans) -> Option<usize>
    requires { IsDataOf (image_of file.now) spans.now }
    ensures { result ≡ position (is_mixed (image_of file.now)) file.now.segments }
{
    let segments = file.segments.as_slice();
    segments.iter().position(|segment| is_mixed(spans, segment))
}

/// Tests the rule on segments that share a word with data, behind those on code.
#[tactic(auto, using(crate::proofs::DataLaws::refused_mixed, crate::proofs::DataLaws::passes_data))]
pub fn check_data(file: &ElfFile, spans: &DataSpans) -> Result<(), AdmitError>
    requires spans { IsDataOf (image_of file.now) spans.now }
    requires passed { (o : Options) → PassesBelow file.now o 10 }
    ensures { MatchResult result (λ _. (o : Options) → PassesBelow file.now o 11) (λ e. (o : Options) → IsRefusedBy file.now o e) }
{
    match first_mixed(file, spans) {
        Some(number) => Err(AdmitError::DataMixed(number as u64)),
        None => Ok(()),
    }
}
