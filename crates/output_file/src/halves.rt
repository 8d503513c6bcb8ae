//! Both halves of the output.
ghost use Rattle.std.specs.Prelude.{◌≡◌, not, IfOk, map, filter};
ghost use Rattle.tests.specs.Admission.DataRanges.{range_of, is_in_any as is_in_any_of};
ghost use Rattle.qed_model.specs.Weave.OutputParts.{copies};
ghost use Rattle.qed_model.specs.Weave.OutputFile.{original_half as original_half_of, shifted as shifted_of, halves as halves_of};
ghost use Rattle.tests.specs.Ranges.{AreSpaced};
ghost use Rattle.output_file.specs.Images.{IsImage, HasRoom, EndLow};

use crate::ranges::{by_address, push_ranges};
use crate::segments::{copied, shifted};
use elf_types::Segment;
use qed_model::Range;
use std::alloc::{AllocError, Global};

/// Whether an address lies in one of ranges, which ascend.
fn is_in_any(ranges: &[Range], address: u64) -> bool
    ensures { AreSpaced range_of ranges.now → result ≡ is_in_any_of (map range_of ranges.now) address }
{
    let place = ranges.partition_point(|range| range.end <= address);
    place < ranges.len() && ranges[place].start <= address
}

/// The segments that lie in no data range, not executed.
fn others(alloc: Global, segments: &[Segment], ranges: &[Range]) -> Result<Vec<Segment>, AllocError>
    ensures { IfOk result (λ out. AreSpaced range_of ranges.now
        → out.items ≡ copies 0 (filter (λ s. not (is_in_any_of (map range_of ranges.now) s.address)) segments.now)) }
{
    let mut out = Vec::new(alloc);
    for segment in segments {
        if !is_in_any(ranges, segment.address) {
            out.push(copied(segment)?)?;
        }
    }
    Ok(out)
}

/// The original half: the segments that lie in no data range, and the data ranges.
pub fn original_half(
    alloc: Global,
    segments: &[Segment],
    ranges: &[Range],
) -> Result<Vec<Segment>, AllocError>
    ensures { IfOk result (λ half. IsImage segments.now ranges.now → half.items ≡ original_half_of segments.now) }
{
    let sorted = by_address(alloc, segments)?;
    let mut half = others(alloc, segments, ranges)?;
    push_ranges(&mut half, &sorted, ranges)?;
    half.sort_unstable_by_key(|segment| segment.address);
    Ok(half)
}

/// The segments at a distance from their places.
fn duplicate(alloc: Global, segments: &[Segment], distance: u64) -> Result<Vec<Segment>, AllocError>
    ensures { IfOk result (λ out. HasRoom distance segments.now → out.items ≡ map (shifted_of distance) segments.now) }
{
    let mut out = Vec::new(alloc);
    for segment in segments {
        out.push(shifted(segment, distance)?)?;
    }
    Ok(out)
}

/// Both halves of an image with these data ranges, at a distance from each other.
pub fn halves(
    alloc: Global,
    segments: &[Segment],
    ranges: &[Range],
    distance: u64,
) -> Result<Vec<Segment>, AllocError>
    ensures { IfOk result (λ both. IsImage segments.now ranges.now → EndLow distance segments.now → both.items ≡ halves_of distance segments.now) }
{
    let mut both = original_half(alloc, segments, ranges)?;
    let mut second = duplicate(alloc, &both, distance)?;
    both.append(&mut second)?;
    Ok(both)
}
