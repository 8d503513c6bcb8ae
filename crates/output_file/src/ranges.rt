//! Data ranges, each as one segment.
ghost use Rattle.std.specs.Prelude.{◌≡◌, ◌++◌, IfOk, OnOk, map};
ghost use Rattle.std.specs.List.Sorted.{IsPermutation, IsNonDecreasingBy};
ghost use Rattle.tests.specs.Admission.DataRanges.{range_of};
ghost use Rattle.qed_model.specs.Weave.OutputFile.{range_flags as range_flags_of};
ghost use Rattle.output_file.specs.Runs.{run_of, run_bytes, run_segment};

use crate::bytes::push_behind;
use elf_types::abi::{PF_R, PF_W, PT_LOAD};
use elf_types::{Bytes, Segment};
use qed_model::Range;
use std::alloc::{AllocError, Global};

/// The segments, by reference.
fn all_of(alloc: Global, segments: &[Segment]) -> Result<Vec<&Segment>, AllocError>
    ensures { IfOk result (λ all. map (λ s. s.now) all.items ≡ segments.now) }
{
    segments.iter().collect(alloc)
}

/// The segments in ascending order of their addresses.
pub fn by_address(alloc: Global, segments: &[Segment]) -> Result<Vec<&Segment>, AllocError>
    ensures same { IfOk result (λ sorted. IsPermutation segments.now (map (λ s. s.now) sorted.items)) }
    ensures ascend { IfOk result (λ sorted. IsNonDecreasingBy (λ s. s.now.address) sorted.items) }
{
    let mut sorted = all_of(alloc, segments)?;
    sorted.sort_unstable_by_key(|segment| segment.address);
    Ok(sorted)
}

/// The permissions of a range with these segments.
fn range_flags(held: &[&Segment]) -> u32
    ensures { result ≡ range_flags_of (map (λ s. s.now) held.now) }
{
    for segment in held {
        if segment.is_writable() {
            return PF_R | PF_W;
        }
    }
    PF_R
}

/// The bytes of ascending segments from an address on, up to the last byte that one of them has in the file.
fn laid_bytes(alloc: Global, start: u64, held: &[&Segment]) -> Result<Vec<u8>, AllocError>
    ensures { IfOk result (λ bytes. bytes.items ≡ run_bytes start (map (λ s. s.now) held.now)) }
{
    let mut bytes = Vec::new(alloc);
    for segment in held {
        let more = segment.bytes.as_slice();
        if more.len() > 0 {
            let before = segment.address.saturating_sub(start);
            let zeros = before.saturating_sub(bytes.len() as u64);
            push_behind(&mut bytes, zeros, more)?;
        }
    }
    Ok(bytes)
}

/// As `laid_bytes`, but a segment that stands alone shares its bytes.
#[tactic(auto, using(crate::proofs::Alone::alone_in, crate::proofs::Alone::bytes_alone))]
fn range_bytes(alloc: Global, start: u64, held: &[&Segment]) -> Result<Bytes, AllocError>
    ensures { IfOk result (λ bytes. bytes ≡ run_bytes start (map (λ s. s.now) held.now)) }
{
    if let [segment] = held {
        if segment.address <= start {
            let bytes = segment.bytes.clone()?;
            return Ok(bytes);
        }
    }
    let bytes = laid_bytes(alloc, start, held)?;
    Ok(Bytes::of(bytes))
}

/// The segments that begin in a range, of segments in ascending order.
fn held_in<'a, 'b>(sorted: &'a [&'b Segment], range: Range) -> &'a [&'b Segment]
    requires { IsNonDecreasingBy (λ s. s.now.address) sorted.now }
    ensures { map (λ s. s.now) result.now ≡ run_of (map (λ s. s.now) sorted.now) (range_of range) }
{
    let from = sorted.partition_point(|segment| segment.address < range.start);
    let rest = &sorted[from..];
    let size = rest.partition_point(|segment| segment.address < range.end);
    &rest[..size]
}

/// A data range as one segment; the segments of the image ascend.
fn range_segment(alloc: Global, sorted: &[&Segment], range: Range) -> Result<Segment, AllocError>
    requires { IsNonDecreasingBy (λ s. s.now.address) sorted.now }
    ensures { IfOk result (λ s. s ≡ run_segment (map (λ s. s.now) sorted.now) (range_of range)) }
{
    let held = held_in(sorted, range);
    Ok(Segment {
        kind: PT_LOAD,
        flags: range_flags(held),
        address: range.start,
        memory: range.end.saturating_sub(range.start),
        bytes: range_bytes(alloc, range.start, held)?,
    })
}

/// Appends the data ranges.
pub fn push_ranges(
    out: &mut Vec<Segment>,
    sorted: &[&Segment],
    ranges: &[Range],
) -> Result<(), AllocError>
    requires { IsNonDecreasingBy (λ s. s.now.address) sorted.now }
    ensures { OnOk result (out.new.items ≡ out.old.items ++ map (run_segment (map (λ s. s.now) sorted.now)) (map range_of ranges.now)) }
{
    let alloc = *out.allocator();
    for range in ranges {
        out.push(range_segment(alloc, sorted, *range)?)?;
    }
    Ok(())
}
