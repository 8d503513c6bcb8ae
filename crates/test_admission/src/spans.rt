//! Ranges of addresses: joined where they touch or overlap, and sought among joined ones.
ghost use Rattle.std.specs.Prelude.{◌≡◌, ◌++◌, IfOk};
ghost use Rattle.std.specs.List.{list_any};
ghost use Rattle.tests.specs.Admission.DataRanges.{do_meet, joined_ranges};
ghost use Rattle.tests.specs.Ranges.{span, spans, AreSpaced};
ghost use Rattle.test_admission.specs.Spans.{glue, glued, HaveSome};

use std::alloc::{AllocError, Global};
use tests::Span;

/// A range and those behind it, which begin no earlier.
fn glued_from(alloc: Global, first: Span, rest: &[Span]) -> Result<Vec<Span>, AllocError>
    ensures { IfOk result (λ ranges. spans ranges.items ≡ glue (span first) (spans rest.now)) }
{
    let mut ranges = Vec::new(alloc);
    let mut last = first;
    for next in rest {
        if u128::from(next.start) <= last.end {
            last.end = last.end.max(next.end);
        } else {
            ranges.push(last)?;
            last = *next;
        }
    }
    ranges.push(last)?;
    Ok(ranges)
}

/// Ranges in the order of their starts, joined.
fn glued(alloc: Global, sorted: &[Span]) -> Result<Vec<Span>, AllocError>
    ensures { IfOk result (λ ranges. spans ranges.items ≡ glued (spans sorted.now)) }
{
    match sorted {
        [first, rest @ ..] => {
            let ranges = glued_from(alloc, *first, rest)?;
            Ok(ranges)
        }
        [] => Ok(Vec::new(alloc)),
    }
}

/// Ranges in ascending order, where those that touch or overlap are joined.
pub fn joined(alloc: Global, mut parts: Vec<Span>) -> Result<Vec<Span>, AllocError>
    requires { HaveSome parts.items }
    ensures ranges { IfOk result (λ ranges. spans ranges.items ≡ joined_ranges (spans parts.items)) }
    ensures spaced { IfOk result (λ ranges. AreSpaced span ranges.items) }
{
    parts.sort_unstable_by_key(|part| part.start);
    let ranges = glued(alloc, &parts)?;
    Ok(ranges)
}

/// Whether a range has an address in common with one of joined ranges.
pub fn meets(ranges: &[Span], other: Span) -> bool
    requires { AreSpaced span ranges.now }
    ensures { result ≡ list_any (do_meet (span other)) (spans ranges.now) }
{
    let start = u128::from(other.start);
    let place = ranges.partition_point(|range| range.end <= start);
    place < ranges.len() && u128::from(ranges[place].start) < other.end
}
