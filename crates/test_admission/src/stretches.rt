//! The code of a file in stretches: each in one segment, in ascending order, none with an address of another.
ghost use Rattle.std.specs.Prelude.{◌≡◌, ◌+◌, ◌-◌, ◌^◌, ◌<◌, ◌≤◌, ◌++◌, true, false, Contains, map, filter, drop, IfOk, MatchOption, All};
ghost use Rattle.std.specs.List.{list_any};
ghost use Rattle.machine.specs.Loading.{load_segment, load_segments};
ghost use Rattle.tests.specs.Ranges.{span, spans};
ghost use Rattle.tests.specs.Admission.CodeWords.{loads_of, ranges_of};
ghost use Rattle.test_admission.specs.Read.{AreRead};
ghost use Rattle.test_admission.specs.Shape.{IsShaped};
ghost use Rattle.test_admission.specs.Spans.{HaveSome};
ghost use Rattle.test_admission.specs.Stretches.{part_of, stretch_parts, part_span, ReadsImage, holds_code, is_held_code, trimmed_part, cut, AreCodeOf};

use elf_types::{ElfFile, Segment};
use std::alloc::{AllocError, Global};
use tests::{Span, rest_of};

/// Code in one segment.
#[derive(Clone, Copy)]
pub struct Stretch<'a> {
    /// The first address.
    pub start: u64,
    /// How many bytes.
    pub size: u64,
    /// What the file has of them, and maybe of others behind them; zeros follow.
    pub bytes: &'a [u8],
}

impl<'a> Stretch<'a> {
    /// A range that lies in a segment.
    fn of(segment: &'a Segment, range: Span) -> Stretch<'a>
        requires some { range.start < range.end }
        requires from { segment.now.address ≤ range.start }
        requires to { range.end ≤ segment.now.address + segment.now.memory }
        ensures { part_of result ≡ record {
          start = range.start;
          size = range.end - range.start;
          bytes = drop (range.start - segment.now.address) segment.now.bytes;
        } }
    {
        let (address, _memory) = (segment.address, segment.memory);
        Stretch {
            start: range.start,
            size: (range.end - u128::from(range.start)) as u64,
            bytes: rest_of(segment.bytes.as_slice(), range.start - address),
        }
    }

    /// The address behind the last.
    fn end(self) -> u128
        ensures { result ≡ self.entry.start + self.entry.size }
    {
        u128::from(self.start) + u128::from(self.size)
    }

    /// What it has from an address on, or all of it where it begins behind that.
    fn trimmed(self, done: u128) -> Stretch<'a>
        requires some { done < self.start + self.size }
        requires fits { self.start + self.size ≤ 2 ^ 64 }
        ensures { part_of result ≡ trimmed_part done (part_of self.entry) }
    {
        let start = u128::from(self.start);
        if done <= start {
            return self;
        }
        let skipped = (done - start) as u64;
        Stretch {
            start: self.start + skipped,
            size: self.size - skipped,
            bytes: rest_of(self.bytes, skipped),
        }
    }
}

/// Whether a segment is executable, and a range lies in it.
fn holds(segment: &Segment, range: Span) -> bool
    ensures { result ≡ holds_code (span range) (load_segment segment.now) }
{
    segment.is_executable() && segment.address <= range.start && range.end <= segment.end()
}

/// The first such segment of type PT_LOAD.
fn home<'a>(segments: &'a [Segment], range: Span) -> Option<&'a Segment>
    ensures { MatchOption result (is_held_code (load_segments segments.now) (span range) ≡ false) (λ s.
        (is_held_code (load_segments segments.now) (span range) ≡ true) × Contains segments.now s.now
        × (s.now.kind ≡ 1) × (holds_code (span range) (load_segment s.now) ≡ true)) }
{
    for segment in segments {
        if segment.is_load() && holds(segment, range) {
            return Some(segment);
        }
    }
    None
}

/// A range with the bytes that its segment has.
#[tactic(auto, using(machine::proofs::Lemmas::among_of, crate::proofs::Reading::held_from, crate::proofs::Reading::reads_of))]
fn stretch_of<'a>(segments: &'a [Segment], range: Span) -> Option<Stretch<'a>>
    requires read { AreRead (load_segments segments.now) }
    requires some { range.start < range.end }
    ensures { MatchOption result (is_held_code (load_segments segments.now) (span range) ≡ false) (λ part.
        (is_held_code (load_segments segments.now) (span range) ≡ true)
        × (part_span (part_of part) ≡ span range) × ReadsImage (load_segments segments.now) (part_of part)) }
{
    let segment = home(segments, range)?;
    Some(Stretch::of(segment, range))
}

/// The ranges that lie in segments of code, each with its bytes.
fn stretches_of<'a>(
    alloc: Global,
    segments: &'a [Segment],
    ranges: &[Span],
) -> Result<Vec<Stretch<'a>>, AllocError>
    requires read { AreRead (load_segments segments.now) }
    requires some { HaveSome ranges.now }
    ensures same { IfOk result (λ parts. map part_span (stretch_parts parts.items) ≡ filter (is_held_code (load_segments segments.now)) (spans ranges.now)) }
    ensures read { IfOk result (λ parts. All (ReadsImage (load_segments segments.now)) (stretch_parts parts.items)) }
{
    let mut parts = Vec::new(alloc);
    for range in ranges {
        if let Some(part) = stretch_of(segments, *range) {
            parts.push(part)?;
        }
    }
    Ok(parts)
}

/// Parts in the order of their starts, without what an earlier one has.
fn cut<'a>(alloc: Global, parts: &[Stretch<'a>]) -> Result<Vec<Stretch<'a>>, AllocError>
    requires { All (λ s. s.start + s.size ≤ 2 ^ 64) parts.now }
    ensures { IfOk result (λ pieces. stretch_parts pieces.items ≡ cut 0 (stretch_parts parts.now)) }
{
    let mut pieces = Vec::new(alloc);
    let mut done = 0;
    for part in parts {
        let end = part.end();
        if done < end {
            pieces.push(part.trimmed(done))?;
            done = end;
        }
    }
    Ok(pieces)
}

/// All code of a file with these code ranges, in ascending order.
#[tactic(auto, using(crate::proofs::Cutting::have_some, crate::proofs::Cutting::all_held, crate::proofs::Cutting::ranges_fit, crate::proofs::Cutting::code_of))]
pub fn code_stretches<'a>(
    alloc: Global,
    file: &'a ElfFile,
    ranges: &[Span],
) -> Result<Vec<Stretch<'a>>, AllocError>
    requires read { AreRead (loads_of file.now) }
    requires shaped { IsShaped file.now }
    requires ranges { spans ranges.now ≡ ranges_of file.now }
    ensures { IfOk result (λ code. AreCodeOf file.now (stretch_parts code.items)) }
{
    let mut parts = stretches_of(alloc, file.segments.as_slice(), ranges)?;
    parts.sort_unstable_by_key(|part| part.start);
    let pieces = cut(alloc, &parts)?;
    Ok(pieces)
}
