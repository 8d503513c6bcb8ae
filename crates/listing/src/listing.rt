//! The listing of a file.
ghost use Rattle.std.specs.Prelude.{◌≡◌, ◌+◌, ◌*◌, ◌%◌, ◌^◌, ◌≤◌, ◌++◌, All, IfOk, OnOk};
ghost use Rattle.elf_types.specs.declared.file.Segment.{Segment as ElfSegment};
ghost use Rattle.machine.specs.Apart.{AllFitMemory, AreApart};
ghost use Rattle.machine.specs.Loading.{load_segment, load_segments};
ghost use Rattle.tests.specs.Ranges.{span, spans};
ghost use Rattle.listing.specs.Homes.{IsHeldRange, IsHome, image_word, segment_word};
ghost use Rattle.listing.specs.Listing.{lines, IsListing};
ghost use Rattle.listing.specs.Addresses.{up, down, addresses_from, range_words, addresses};

use crate::home::{home, segment_word};
use crate::line::push_line;
use elf_types::{Bytes, ElfFile, Segment};
use std::alloc::{AllocError, Global};
use tests::{Span, code_ranges};

/// Appends the lines of `count` words of a segment, from an address on.
fn push_words(
    alloc: Global,
    text: &mut Vec<u8>,
    segment: &Segment,
    start: u64,
    count: u64,
) -> Result<(), AllocError>
    requires above { segment.now.address ≤ start }
    requires small { start + 4 * count ≤ 2 ^ 64 }
    ensures { OnOk result (text.new.items ≡ text.old.items ++ lines (segment_word (load_segment segment.now)) (addresses_from start count)) }
{
    for number in 0..count {
        let address = start + 4 * number;
        push_line(alloc, text, address, segment_word(segment, address))?;
    }
    Ok(())
}

/// The first multiple of 4 that is at least the first address of a range.
fn first_word(range: Span) -> u128
    ensures { result ≡ up range.start }
{
    (u128::from(range.start) + 3) / 4 * 4
}

/// The multiple of 4 at which the last whole word of a range ends, or one before the range.
fn last_word(range: Span) -> u128
    ensures { result ≡ down range.end }
{
    range.end / 4 * 4
}

/// Appends the lines of the words of a range that are not before `done`.
fn push_range(
    alloc: Global,
    text: &mut Vec<u8>,
    segments: &[Segment],
    range: Span,
    done: u128,
) -> Result<(), AllocError>
    requires fit { AllFitMemory (load_segments segments.now) }
    requires apart { AreApart (load_segments segments.now) }
    requires held { IsHeldRange (load_segments segments.now) (span range) }
    ensures { OnOk result (text.new.items ≡ text.old.items ++ lines (image_word (load_segments segments.now)) (range_words done (span range))) }
{
    let start = first_word(range).max(done);
    let end = last_word(range);
    if end <= start {
        return Ok(());
    }
    let segment = home(segments, range);
    let count = (end - start) / 4;
    push_words(alloc, text, segment, start as u64, count as u64)?;
    Ok(())
}

/// The lines of the words of ranges that are sorted by their starts, each address once.
fn lines_of(alloc: Global, segments: &[Segment], ranges: &[Span]) -> Result<Vec<u8>, AllocError>
    requires fit { AllFitMemory (load_segments segments.now) }
    requires apart { AreApart (load_segments segments.now) }
    requires held { All (λ r. IsHeldRange (load_segments segments.now) (span r)) ranges.now }
    ensures { IfOk result (λ text. text.items ≡ lines (image_word (load_segments segments.now)) (addresses 0 (spans ranges.now))) }
{
    let mut text = Vec::new(alloc);
    let mut done: u128 = 0;
    for range in ranges {
        push_range(alloc, &mut text, segments, *range, done)?;
        done = done.max(last_word(*range));
    }
    Ok(text)
}

/// The code words of a file, a line each, in the order of their addresses. No two PT_LOAD segments share a byte.
pub fn list_text(alloc: Global, file: &ElfFile) -> Result<Bytes, AllocError>
    requires fit { AllFitMemory (load_segments file.now.segments) }
    requires apart { AreApart (load_segments file.now.segments) }
    ensures { IfOk result (λ text. IsListing file.now text) }
{
    let mut ranges = code_ranges(alloc, file)?;
    ranges.sort_unstable_by_key(|range| range.start);
    let text = lines_of(alloc, file.segments.as_slice(), &ranges)?;
    Ok(Bytes::of(text))
}
