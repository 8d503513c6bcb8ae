//! The test of a file that was admitted.
ghost use Rattle.std.specs.Prelude.{◌≡◌, ◌++◌, None, map, IfOk};
ghost use Rattle.tests.specs.Admission.Terms.{image_segments};
ghost use Rattle.tests.specs.Admission.DataRanges.{range_of};
ghost use Rattle.tests.specs.Admission.Test.{AreCodeWords, IsTestOf};
ghost use Rattle.qed_model.specs.Weave.SoundOptions.{AreSoundOptions};
ghost use Rattle.tests.specs.Ranges.{spans};
ghost use Rattle.test_admission.specs.Checked.{IsChecked};
ghost use Rattle.test_admission.specs.Ends.{AllEnd};
ghost use Rattle.test_admission.specs.declared.rules.CodeRule.TheVariants as rule;
ghost use Rattle.test_admission.specs.Faults.{first_among};
ghost use Rattle.test_admission.specs.Stretches.{stretch_parts, AreCodeOf};

use crate::check::TestParts;
use crate::places::distance;
use crate::stretches::Stretch;
use crate::words::code_words;
use elf_types::{ElfFile, Listed, Segment, Segments};
use qed_model::{CodeWords, Options, Range, Ranges, Test};
use std::alloc::{AllocError, Global};
use tests::Span;

/// Spans as ranges.
fn ranges_of(alloc: Global, parts: &[Span]) -> Result<Ranges, AllocError>
    requires { AllEnd parts.now }
    ensures { IfOk result (λ list. map range_of list ≡ spans parts.now) }
{
    let mut list = Vec::new(alloc);
    for part in parts {
        list.push(Range {
            start: part.start,
            end: part.end as u64,
        })?;
    }
    Ok(Listed::of(list))
}

/// A copy of a segment.
fn copied(segment: &Segment) -> Result<Segment, AllocError>
    ensures { IfOk result (λ copy. copy ≡ segment.now) }
{
    Ok(Segment {
        kind: segment.kind,
        flags: segment.flags,
        address: segment.address,
        memory: segment.memory,
        bytes: segment.bytes.clone()?,
    })
}

/// The segments of the image.
fn image(alloc: Global, segments: &[Segment]) -> Result<Segments, AllocError>
    ensures { IfOk result (λ image. image ≡ image_segments segments.now) }
{
    let mut image = Vec::new(alloc);
    for segment in segments {
        if segment.is_in_image() {
            image.push(copied(segment)?)?;
        }
    }
    Ok(Listed::of(image))
}

/// All code words of a file.
#[tactic(auto, using(crate::proofs::Faulting::follow_fit, crate::proofs::Listing::are_words))]
fn word_list(alloc: Global, file: &ElfFile, code: &[Stretch<'_>]) -> Result<CodeWords, AllocError>
    requires code { AreCodeOf file.now (stretch_parts code.now) }
    requires known { first_among rule.Unknown (stretch_parts code.now) ≡ None }
    ensures { IfOk result (AreCodeWords file.now) }
{
    let words = code_words(alloc, code)?;
    Ok(Listed::of(words))
}

/// The facts of a file that was admitted.
#[tactic(auto, using(crate::proofs::Ends::ranges_end, crate::proofs::Ends::spans_end))]
pub fn make_test(
    alloc: Global,
    file: &ElfFile,
    options: &Options,
    parts: &TestParts<'_>,
) -> Result<Test, AllocError>
    requires sound { AreSoundOptions options.now }
    requires parts { IsChecked file.now options.now parts.now }
    ensures { IfOk result (IsTestOf file.now options.now) }
{
    let ranges = ranges_of(alloc, &parts.ranges)?;
    let code = word_list(alloc, file, &parts.code)?;
    let span = ranges_of(alloc, &parts.spans.ranges)?;
    let segments = image(alloc, file.segments.as_slice())?;
    Ok(Test {
        entry: file.entry,
        ranges,
        code,
        base: parts.places.base,
        distance: distance(options, &parts.places) as u64,
        low: parts.places.low,
        high: parts.places.high as u64,
        span,
        segments,
    })
}
