//! Where the image of a file stands, and the rules and limits on its place and its size.
ghost use Rattle.std.specs.Prelude.{◌≡◌, ◌+◌, ◌*◌, ◌^◌, ◌<◌, ◌≤◌, max, MatchResult, OnOk};
ghost use Rattle.elf_types.specs.declared.file.ElfFile.{ElfFile as File};
ghost use Rattle.tests.specs.Admission.Terms.{image_segments};
ghost use Rattle.tests.specs.Admission.Refusals.{IsRefusedBy};
ghost use Rattle.tests.specs.Admission.Places.{low_of, high_of, base_of, distance_of, image_of, half_of, code_place};
ghost use Rattle.qed_model.specs.Weave.SoundOptions.{AreSoundOptions};
ghost use Rattle.test_admission.specs.Order.{PassesBelow};
ghost use Rattle.test_admission.specs.Places.{lower, least, ArePlacesOf};

use elf_types::{ElfFile, Segment};
use qed_model::limits::{CODE_ROOM, MAX_HALF, MAX_IMAGE_SPAN, MAX_TOP_ADDRESS};
use qed_model::{AdmitError, Options};
use rv_isa::profile::PAGE;

/// Where the image of a file stands. Addresses and sizes are in bytes.
#[derive(Clone, Copy, PartialEq, Eq)]
pub struct ImagePlaces {
    /// The least address, 0 where the image is empty.
    pub low: u64,
    /// The greatest end, at most 2^64.
    pub high: u128,
    /// `low`, rounded down to a multiple of 4096.
    pub base: u64,
    /// The least multiple of 4096 that leads from `base` to `high` or behind it.
    pub span: u128,
}

/// The lesser of two addresses, or the second if the first is missing.
fn lower(low: Option<u64>, address: u64) -> u64
    ensures { result ≡ lower low address }
{
    match low {
        Some(other) => other.min(address),
        None => address,
    }
}

/// The least address of the image, 0 where it is empty.
#[tactic(auto, using(crate::proofs::PlacesLaws::least_step))]
fn low(segments: &[Segment]) -> u64
    ensures { result ≡ low_of (image_segments segments.now) }
{
    let mut low = None;
    for segment in segments {
        if segment.is_in_image() {
            low = Some(lower(low, segment.address));
        }
    }
    low.unwrap_or(0)
}

/// The greatest end of the image's segments.
fn high(segments: &[Segment]) -> u128
    ensures end { result ≡ high_of (image_segments segments.now) }
    ensures small { result < 2 ^ 65 }
{
    let mut high = 0;
    for segment in segments {
        if segment.is_in_image() {
            let (address, memory) = (segment.address, segment.memory);
            high = high.max(u128::from(address) + u128::from(memory));
        }
    }
    high
}

/// Where the image of a file stands.
pub fn image_places(file: &ElfFile) -> ImagePlaces
    ensures { ArePlacesOf file.now result }
{
    let segments = file.segments.as_slice();
    let low = low(segments);
    let high = high(segments);
    let base = low / PAGE * PAGE;
    let page = u128::from(PAGE);
    let span = (high.saturating_sub(u128::from(base)) + 4095) / page * page;
    ImagePlaces {
        low,
        high,
        base,
        span,
    }
}

/// Where a half ends.
fn end_of(base: u64, half: u64) -> u128
    ensures { result ≡ base + half }
{
    u128::from(base) + u128::from(half)
}

/// Tests the rule on the half that is asked for, behind those on data.
pub fn check_half(file: &ElfFile, options: &Options, places: &ImagePlaces) -> Result<(), AdmitError>
    requires places { ArePlacesOf file.now places.now }
    requires passed { PassesBelow file.now options.now 11 }
    ensures { MatchResult result (λ _. PassesBelow file.now options.now 12) (λ e. IsRefusedBy file.now options.now e) }
{
    let Some(half) = options.half else {
        return Ok(());
    };
    let end = end_of(places.base, half);
    if end < places.high {
        return Err(AdmitError::OutsideHalf(places.high, end));
    }
    Ok(())
}

/// Tests the limit on the image, behind the rules.
pub fn check_span(file: &ElfFile, options: &Options, places: &ImagePlaces) -> Result<(), AdmitError>
    requires places { ArePlacesOf file.now places.now }
    requires passed { PassesBelow file.now options.now 12 }
    ensures order { MatchResult result (λ _. PassesBelow file.now options.now 13) (λ e. IsRefusedBy file.now options.now e) }
    ensures small { OnOk result (places.now.span ≤ MAX_IMAGE_SPAN) }
{
    if places.span > u128::from(MAX_IMAGE_SPAN) {
        return Err(AdmitError::ImageSpan(places.span));
    }
    Ok(())
}

/// The distance of the halves, in bytes.
pub fn distance(options: &Options, places: &ImagePlaces) -> u128
    requires sound { AreSoundOptions options.now }
    requires small { places.now.span ≤ MAX_IMAGE_SPAN }
    ensures half { (f : File) → ArePlacesOf f places.now → result ≡ half_of options.now.half (image_of f) }
    ensures small { result ≤ MAX_HALF }
{
    match options.half {
        Some(half) => u128::from(half),
        None => places.span,
    }
}

/// Tests the limit on the place of the new code, behind all others.
pub fn check_top(file: &ElfFile, options: &Options, places: &ImagePlaces) -> Result<(), AdmitError>
    requires sound { AreSoundOptions options.now }
    requires places { ArePlacesOf file.now places.now }
    requires small { places.now.span ≤ MAX_IMAGE_SPAN }
    requires passed { PassesBelow file.now options.now 14 }
    ensures order { MatchResult result (λ _. PassesBelow file.now options.now 15) (λ e. IsRefusedBy file.now options.now e) }
{
    let top = u128::from(places.base) + 3 * distance(options, places) + u128::from(CODE_ROOM);
    if top > u128::from(MAX_TOP_ADDRESS) {
        return Err(AdmitError::TopAddress(top));
    }
    Ok(())
}
