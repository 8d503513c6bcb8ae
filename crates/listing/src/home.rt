//! The segments that hold the code words.
ghost use Rattle.std.specs.Prelude.{◌≡◌, ◌+◌, ◌≤◌, ◌^◌, true, false, Contains, MatchOption};
ghost use Rattle.machine.specs.Apart.{AllFitMemory};
ghost use Rattle.machine.specs.Loading.{load_segment, load_segments};
ghost use Rattle.tests.specs.Ranges.{span};
ghost use Rattle.listing.specs.Homes.{holds_range, is_held, IsHeldRange, IsHome, segment_word};

use elf_types::Segment;
use tests::{Span, word_in};

/// Whether a range lies wholly inside a segment.
fn holds(segment: &Segment, range: Span) -> bool
    ensures { result ≡ holds_range (load_segment segment.now) (span range) }
{
    segment.address <= range.start && range.end <= segment.end()
}

/// The first loaded segment in which a range lies.
fn first_home<'a>(segments: &'a [Segment], range: Span) -> Option<&'a Segment>
    ensures { MatchOption result (is_held (span range) (load_segments segments.now) ≡ false) (λ s.
        Contains segments.now s.now × (s.now.kind ≡ 1) × (holds_range (load_segment s.now) (span range) ≡ true)) }
{
    for segment in segments {
        if segment.is_load() && holds(segment, range) {
            return Some(segment);
        }
    }
    None
}

/// The loaded segment in which a range lies.
pub fn home<'a>(segments: &'a [Segment], range: Span) -> &'a Segment
    requires fit { AllFitMemory (load_segments segments.now) }
    requires held { IsHeldRange (load_segments segments.now) (span range) }
    ensures { IsHome segments.now (span range) result.now }
{
    first_home(segments, range).unwrap()
}

/// The word that a segment has at an address.
pub fn segment_word(segment: &Segment, address: u64) -> u32
    requires above { segment.now.address ≤ address }
    requires small { address + 4 ≤ 2 ^ 64 }
    ensures { result ≡ segment_word (load_segment segment.now) address }
{
    word_in(
        segment.bytes.as_slice(),
        (address - segment.address) as usize,
    )
}
