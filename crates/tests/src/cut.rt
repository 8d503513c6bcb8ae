//! Sections that a segment cuts.
ghost use Rattle.std.specs.Prelude.{◌≡◌, ◌&&◌, ◌==◌};
ghost use Rattle.std.specs.List.{list_any};
ghost use Rattle.machine.specs.Loading.{load_segment, load_segments};
ghost use Rattle.tests.specs.Admission.Terms.{shares, is_cut_by};

use crate::found::lies_in;
use elf_types::{Section, Segment};

/// Whether a section that has bytes and a segment have a byte in common.
fn shares(section: &Section, segment: &Segment) -> bool
    ensures { result ≡ shares section.now (load_segment segment.now) }
{
    segment.memory > 0
        && u128::from(section.address) < segment.end()
        && u128::from(segment.address) < u128::from(section.address) + u128::from(section.size)
}

fn is_cut_by(section: &Section, segment: &Segment) -> bool
    ensures { result ≡ is_cut_by section.now (load_segment segment.now) }
{
    segment.is_executable() && shares(section, segment) && !lies_in(section, segment)
}

/// Whether a section with bytes shares one with an executable PT_LOAD segment, and does not lie wholly inside it.
pub fn is_cut_by_any(section: &Section, segments: &[Segment]) -> bool
    ensures { result ≡ list_any (is_cut_by section.now) (load_segments segments.now) }
{
    for segment in segments {
        if segment.is_load() && is_cut_by(section, segment) {
            return true;
        }
    }
    false
}
