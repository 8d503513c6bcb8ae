//! Files that share a byte.
ghost use Rattle.std.specs.Prelude.{◌≡◌};
ghost use Rattle.std.specs.List.{list_any};
ghost use Rattle.machine.specs.Apart.{share};
ghost use Rattle.machine.specs.Loading.{load_segment, load_segments};
ghost use Rattle.mem_image.specs.Overlap.{any_share};

use crate::Sharing;
use elf_types::{ElfFile, Segment, share_byte};

/// Whether two segments share a byte.
fn share(a: &Segment, b: &Segment) -> bool
    ensures { result ≡ share (load_segment a.now) (load_segment b.now) }
{
    share_byte(a.address, a.memory, b.address, b.memory)
}

/// Whether a segment shares a byte with one of those of type PT_LOAD.
fn shares_any(segment: &Segment, others: &[Segment]) -> bool
    ensures { result ≡ list_any (share (load_segment segment.now)) (load_segments others.now) }
{
    for other in others {
        if other.is_load() && share(segment, other) {
            return true;
        }
    }
    false
}

/// Whether PT_LOAD segments of both lists share a byte.
fn any_share(segments: &[Segment], others: &[Segment]) -> bool
    ensures { result ≡ any_share (load_segments segments.now) (load_segments others.now) }
{
    for segment in segments {
        if segment.is_load() && shares_any(segment, others) {
            return true;
        }
    }
    false
}

impl Sharing for ElfFile {
    ghost use Rattle.machine.specs.Program.{Program};
    ghost use Rattle.machine.specs.Loading.{loaded_file};
    ghost use Rattle.mem_image.specs.Overlap.{files_share};

    ghost View = { Program };

    ghost view = { λ f. loaded_file f };

    ghost shares = { files_share };

    fn share(&self, other: &ElfFile) -> bool {
        any_share(self.segments.as_slice(), other.segments.as_slice())
    }
}
