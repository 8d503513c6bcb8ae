//! The parts of a world.
ghost use Rattle.std.specs.Prelude.{◌≡◌, map, IfOk};
ghost use Rattle.mem_image.specs.Overlap.{segments_of};
ghost use Rattle.harts.specs.Harts.{all_segments};
ghost use Rattle.harts.specs.Played.{programs, started};

use elf_types::ElfFile;
use mem_image::SegmentSpec;
use rv_step::{Hart, push_specs};
use std::alloc::{AllocError, Global};

/// The segments of type PT_LOAD of all files.
pub fn all_specs(alloc: Global, files: &[ElfFile]) -> Result<Vec<SegmentSpec>, AllocError>
    ensures { IfOk result (λ specs. segments_of specs.items ≡ all_segments (programs files.now)) }
{
    let mut specs = Vec::new(alloc);
    for file in files {
        push_specs(&mut specs, file.segments.as_slice())?;
    }
    Ok(specs)
}

/// A hart for each file, with all registers 0.
pub fn start_harts(alloc: Global, files: &[ElfFile]) -> Result<Vec<Hart>, AllocError>
    ensures { IfOk result (λ harts. harts.items ≡ map started files.now) }
{
    let mut harts = Vec::new(alloc);
    for file in files {
        harts.push(Hart::start(alloc, file, &[0; 32])?)?;
    }
    Ok(harts)
}
