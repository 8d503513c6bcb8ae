//! The machine that a file starts in.
ghost use Rattle.std.specs.Prelude.{◌≡◌, ◌++◌, IfOk, true, false, OnOk};
ghost use Rattle.elf_types.specs.declared.file.Segment.{Segment as ElfSegment};
ghost use Rattle.machine.specs.Program.{start};
ghost use Rattle.machine.specs.Loading.{load_segments, loaded_file};
ghost use Rattle.machine.specs.Progress.{first_state};
ghost use Rattle.mem_image.specs.Overlap.{plain_segment, segments_of};
ghost use Rattle.machine.specs.Apart.{AllFitMemory, AreApart};

use crate::hart::Hart;
use crate::system::Machine;
use elf_types::{ElfFile, Segment};
use mem_image::{Image, SegmentSpec};
use std::alloc::{AllocError, Global};

/// Appends the segments of type PT_LOAD to what an image is made from.
pub fn push_specs(specs: &mut Vec<SegmentSpec>, segments: &[Segment]) -> Result<(), AllocError>
    ensures { IfOk result (λ _. segments_of specs.new.items ≡ segments_of specs.old.items ++ load_segments segments.now) }
{
    for segment in segments {
        if segment.is_load() {
            specs.push(SegmentSpec {
                address: segment.address,
                memory: segment.memory,
                flags: segment.flags,
                bytes: segment.bytes.clone()?,
            })?;
        }
    }
    Ok(())
}

/// The segments of type PT_LOAD.
fn specs(alloc: Global, segments: &[Segment]) -> Result<Vec<SegmentSpec>, AllocError>
    ensures { IfOk result (λ specs. segments_of specs.items ≡ load_segments segments.now) }
{
    let mut specs = Vec::new(alloc);
    push_specs(&mut specs, segments)?;
    Ok(specs)
}

impl Machine {
    /// The machine that a file starts in: its PT_LOAD segments in memory, zeros behind their bytes, the permissions of
    /// their flags, the pc at the entry, and x0 at 0 whatever the first number is.
    ///
    /// No two PT_LOAD segments share a byte, none ends past 2^64, and each has at most `memory` bytes.
    pub fn start(alloc: Global, file: &ElfFile, regs: &[u64; 32]) -> Result<Machine, AllocError>
        requires fit { AllFitMemory (load_segments file.now.segments) }
        requires apart { AreApart (load_segments file.now.segments) }
        ensures { IfOk result (λ machine. machine ≡ first_state (start (loaded_file file.now) regs.now)) }
    {
        let specs = specs(alloc, file.segments.as_slice())?;
        let image = Image::of(alloc, &specs)?;
        Ok(Machine {
            hart: Hart::start(alloc, file, regs)?,
            image,
        })
    }
}
