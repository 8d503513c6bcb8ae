//! Segments of the output.
ghost use Rattle.std.specs.Prelude.{◌≡◌, ◌+◌, ◌^◌, ◌<◌, IfOk};
ghost use Rattle.qed_model.specs.Weave.OutputParts.{copied as copied_of};
ghost use Rattle.qed_model.specs.Weave.OutputFile.{shifted as shifted_of};
ghost use Rattle.output_file.specs.Segments.{whole};

use elf_types::abi::{PF_X, PT_LOAD};
use elf_types::{Bytes, Segment};
use std::alloc::AllocError;

/// The address at a distance behind another. Addresses wrap at 2^64.
pub fn moved(address: u64, distance: u64) -> u64
    ensures { address + distance < 2 ^ 64 → result ≡ address + distance }
{
    address.wrapping_add(distance)
}

/// A segment that has all its bytes in the file.
pub fn whole_segment(flags: u32, address: u64, bytes: Bytes) -> Segment
    ensures { result ≡ whole flags address bytes }
{
    Segment {
        kind: PT_LOAD,
        flags,
        address,
        memory: bytes.as_slice().len() as u64,
        bytes,
    }
}

/// A copy of a segment that is not executed.
pub fn copied(segment: &Segment) -> Result<Segment, AllocError>
    ensures { IfOk result (λ copy. copy ≡ copied_of 0 segment.now) }
{
    Ok(Segment {
        kind: segment.kind,
        flags: segment.flags & !PF_X,
        address: segment.address,
        memory: segment.memory,
        bytes: segment.bytes.clone()?,
    })
}

/// A copy of a segment at a distance from its place.
pub fn shifted(segment: &Segment, distance: u64) -> Result<Segment, AllocError>
    ensures { IfOk result (λ copy. segment.now.address + distance < 2 ^ 64 → copy ≡ shifted_of distance segment.now) }
{
    Ok(Segment {
        kind: segment.kind,
        flags: segment.flags,
        address: moved(segment.address, distance),
        memory: segment.memory,
        bytes: segment.bytes.clone()?,
    })
}
