//! Segments that have all their bytes in the file, and the sections over them: what files are made of that this project
//! generates or assembles.
ghost use Rattle.std.specs.Prelude.{◌≡◌, IfOk};
ghost use Rattle.elf_write.specs.Plain.{segment as segment_of, section as section_of};

use elf_types::abi::PT_LOAD;
use elf_types::{Bytes, OutSection, Segment};
use std::alloc::{AllocError, Global};

/// A segment that has all its bytes in the file.
pub fn segment(flags: u32, address: u64, bytes: Vec<u8>) -> Segment
    ensures { result ≡ segment_of flags address bytes.items }
{
    Segment {
        kind: PT_LOAD,
        flags,
        address,
        memory: bytes.len() as u64,
        bytes: Bytes::of(bytes),
    }
}

/// The section of a segment.
///
/// The only error is want of memory.
pub fn section(
    alloc: Global,
    name: &[u8],
    flags: u64,
    segment: &Segment,
) -> Result<OutSection, AllocError>
    ensures { IfOk result (λ section. section ≡ section_of name.now flags segment.now) }
{
    Ok(OutSection {
        name: Bytes::copied(alloc, name)?,
        flags,
        address: segment.address,
        size: segment.memory,
        bytes: Bytes::of(Vec::new(alloc)),
    })
}
