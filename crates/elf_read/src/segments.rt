//! The rules on segments.
ghost use Rattle.std.specs.Prelude.{◌≡◌, ◌<◌};
ghost use Rattle.tests.specs.Files.Header.{e_phnum};
ghost use Rattle.tests.specs.Files.Rules.{is_misshapen, segment_shape_rule, overlapped, segment_overlap_rule, file_size};

use crate::below::first_of;
use crate::extents::clear_below;
use crate::parts::Parts;
use elf_types::{ElfError, ProgramHeader, share_byte};
use std::alloc::Global;

#[tactic(auto, unfolding(tests::specs::Files::Rules::is_misshapen))]
fn is_misshapen(p: ProgramHeader) -> bool
    ensures { result ≡ is_misshapen p }
{
    p.is_load() && (p.filesz > p.memsz || u128::from(p.vaddr) + u128::from(p.memsz) > 1 << 64)
}

/// Whether each segment has no more bytes in the file than in memory, and ends at 2^64 or before.
#[tactic(auto, unfolding(tests::specs::Files::Rules::segment_shape_rule))]
pub fn check_segment_shape(file: &Parts) -> Result<(), ElfError>
    ensures { result ≡ segment_shape_rule file.now }
{
    match first_of(file.tables().phnum(), &|i| is_misshapen(file.program(i))) {
        Some(i) => Err(ElfError::SegmentShape(i)),
        None => Ok(()),
    }
}

#[tactic(auto, unfolding(tests::specs::Files::Rules::overlapped, tests::specs::Files::Rules::do_overlap))]
fn overlapped(file: &Parts, i: u64) -> Option<u64>
    requires { i < e_phnum file.now }
    ensures { result ≡ overlapped file.now i }
{
    let p = file.program(i);
    first_of(
        file.tables().phnum(),
        &|j| {
            let q = file.program(j);
            i < j && p.is_load() && q.is_load() && share_byte(p.vaddr, p.memsz, q.vaddr, q.memsz)
        },
    )
}

/// Whether no two segments share a byte of memory. They are compared in the order of their addresses, or without memory
/// for that each with each.
#[tactic(auto, unfolding(tests::specs::Files::Rules::segment_overlap_rule))]
pub fn check_segment_overlap(file: &Parts, alloc: Global) -> Result<(), ElfError>
    ensures { result ≡ segment_overlap_rule file.now }
{
    let clear = clear_below(file, alloc);
    match first_of(
        file.tables().phnum(),
        &|i| i >= clear && overlapped(file, i).is_some(),
    ) {
        Some(i) => match overlapped(file, i) {
            Some(j) => Err(ElfError::SegmentOverlap(i, j)),
            None => Ok(()),
        },
        None => Ok(()),
    }
}

/// The bytes that a segment has in the file; where it is not `PT_LOAD` there are none.
pub fn file_size(p: ProgramHeader) -> u64
    ensures { result ≡ file_size p }
{
    if p.is_load() { p.filesz } else { 0 }
}
