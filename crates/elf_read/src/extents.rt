//! Where segments stand in memory, in the order of their addresses.
ghost use Rattle.std.specs.Prelude.{◌≡◌, ◌<◌, ℕ, None, IfOk};
ghost use Rattle.std.specs.List.Sorted.{IsNonDecreasingBy};
ghost use Rattle.tests.specs.Files.Header.{e_phnum};
ghost use Rattle.tests.specs.Files.Rules.{overlapped};
ghost use Rattle.elf_read.specs.Extents.{HasExtents, IsClearInFront, IsClearBehind};

use crate::parts::Parts;
use std::alloc::{AllocError, Global};

/// The addresses of a segment in memory, from `start` to below `end`.
#[derive(Clone, Copy)]
pub struct Extent {
    /// The number of the segment.
    pub number: u64,
    pub start: u64,
    pub end: u128,
}

// The extents of the segments that have memory, in the order of their addresses.
fn ascending(file: &Parts, alloc: Global) -> Result<Vec<Extent>, AllocError>
    ensures has { IfOk result (λ v. HasExtents file.now (e_phnum file.now) v.items) }
    ensures ascend { IfOk result (λ v. IsNonDecreasingBy (λ x. x.start) v.items) }
{
    let mut extents = Vec::new(alloc);
    for number in 0..file.tables().phnum() {
        let p = file.program(number);
        if p.is_load() && p.memsz > 0 {
            extents.push(Extent {
                number,
                start: p.vaddr,
                end: u128::from(p.vaddr) + u128::from(p.memsz),
            })?;
        }
    }
    extents.sort_by_key(|x| x.start)?;
    Ok(extents)
}

// The least number, up to the limit, of an extent that begins before one in front of it ends.
fn least_in_front(extents: &[Extent], limit: u64) -> u64
    ensures { IsClearInFront extents.now result }
{
    let mut least = limit;
    let mut reached = 0;
    for x in extents {
        if u128::from(x.start) < reached {
            least = least.min(x.number);
        }
        reached = reached.max(x.end);
    }
    least
}

// The least number, up to the limit, of an extent that ends behind the start of the next.
fn least_behind(extents: &[Extent], limit: u64) -> u64
    ensures { IsClearBehind extents.now result }
{
    let mut least = limit;
    for k in 1..extents.len() {
        if u128::from(extents[k].start) < extents[k - 1].end {
            least = least.min(extents[k - 1].number);
        }
    }
    least
}

/// A number below which no segment shares a byte of memory with another. Where there is memory for the extents it is
/// the least number of one that does, or that of all segments, and else 0.
#[tactic(auto, using(crate::proofs::ExtentLaws::none_overlaps))]
pub fn clear_below(file: &Parts, alloc: Global) -> u64
    ensures { (i : ℕ) → i < result → i < e_phnum file.now → overlapped file.now i ≡ None }
{
    match ascending(file, alloc) {
        Ok(extents) => {
            let limit = file.tables().phnum();
            least_in_front(&extents, limit).min(least_behind(&extents, limit))
        }
        Err(_) => 0,
    }
}
