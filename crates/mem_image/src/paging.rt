//! The pages of segments.
ghost use Rattle.std.specs.Prelude.{◌≡◌, ℕ, ◌+◌, ◌<◌, ◌≤◌, ◌^◌, [], length, IfOk, IfNone, IfSome};
ghost use Rattle.std.specs.List.Sorted.{IsNonDecreasingBy};
ghost use Rattle.mem_image.specs.Overlap.{plain_segment, segments_of, AreImage};
ghost use Rattle.mem_image.specs.Pages.{Below, HoldsFrom, IsPaged, Orders};
ghost use Rattle.machine.specs.Apart.{AllFitMemory, FitsMemory, AreApart};
ghost use Rattle.machine.specs.Cells.{cell_among};

use crate::held::Held;
use crate::page::Page;
use crate::spec::SegmentSpec;
use std::alloc::{AllocError, Global};
use std::rc::Rc;

/// The segments that have bytes in memory, each by its address and its number, in the order of their addresses.
#[tactic(auto, using(crate::proofs::OverlapLaws::seen_there, crate::proofs::PagingLaws::orders_none, crate::proofs::PagingLaws::orders_passed, crate::proofs::PagingLaws::orders_more, crate::proofs::PagingLaws::orders_moved))]
fn in_order(alloc: Global, specs: &[SegmentSpec]) -> Result<Vec<(u64, usize)>, AllocError>
    ensures all { IfOk result (λ order. Orders (segments_of specs.now) order.items (length specs.now)) }
    ensures ascends { IfOk result (λ order. IsNonDecreasingBy (λ p. p.0) order.items) }
{
    let mut order = Vec::new(alloc);
    for i in 0..specs.len() {
        let spec = &specs[i];
        if spec.memory == 0 {
            continue;
        }
        order.push((spec.address, i))?;
    }
    order.sort_by_key(|place| place.0)?;
    Ok(order)
}

/// Appends the pages of a segment, which lies behind those that are there.
fn push_pages(
    alloc: Global,
    pages: &mut Vec<Held>,
    zeros: &Rc<Page>,
    spec: &SegmentSpec,
) -> Result<(), AllocError>
    requires fits { FitsMemory (plain_segment spec.now) }
    requires below { Below pages.old.items spec.now.address }
    requires zeros { HoldsFrom [] 0 zeros.now.value.bytes }
    ensures { IfOk result (λ _. IsPaged pages.old.items (plain_segment spec.now) pages.new.items spec.now.memory) }
{
    let memory = spec.memory;
    let mut from = 0;
    while from < memory {
        let page = Held::of(alloc, zeros, spec, from)?;
        from += page.size();
        pages.push(page)?;
    }
    Ok(())
}

/// The pages of segments, by their addresses, or None where two segments share a byte.
pub fn pages_of(alloc: Global, specs: &[SegmentSpec]) -> Result<Option<Vec<Held>>, AllocError>
    requires { AllFitMemory (segments_of specs.now) }
    ensures apart { IfOk result (λ made. IfSome made (λ _. AreApart (segments_of specs.now))) }
    ensures shared { IfOk result (λ made. IfNone made (¬ (AreApart (segments_of specs.now)))) }
    ensures sound { IfOk result (λ made. IfSome made (λ pages. AreImage pages.items)) }
    ensures same { IfOk result (λ made. IfSome made (λ pages. (q : ℕ) → cell_among pages.items q ≡ cell_among (segments_of specs.now) q)) }
{
    let order = in_order(alloc, specs)?;
    let zeros = Rc::new(alloc, Page::of(&[]))?;
    let mut pages = Vec::new(alloc);
    let mut bound = 0;
    for i in 0..order.len() {
        let spec = &specs[order[i].1];
        if u128::from(spec.address) < bound {
            return Ok(None);
        }
        push_pages(alloc, &mut pages, &zeros, spec)?;
        bound = u128::from(spec.address) + u128::from(spec.memory);
    }
    Ok(Some(pages))
}
