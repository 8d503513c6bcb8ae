//! Where the page of an address is found.
ghost use Rattle.std.specs.Prelude.{◌≡◌, ℕ, ◌<◌, ◌≤◌, length, IfNone, IfSome, None, Some, slice_get};
ghost use Rattle.machine.specs.Program.{LoadSegment};
ghost use Rattle.mem_image.specs.Overlap.{Ascends, AreImage};
ghost use Rattle.machine.specs.Cells.{cell_among};
ghost use Rattle.mem_image.specs.Segments.{IsFirst, IsWholeAt};

use crate::held::Held;

/// How many of the pages begin at the address or before it.
#[tactic(auto, using(crate::proofs::SegmentLaws::stands_at, crate::proofs::PlaceLaws::no_later))]
fn begun(pages: &[Held], address: u64) -> usize
    requires { Ascends 0 pages.now }
    ensures most { result ≤ length pages.now }
    ensures before { (j : ℕ) (s : LoadSegment) → j < result → slice_get pages.now j ≡ Some s → s.address ≤ address }
    ensures behind { (j : ℕ) (s : LoadSegment) → result ≤ j → slice_get pages.now j ≡ Some s → address < s.address }
{
    let mut low = 0;
    let mut high = pages.len();
    while low < high {
        let middle = low + (high - low) / 2;
        if pages[middle].start() <= address {
            low = middle + 1;
        } else {
            high = middle;
        }
    }
    low
}

/// The page that has the address.
#[inline(never)]
#[tactic(auto, using(crate::proofs::SegmentLaws::stands_at, crate::proofs::PlaceLaws::first_near, crate::proofs::PlaceLaws::none_begun, crate::proofs::PlaceLaws::none_near))]
fn first_with(pages: &[Held], address: u64) -> Option<usize>
    requires { AreImage pages.now }
    ensures none { IfNone result (cell_among pages.now address ≡ None) }
    ensures some { IfSome result (λ k. IsFirst pages.now address k) }
    ensures below { IfSome result (λ k. k < length pages.now) }
{
    let count = begun(pages, address);
    if count == 0 || !pages[count - 1].has(address) {
        return None;
    }
    Some(count - 1)
}

/// The page that has the address. It may be number `near`.
#[tactic(auto, using(crate::proofs::SegmentLaws::stands_at, crate::proofs::PlaceLaws::first_near))]
pub fn place(pages: &[Held], near: usize, address: u64) -> Option<usize>
    requires { AreImage pages.now }
    ensures none { IfNone result (cell_among pages.now address ≡ None) }
    ensures some { IfSome result (λ k. IsFirst pages.now address k) }
    ensures below { IfSome result (λ k. k < length pages.now) }
{
    if near < pages.len() && pages[near].has(address) {
        return Some(near);
    }
    first_with(pages, address)
}

/// Page number `near`, where it has all of the bytes of an access.
#[inline(always)]
fn near_at(pages: &[Held], near: usize, address: u64, width: u64) -> Option<usize>
    requires { AreImage pages.now }
    ensures some { IfSome result (λ k. IsWholeAt pages.now address width k) }
    ensures below { IfSome result (λ k. k < length pages.now) }
{
    if near < pages.len() && pages[near].has_all(address, width) {
        return Some(near);
    }
    None
}

/// The page that has all of the bytes of an access, or None. It may be number `near`.
#[inline(always)]
pub fn whole_at(pages: &[Held], near: usize, address: u64, width: u64) -> Option<usize>
    requires { AreImage pages.now }
    ensures some { IfSome result (λ k. IsWholeAt pages.now address width k) }
    ensures below { IfSome result (λ k. k < length pages.now) }
{
    if let Some(at) = near_at(pages, near, address, width) {
        return Some(at);
    }
    whole_far(pages, address, width)
}

/// The page that has all of the bytes of an access, sought among all pages.
#[inline(never)]
fn whole_far(pages: &[Held], address: u64, width: u64) -> Option<usize>
    requires { AreImage pages.now }
    ensures some { IfSome result (λ k. IsWholeAt pages.now address width k) }
    ensures below { IfSome result (λ k. k < length pages.now) }
{
    let at = first_with(pages, address)?;
    if !pages[at].has_all(address, width) {
        return None;
    }
    Some(at)
}
