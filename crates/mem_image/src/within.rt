//! Bytes that are read or set within one page.
ghost use Rattle.std.specs.Prelude.{◌≡◌, ◌<◌, ◌≤◌, ◌^◌, cond, false, true, length, IfOk, IfErr, IfSome, Some};
ghost use Rattle.machine.specs.Memory.{grants, put};
ghost use Rattle.machine.specs.Program.{memory_of};
ghost use Rattle.mem_image.specs.Access.{needs, allowed_number};
ghost use Rattle.mem_image.specs.Overlap.{AreImage};
ghost use Rattle.mem_image.specs.Segments.{IsWholeAt};

use crate::held::{Access, Held};
use std::alloc::AllocError;

/// The number of 1 to 8 bytes, which the page of this number has, or None where they have not the permission.
#[inline(always)]
#[tactic(auto, using(crate::proofs::WholeLaws::here_whole, crate::proofs::WholeLaws::whole_granted, crate::proofs::WholeLaws::whole_refused, crate::proofs::WholeLaws::whole_number, crate::proofs::WholeLaws::refused_number, crate::proofs::WholeLaws::granted_number))]
pub fn number_within(
    pages: &[Held],
    at: usize,
    access: Access,
    address: u64,
    width: u64,
) -> Option<u64>
    requires sound { AreImage pages.now }
    requires whole { IsWholeAt pages.now address width at }
    requires below { at < length pages.now }
    requires some { 0 < width }
    requires small { width ≤ 8 }
    ensures number { result ≡ allowed_number (needs access) (memory_of pages.now) address width }
    ensures small { IfSome result (λ n. n < 256 ^ width) }
{
    let page = &pages[at];
    if !page.allows(access) {
        return None;
    }
    Some(page.number(address, width))
}

/// The number at an address, if page `near` has eight bytes from there on with the permission; None tells nothing.
#[inline(always)]
#[tactic(auto, using(crate::proofs::SegmentLaws::stands_at, crate::proofs::WholeLaws::has_fewer, crate::proofs::WholeLaws::whole_granted, crate::proofs::WholeLaws::whole_number, crate::proofs::WholeLaws::granted_number))]
pub fn number_near(
    pages: &[Held],
    near: usize,
    access: Access,
    address: u64,
    width: u64,
) -> Option<u64>
    requires sound { AreImage pages.now }
    requires small { width ≤ 8 }
    ensures number { IfSome result (λ n. Some n ≡ allowed_number (needs access) (memory_of pages.now) address width) }
    ensures small { IfSome result (λ n. n < 256 ^ width) }
{
    if near >= pages.len() {
        return None;
    }
    let page = &pages[near];
    if !page.has_room(access, address) {
        return None;
    }
    Some(page.number(address, width))
}

/// Sets the low bytes of a value at at most 8 addresses, if page number `near` has eight bytes from the first on, they
/// may be written, and the page has no other owner. Else nothing changes, and the answer is false.
#[inline(always)]
pub fn put_near(pages: &mut [Held], near: usize, address: u64, width: u64, value: u64) -> bool
    requires sound { AreImage pages.old }
    requires small { width ≤ 8 }
    ensures sound { AreImage pages.new }
    ensures granted { result ≡ true → grants (λ f. f.write) (memory_of pages.old) address width ≡ true }
    ensures written { result ≡ true → memory_of pages.new ≡ put (memory_of pages.old) address width value }
    ensures kept { result ≡ false → pages.new ≡ pages.old }
{
    if near >= pages.len() {
        return false;
    }
    if !pages[near].has_room(Access::Write, address) {
        return false;
    }
    pages[near].put_own(address, width, value)
}

/// Sets the low bytes of a value at at most 8 addresses, which the page of this number has. If it may not be written,
/// nothing changes, and the answer is false.
#[inline(always)]
#[tactic(auto, using(crate::proofs::WholeLaws::here_at, crate::proofs::WholeLaws::whole_granted, crate::proofs::WholeLaws::whole_refused, crate::proofs::WholeLaws::whole_put, crate::proofs::WholeLaws::sound_like, crate::proofs::WholeLaws::set_none, crate::proofs::WholeLaws::any_err))]
pub fn put_within(
    pages: &mut [Held],
    at: usize,
    address: u64,
    width: u64,
    value: u64,
) -> Result<bool, AllocError>
    requires sound { AreImage pages.old }
    requires whole { IsWholeAt pages.old address width at }
    requires below { at < length pages.old }
    requires some { 0 < width }
    requires small { width ≤ 8 }
    ensures sound { AreImage pages.new }
    ensures granted { IfOk result (λ done. done ≡ grants (λ f. f.write) (memory_of pages.old) address width) }
    ensures written { IfOk result (λ done. memory_of pages.new ≡ cond done (put (memory_of pages.old) address width value) (memory_of pages.old)) }
    ensures kept { IfErr result (λ _. pages.new ≡ pages.old) }
{
    if !pages[at].allows(Access::Write) {
        return Ok(false);
    }
    pages[at].put(address, width, value)?;
    Ok(true)
}
