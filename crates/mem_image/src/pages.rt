//! The pages of an image.
ghost use Rattle.std.specs.Prelude.{◌≡◌, ◌<◌, ◌≤◌, false, true, cond, length, IfOk, IfErr};
ghost use Rattle.machine.specs.Memory.{grants, put};
ghost use Rattle.machine.specs.Program.{memory_of};
ghost use Rattle.mem_image.specs.Overlap.{AreImage};
ghost use Rattle.mem_image.specs.Segments.{IsWholeAt};

use crate::apart::put_from;
use crate::held::Held;
use crate::within::{put_near, put_within};
use std::alloc::AllocError;
use std::marker::Model;

/// The pages of an image by their addresses. Each shares its bytes with its copies until it is written.
#[derive(Drop)]
pub struct Pages {
    all: Vec<Held>,
}

impl Model for Pages {
    ghost use Rattle.std.specs.Prelude.{List};
    ghost use Rattle.machine.specs.Program.{LoadSegment};
    ghost use Rattle.mem_image.specs.Overlap.{AreImage};

    ghost Value = { List LoadSegment };

    ghost view = { λ p. p.all.items };

    ghost invariant = { λ p. AreImage p.all.items };
}

impl Pages {
    /// These pages.
    pub fn of(pages: Vec<Held>) -> Pages
        requires { AreImage pages.items }
        ensures { result ≡ pages.items }
    {
        Pages { all: pages }
    }

    /// All of them.
    #[inline(always)]
    pub fn as_slice(&self) -> &[Held]
        ensures value { result.now ≡ self.now }
        ensures sound { AreImage result.now }
    {
        &self.all
    }

    /// Sets the low bytes of a value at at most 8 addresses, if page number `near` has eight bytes from the first on,
    /// they may be written, and it has no other owner. Else nothing changes, and the answer is false.
    #[inline(always)]
    pub fn write_near(&mut self, near: usize, address: u64, width: u64, value: u64) -> bool
        requires { width ≤ 8 }
        ensures granted { result ≡ true → grants (λ f. f.write) (memory_of self.old) address width ≡ true }
        ensures written { result ≡ true → memory_of self.new ≡ put (memory_of self.old) address width value }
        ensures kept { result ≡ false → self.new ≡ self.old }
    {
        put_near(&mut self.all, near, address, width, value)
    }

    /// Sets the low bytes of a value at at most 8 addresses, which the page of this number has. If it may not be
    /// written, nothing changes, and the answer is false.
    pub fn write(
        &mut self,
        at: usize,
        address: u64,
        width: u64,
        value: u64,
    ) -> Result<bool, AllocError>
        requires whole { IsWholeAt self.old address width at }
        requires below { at < length self.old }
        requires some { 0 < width }
        requires small { width ≤ 8 }
        ensures granted { IfOk result (λ done. done ≡ grants (λ f. f.write) (memory_of self.old) address width) }
        ensures written { IfOk result (λ done. memory_of self.new ≡ cond done (put (memory_of self.old) address width value) (memory_of self.old)) }
        ensures kept { IfErr result (λ _. self.new ≡ self.old) }
    {
        let done = put_within(&mut self.all, at, address, width, value)?;
        Ok(done)
    }

    /// Sets the low bytes of a value at those of at most 8 addresses that are mapped.
    #[tactic(auto, using(std::proofs::lemmas::List::with_items_is, machine::proofs::Lemmas::put_none, crate::proofs::SegmentLaws::none_past))]
    pub fn put(&mut self, address: u64, width: u64, value: u64) -> Result<(), AllocError>
        requires { width ≤ 8 }
        ensures put { IfOk result (λ _. memory_of self.new ≡ put (memory_of self.old) address width value) }
        ensures kept { IfErr result (λ _. self.new ≡ self.old) }
    {
        put_from(&mut self.all, address, 0, width, value)?;
        Ok(())
    }

    /// Whether others are equal.
    pub fn is_same(&self, other: &Pages) -> bool
        ensures { result ≡ true → self.now ≡ other.now }
    {
        all_same(&self.all, &other.all)
    }

    /// A copy that shares the bytes of the pages.
    pub fn copy(&self) -> Result<Pages, AllocError>
        ensures { IfOk result (λ pages. pages ≡ self.now) }
    {
        let all = self.all.clone()?;
        Ok(Pages { all })
    }
}

/// Whether pages are equal, one by one.
fn all_same(pages: &[Held], others: &[Held]) -> bool
    ensures { result ≡ true → pages.now ≡ others.now }
{
    if pages.len() != others.len() {
        return false;
    }
    for i in 0..pages.len() {
        if !pages[i].is_same(&others[i]) {
            return false;
        }
    }
    true
}
