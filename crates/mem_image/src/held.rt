//! Pages in memory.
ghost use Rattle.std.specs.Prelude.{◌≡◌, ◌+◌, ◌-◌, ◌<◌, ◌≤◌, ◌^◌, false, true, [], length, IfOk, IfErr};
ghost use Rattle.mem_image.specs.Access.{needs};
ghost use Rattle.mem_image.specs.Overlap.{plain_segment};
ghost use Rattle.mem_image.specs.Pages.{HasRoom, HoldsFrom, IsPageOf};
ghost use Rattle.machine.specs.Cells.{has, cell_at};
ghost use Rattle.mem_image.specs.Segments.{has_all, number_in, with_bytes_at, IsLike};

use crate::page::Page;
use crate::spec::SegmentSpec;
use rv_isa::profile::PAGE;
use std::alloc::{AllocError, Global};
use std::marker::Model;
use std::rc::Rc;

/// What an access wants of each byte.
#[derive(Clone, Copy, Debug, PartialEq, Eq)]
pub enum Access {
    Read,
    Write,
    Execute,
}

/// At most 4,096 bytes that stand one after the other in memory, with one permission.
#[derive(Drop)]
pub struct Held {
    start: u64,
    /// From how many addresses on, the first of them `start`, eight bytes may be read,
    reads: u64,
    /// and from how many they may be written, so that an access takes one comparison.
    writes: u64,
    page: Rc<Page>,
    size: u32,
    readable: bool,
    writable: bool,
    executable: bool,
}

impl Model for Held {
    ghost use Rattle.std.specs.Prelude.{take};
    ghost use Rattle.machine.specs.Program.{LoadSegment};
    ghost use Rattle.mem_image.specs.Pages.{IsRoomy};

    ghost Value = { LoadSegment };

    ghost view = { λ h. record {
      address = h.start;
      size = h.size;
      flags = record { read = h.readable; write = h.writable; execute = h.executable };
      bytes = take h.size h.page.value.bytes;
    } };

    ghost invariant = { λ h. IsRoomy h.start h.size h.readable h.reads h.writable h.writes };
}

impl Clone for Held {
    ghost is_clone = { λ h copy. copy ≡ h };

    fn clone(&self) -> Result<Held, AllocError> {
        let held = self.copy()?;
        Ok(held)
    }
}

/// The page of the bytes from number `from` on. Where they are zeros, or none, the page of zeros is shared.
fn page_from(
    alloc: Global,
    zeros: &Rc<Page>,
    bytes: &[u8],
    from: u64,
) -> Result<Rc<Page>, AllocError>
    requires { HoldsFrom [] 0 zeros.now.value.bytes }
    ensures { IfOk result (λ page. HoldsFrom bytes.now from page.value.bytes) }
{
    if from < bytes.len() as u64 {
        let page = Page::of(&bytes[from as usize..]);
        if !page.is_same(zeros) {
            let page = Rc::new(alloc, page)?;
            return Ok(page);
        }
    }
    let page = zeros.clone()?;
    Ok(page)
}

/// From how many of the first addresses of a page on eight bytes are here, where they have a permission.
fn room(allowed: bool, size: u64) -> u64
    ensures { HasRoom allowed size result }
{
    if !allowed {
        return 0;
    }
    size.saturating_sub(7)
}

impl Held {
    /// The bytes of a segment from number `from` on, at most a page. If they are zeros, or none are in the file, the
    /// page of zeros is shared.
    pub fn of(
        alloc: Global,
        zeros: &Rc<Page>,
        spec: &SegmentSpec,
        from: u64,
    ) -> Result<Held, AllocError>
        requires more { from < spec.now.memory }
        requires end { spec.now.address + spec.now.memory ≤ 2 ^ 64 }
        requires zeros { HoldsFrom [] 0 zeros.now.value.bytes }
        ensures { IfOk result (IsPageOf (plain_segment spec.now) from) }
    {
        let page = page_from(alloc, zeros, spec.bytes.as_slice(), from)?;
        let size = (spec.memory - from).min(PAGE);
        let readable = spec.is_readable();
        let writable = spec.is_writable();
        Ok(Held {
            start: spec.address + from,
            reads: room(readable, size),
            writes: room(writable, size),
            page,
            size: size as u32,
            readable,
            writable,
            executable: spec.is_executable(),
        })
    }

    /// The address of the first byte.
    #[inline(always)]
    pub fn start(&self) -> u64
        ensures { result ≡ self.now.address }
    {
        self.start
    }

    /// The number of its bytes.
    pub fn size(&self) -> u64
        ensures { result ≡ self.now.size }
    {
        u64::from(self.size)
    }

    /// Whether it has the address.
    #[inline(always)]
    pub fn has(&self, address: u64) -> bool
        ensures { result ≡ has self.now address }
    {
        self.start <= address && address - self.start < self.size()
    }

    /// Whether it has each of the `width` addresses from this one on.
    #[inline(always)]
    pub fn has_all(&self, address: u64, width: u64) -> bool
        ensures { result ≡ has_all self.now address width }
    {
        self.has(address) && width <= self.size() - (address - self.start)
    }

    /// Whether it has eight bytes from an address on with the permission. It is false for code that may not be read.
    #[inline(always)]
    pub fn has_room(&self, access: Access, address: u64) -> bool
        ensures all { result ≡ true → has_all self.now address 8 ≡ true }
        ensures allowed { result ≡ true → needs access self.now.flags ≡ true }
    {
        match access {
            Access::Read => address.wrapping_sub(self.start) < self.reads,
            Access::Write => address.wrapping_sub(self.start) < self.writes,
            Access::Execute => self.executable && address.wrapping_sub(self.start) < self.reads,
        }
    }

    /// Whether its bytes have the permission.
    #[inline(always)]
    pub fn allows(&self, access: Access) -> bool
        ensures { result ≡ needs access self.now.flags }
    {
        match access {
            Access::Read => self.readable,
            Access::Write => self.writable,
            Access::Execute => self.executable,
        }
    }

    /// The byte at an address that it has.
    pub fn byte(&self, address: u64) -> u8
        requires { has self.now address ≡ true }
        ensures { result ≡ (cell_at self.now address).byte }
    {
        self.page.bytes[(address - self.start) as usize]
    }

    /// The number of at most 8 bytes that it has, from the address on.
    #[inline(always)]
    pub fn number(&self, address: u64, width: u64) -> u64
        requires has { has_all self.now address width ≡ true }
        requires small { width ≤ 8 }
        ensures number { result ≡ number_in self.now.bytes (address - self.now.address) width }
        ensures small { result < 256 ^ width }
    {
        self.page.number((address - self.start) as usize, width)
    }

    /// Sets the low bytes of a value at at most 8 addresses that it has. A page that is shared is copied first.
    #[inline(always)]
    pub fn put(&mut self, address: u64, width: u64, value: u64) -> Result<(), AllocError>
        requires has { has_all self.old address width ≡ true }
        requires small { width ≤ 8 }
        ensures put { IfOk result (λ _. self.new ≡ with_bytes_at self.old address width value) }
        ensures kept { IfErr result (λ _. self.new ≡ self.old) }
        ensures whole { IfOk result (λ _. length self.old.bytes ≡ self.old.size) }
        ensures shape { IsLike self.old self.new }
    {
        if self.put_own(address, width, value) {
            return Ok(());
        }
        self.put_shared(address, width, value)?;
        Ok(())
    }

    /// Sets the low bytes and returns true if the page has no other owner. Else nothing changes.
    #[inline(always)]
    pub fn put_own(&mut self, address: u64, width: u64, value: u64) -> bool
        requires has { has_all self.old address width ≡ true }
        requires small { width ≤ 8 }
        ensures put { result ≡ true → self.new ≡ with_bytes_at self.old address width value }
        ensures kept { result ≡ false → self.new ≡ self.old }
        ensures whole { result ≡ true → length self.old.bytes ≡ self.old.size }
        ensures shape { IsLike self.old self.new }
    {
        let at = (address - self.start) as usize;
        if let Some(page) = Rc::get_mut(&mut self.page) {
            page.put(at, width, value);
            return true;
        }
        false
    }

    /// Sets the low bytes. A page with other owners is copied first.
    #[inline(never)]
    #[tactic(auto, using(crate::proofs::WholeLaws::spans, crate::proofs::PageLaws::put_with, crate::proofs::PageLaws::put_in, crate::proofs::WholeLaws::like_put))]
    fn put_shared(&mut self, address: u64, width: u64, value: u64) -> Result<(), AllocError>
        requires has { has_all self.old address width ≡ true }
        requires small { width ≤ 8 }
        ensures put { IfOk result (λ _. self.new ≡ with_bytes_at self.old address width value) }
        ensures kept { IfErr result (λ _. self.new ≡ self.old) }
        ensures whole { IfOk result (λ _. length self.old.bytes ≡ self.old.size) }
        ensures shape { IsLike self.old self.new }
    {
        let at = (address - self.start) as usize;
        let own = Rc::make_mut(&mut self.page)?;
        own.put(at, width, value);
        Ok(())
    }

    /// Whether another has the same bytes at the same addresses, with the same permission.
    pub fn is_same(&self, other: &Held) -> bool
        ensures { result ≡ true → self.now ≡ other.now }
    {
        self.start == other.start
            && self.size == other.size
            && self.readable == other.readable
            && self.writable == other.writable
            && self.executable == other.executable
            && self.page.is_same(&other.page)
    }

    /// A copy that shares the bytes.
    pub fn copy(&self) -> Result<Held, AllocError>
        ensures { IfOk result (λ held. held ≡ self.now) }
    {
        Ok(Held {
            start: self.start,
            reads: self.reads,
            writes: self.writes,
            page: self.page.clone()?,
            size: self.size,
            readable: self.readable,
            writable: self.writable,
            executable: self.executable,
        })
    }
}
