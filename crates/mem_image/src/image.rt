//! The memory of a machine.
ghost use Rattle.std.specs.Prelude.{◌≡◌, ℕ, ◌<◌, ◌≤◌, ◌^◌, true, false, cond, length, IfOk, IfErr, IfNone, IfSome, Some, None};
ghost use Rattle.std.specs.Option.{option_map};
ghost use Rattle.std.specs.FinMap.{get};
ghost use Rattle.machine.specs.Memory.{grants, poked, put};
ghost use Rattle.machine.specs.Program.{memory_of};
ghost use Rattle.machine.specs.Cells.{has};
ghost use Rattle.mem_image.specs.Overlap.{segments_of, ExplainsImage};
ghost use Rattle.machine.specs.Apart.{AllFitMemory, AreApart};
ghost use Rattle.mem_image.specs.Access.{needs, allowed_byte, allowed_number, IsWidth};
ghost use Rattle.mem_image.specs.Fixed.{has_code, IsFixedCode};
ghost use Rattle.mem_image.specs.Segments.{HoldsSegment};

use crate::code::{Code, code_of};
use crate::held::{Access, Held};
use crate::overlap::why_not;
use crate::pages::Pages;
use crate::paging::pages_of;
use crate::places::{place, whole_at};
use crate::spec::{ImageError, SegmentSpec};
use crate::within::{number_near, number_within};
use std::alloc::{AllocError, Global};
use std::marker::Model;

/// 2^32 divided by the golden ratio, by which neighbours, and pages at the same offset of several files, are spread.
const SPREAD: u32 = 0x9e37_79b9;

/// The memory of a machine. Addresses are in bytes, and are taken modulo 2^64, byte by byte; numbers are little endian.
///
/// Its pages are shared with its copies, until one of them is written.
#[derive(Drop)]
pub struct Image {
    pages: Pages,
    /// Where a page may be found again, by some bits of an address. Nothing rests on it.
    near: [usize; 64],
}

impl Model for Image {
    ghost use Rattle.machine.specs.Memory.{Memory, memory_code};
    ghost use Rattle.machine.specs.Program.{memory_of};

    ghost Value = { Memory };

    ghost coded = { memory_code };

    ghost view = { λ i. memory_of i.pages };
}

/// The number of the place where the page of an address is remembered (Knuth, The Art of Computer Programming, 6.4).
#[inline(always)]
fn slot(address: u64) -> usize
    ensures { result < 64 }
{
    let page = ((address >> 12) & 0xffff_ffff) as u32;
    (page.wrapping_mul(SPREAD) >> 26) as usize
}

impl Image {
    /// The image of segments, or None where two of them share a byte.
    fn paged(alloc: Global, specs: &[SegmentSpec]) -> Result<Option<Image>, AllocError>
        requires { AllFitMemory (segments_of specs.now) }
        ensures made { IfOk result (λ made. IfSome made (λ image. image ≡ memory_of (segments_of specs.now))) }
        ensures apart { IfOk result (λ made. IfSome made (λ _. AreApart (segments_of specs.now))) }
        ensures shared { IfOk result (λ made. IfNone made (¬ (AreApart (segments_of specs.now)))) }
    {
        let Some(pages) = pages_of(alloc, specs)? else {
            return Ok(None);
        };
        Ok(Some(Image {
            pages: Pages::of(pages),
            near: [0; 64],
        }))
    }

    /// The bytes of each segment, then zeros up to its size in memory, with its permissions. Each has at most `memory`
    /// bytes and ends by 2^64. `Overlap` comes exactly if two share a byte, with the least such pair.
    pub fn make(alloc: Global, specs: &[SegmentSpec]) -> Result<Image, ImageError>
        requires { AllFitMemory (segments_of specs.now) }
        ensures made { IfOk result (λ image. image ≡ memory_of (segments_of specs.now)) }
        ensures apart { IfOk result (λ _. AreApart (segments_of specs.now)) }
        ensures error { IfErr result (ExplainsImage (segments_of specs.now)) }
    {
        match Image::paged(alloc, specs) {
            Ok(Some(image)) => Ok(image),
            _ => Err(why_not(specs)),
        }
    }

    /// The image of segments that share no byte, as `make` gives it. The only error is a lack of memory.
    pub fn of(alloc: Global, specs: &[SegmentSpec]) -> Result<Image, AllocError>
        requires fit { AllFitMemory (segments_of specs.now) }
        requires apart { AreApart (segments_of specs.now) }
        ensures { IfOk result (λ image. image ≡ memory_of (segments_of specs.now)) }
    {
        Ok(Image::paged(alloc, specs)?.unwrap())
    }

    /// The number of `width` bytes from the address on, or None if one of them is not mapped with PF_R. The width is 1,
    /// 2, 4 or 8.
    #[inline(always)]
    pub fn read(&self, address: u64, width: u64) -> Option<u64>
        requires { IsWidth width }
        ensures number { result ≡ allowed_number (λ f. f.read) self.now address width }
        ensures small { IfSome result (λ n. n < 256 ^ width) }
    {
        self.number(Access::Read, address, width)
    }

    /// Sets the low bytes of the value at the `width` bytes from the address on. If one of them is not mapped with
    /// PF_W, it changes nothing and returns false. The width is 1, 2, 4 or 8.
    #[inline(always)]
    pub fn write(&mut self, address: u64, width: u64, value: u64) -> Result<bool, AllocError>
        requires { IsWidth width }
        ensures granted { IfOk result (λ done. done ≡ grants (λ f. f.write) self.old address width) }
        ensures written { IfOk result (λ done. self.new ≡ cond done (put self.old address width value) self.old) }
        ensures kept { IfErr result (λ _. self.new ≡ self.old) }
    {
        let near = self.near[slot(address)];
        if self.pages.write_near(near, address, width, value) {
            return Ok(true);
        }
        let done = self.write_far(address, width, value)?;
        Ok(done)
    }

    /// The word at an address, or None where one of its four bytes is not mapped with PF_X.
    #[inline(always)]
    pub fn fetch(&self, address: u64) -> Option<u32>
        ensures { result ≡ allowed_number (λ f. f.execute) self.now address 4 }
    {
        let word = self.number(Access::Execute, address, 4)?;
        Some(word as u32)
    }

    /// What `read` gives. The page is remembered, so that the next such access near it is quick.
    #[inline(always)]
    pub fn load(&mut self, address: u64, width: u64) -> Option<u64>
        requires { IsWidth width }
        ensures number { result ≡ allowed_number (λ f. f.read) self.old address width }
        ensures small { IfSome result (λ n. n < 256 ^ width) }
        ensures same { self.new ≡ self.old }
    {
        self.number_near(Access::Read, address, width)
    }

    /// What `fetch` gives. The page is remembered, so that the next fetch near it is quick.
    #[inline(always)]
    pub fn fetch_on(&mut self, address: u64) -> Option<u32>
        ensures word { result ≡ allowed_number (λ f. f.execute) self.old address 4 }
        ensures same { self.new ≡ self.old }
    {
        let word = self.number_near(Access::Execute, address, 4)?;
        Some(word as u32)
    }

    /// The bytes of the page of an address, if they may be executed and not written, so that a `write` leaves them as
    /// they are; or None if the address has no such byte.
    #[tactic(auto, using(crate::proofs::FixedLaws::none_no_code, crate::proofs::FixedLaws::first_no_code, crate::proofs::FixedLaws::if_none))]
    pub fn code(&self, address: u64) -> Result<Option<Code>, AllocError>
        ensures fixed { IfOk result (λ found. IfSome found (IsFixedCode self.now)) }
        ensures some { IfOk result (λ found. IfSome found (λ code. has code address ≡ true)) }
        ensures none { IfOk result (λ found. IfNone found (has_code self.now address ≡ false)) }
    {
        let Some(at) = place(self.pages.as_slice(), self.near[slot(address)], address) else {
            return Ok(None);
        };
        let found = code_of(self.pages.as_slice(), at)?;
        Ok(found)
    }

    /// Finds the page of an address, and remembers it.
    #[inline(never)]
    fn seek(&mut self, address: u64)
        ensures { self.new ≡ self.old }
    {
        let near = self.near[slot(address)];
        if let Some(at) = place(self.pages.as_slice(), near, address) {
            self.near[slot(address)] = at;
        }
    }

    /// Sets each of the eight bytes from the address on that is mapped, whatever its permission, and nothing else.
    pub fn poke(&mut self, address: u64, value: u64) -> Result<(), AllocError>
        ensures poked { IfOk result (λ _. self.new ≡ put self.old address 8 value) }
        ensures kept { IfErr result (λ _. self.new ≡ self.old) }
    {
        self.put(address, 8, value)?;
        Ok(())
    }

    /// The byte at an address, or None where it is not mapped.
    pub fn peek(&self, address: u64) -> Option<u8>
        ensures { result ≡ option_map (λ c. c.byte) (get self.now address) }
    {
        let page = self.page(address)?;
        Some(page.byte(address))
    }

    /// An equal image, whose pages are shared.
    pub fn copy(&self, _alloc: Global) -> Result<Image, AllocError>
        ensures { IfOk result (λ image. image ≡ self.now) }
    {
        Ok(Image {
            pages: self.pages.copy()?,
            near: self.near,
        })
    }

    /// Whether another image is equal. It may be false for an equal one, if there are more than `pages` pages and
    /// theirs end elsewhere.
    pub fn is_same(&self, other: &Image, pages: u64) -> bool
        ensures { result ≡ true → self.now ≡ other.now }
    {
        self.pages.as_slice().len() as u64 <= pages && self.pages.is_same(&other.pages)
    }

    /// The page that has the address.
    fn page(&self, address: u64) -> Option<&Held>
        ensures none { IfNone result (get self.now address ≡ None) }
        ensures some { IfSome result (λ page. HoldsSegment self.now page.now address) }
    {
        let at = place(self.pages.as_slice(), self.near[slot(address)], address)?;
        Some(&self.pages.as_slice()[at])
    }

    /// The byte at an address, where it has the permission.
    #[tactic(auto, using(crate::proofs::NumberLaws::allowed_held))]
    fn byte(&self, access: Access, address: u64) -> Option<u8>
        ensures byte { result ≡ allowed_byte (needs access) self.now address }
        ensures small { IfSome result (λ b. b < 256) }
    {
        let page = self.page(address)?;
        if !page.allows(access) {
            return None;
        }
        Some(page.byte(address))
    }

    /// The number of 1 to 8 bytes from the address on, where each of them has the permission.
    #[inline(always)]
    fn number(&self, access: Access, address: u64, width: u64) -> Option<u64>
        requires some { 0 < width }
        requires small { width ≤ 8 }
        ensures number { result ≡ allowed_number (needs access) self.now address width }
        ensures small { IfSome result (λ n. n < 256 ^ width) }
    {
        let Some(at) = whole_at(
            self.pages.as_slice(),
            self.near[slot(address)],
            address,
            width,
        ) else {
            return self.number_apart(access, address, width);
        };
        number_within(self.pages.as_slice(), at, access, address, width)
    }

    /// The number of an access; its page is sought among those that are remembered first.
    #[inline(always)]
    fn number_near(&mut self, access: Access, address: u64, width: u64) -> Option<u64>
        requires some { 0 < width }
        requires small { width ≤ 8 }
        ensures number { result ≡ allowed_number (needs access) self.old address width }
        ensures small { IfSome result (λ n. n < 256 ^ width) }
        ensures same { self.new ≡ self.old }
    {
        let near = self.near[slot(address)];
        if let Some(number) = number_near(self.pages.as_slice(), near, access, address, width) {
            return Some(number);
        }
        self.number_far(access, address, width)
    }

    /// The number of an access; its page is found and remembered.
    #[inline(never)]
    fn number_far(&mut self, access: Access, address: u64, width: u64) -> Option<u64>
        requires some { 0 < width }
        requires small { width ≤ 8 }
        ensures number { result ≡ allowed_number (needs access) self.old address width }
        ensures small { IfSome result (λ n. n < 256 ^ width) }
        ensures same { self.new ≡ self.old }
    {
        self.seek(address);
        self.number(access, address, width)
    }

    /// The number of an access, with each byte sought for itself.
    #[inline(never)]
    #[tactic(auto, using(crate::proofs::NumberLaws::taken_none, crate::proofs::NumberLaws::taken_more, crate::proofs::NumberLaws::taken_fits, crate::proofs::NumberLaws::taken_all, crate::proofs::NumberLaws::taken_refused))]
    fn number_apart(&self, access: Access, address: u64, width: u64) -> Option<u64>
        requires { width ≤ 8 }
        ensures number { result ≡ allowed_number (needs access) self.now address width }
        ensures small { IfSome result (λ n. n < 256 ^ width) }
    {
        let mut value = 0;
        for taken in 0..width {
            let byte = self.byte(access, address.wrapping_add(width - 1 - taken))?;
            value = 256 * value + u64::from(byte);
        }
        Some(value)
    }

    /// Sets the low bytes of a value at 1 to 8 addresses where all have PF_W. The page is found and remembered.
    #[inline(never)]
    fn write_far(&mut self, address: u64, width: u64, value: u64) -> Result<bool, AllocError>
        requires some { 0 < width }
        requires small { width ≤ 8 }
        ensures granted { IfOk result (λ done. done ≡ grants (λ f. f.write) self.old address width) }
        ensures written { IfOk result (λ done. self.new ≡ cond done (put self.old address width value) self.old) }
        ensures kept { IfErr result (λ _. self.new ≡ self.old) }
    {
        self.seek(address);
        let Some(at) = whole_at(
            self.pages.as_slice(),
            self.near[slot(address)],
            address,
            width,
        ) else {
            let done = self.write_apart(address, width, value)?;
            return Ok(done);
        };
        let done = self.pages.write(at, address, width, value)?;
        Ok(done)
    }

    /// Sets the low bytes of a value at at most 8 addresses, each sought for itself, where all have PF_W.
    #[inline(never)]
    fn write_apart(&mut self, address: u64, width: u64, value: u64) -> Result<bool, AllocError>
        requires { width ≤ 8 }
        ensures granted { IfOk result (λ done. done ≡ grants (λ f. f.write) self.old address width) }
        ensures written { IfOk result (λ done. self.new ≡ cond done (put self.old address width value) self.old) }
        ensures kept { IfErr result (λ _. self.new ≡ self.old) }
    {
        if self.number_apart(Access::Write, address, width).is_none() {
            return Ok(false);
        }
        self.put(address, width, value)?;
        Ok(true)
    }

    /// Sets the low bytes of a value at those of at most 8 addresses that are mapped.
    fn put(&mut self, address: u64, width: u64, value: u64) -> Result<(), AllocError>
        requires { width ≤ 8 }
        ensures put { IfOk result (λ _. self.new ≡ put self.old address width value) }
        ensures kept { IfErr result (λ _. self.new ≡ self.old) }
    {
        self.pages.put(address, width, value)?;
        Ok(())
    }
}
