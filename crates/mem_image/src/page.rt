//! Pages: bytes that several images may share.
ghost use Rattle.std.specs.Prelude.{◌≡◌, ◌+◌, ◌<◌, ◌≤◌, ◌^◌, true, length};
ghost use Rattle.rv_isa.specs.declared.profile.TheConstants.{PAGE};
ghost use Rattle.mem_image.specs.Pages.{HoldsFrom};
ghost use Rattle.mem_image.specs.Segments.{number_in, bytes_put};

use rv_isa::profile::PAGE;
use std::alloc::AllocError;

/// The number of bytes of a page, as a length.
pub const PAGE_LENGTH: usize = PAGE as usize;

/// The bytes of a page.
#[derive(Drop)]
pub struct Page {
    pub(crate) bytes: [u8; PAGE_LENGTH],
}

impl Clone for Page {
    ghost is_clone = { λ p copy. copy ≡ p };

    fn clone(&self) -> Result<Page, AllocError> {
        Ok(Page { bytes: self.bytes })
    }
}

impl Page {
    /// A page that holds the first bytes of a slice, and zeros behind them.
    #[tactic(auto, using(crate::proofs::PageLaws::filled_none, crate::proofs::PageLaws::filled_more, crate::proofs::PageLaws::filled_all))]
    pub fn of(bytes: &[u8]) -> Page
        ensures { HoldsFrom bytes.now 0 result.bytes }
    {
        if let Some(whole) = bytes.first_chunk() {
            return Page { bytes: *whole };
        }
        let mut page = [0; PAGE_LENGTH];
        for i in 0..bytes.len() {
            page[i] = bytes[i];
        }
        Page { bytes: page }
    }

    /// Whether another page has the same bytes. All are compared, so that LLVM compares many at a time.
    pub fn is_same(&self, other: &Page) -> bool
        ensures { result ≡ true → self.now.bytes ≡ other.now.bytes }
    {
        let mut same = true;
        for i in 0..PAGE_LENGTH {
            same &= self.bytes[i] == other.bytes[i];
        }
        same
    }

    /// The number of at most 8 bytes from a place on. The widths of an access have code of their own, without a loop.
    #[inline(always)]
    pub fn number(&self, at: usize, width: u64) -> u64
        requires within { at + width ≤ PAGE }
        requires small { width ≤ 8 }
        ensures number { result ≡ number_in self.now.bytes at width }
        ensures small { result < 256 ^ width }
    {
        match width {
            1 => self.gather(at, 1),
            2 => self.gather(at, 2),
            4 => self.gather(at, 4),
            8 => self.gather(at, 8),
            _ => self.gather(at, width),
        }
    }

    /// The number of bytes of any width, from the lowest byte on, which LLVM makes one load of.
    #[inline(always)]
    #[tactic(auto, using(crate::proofs::WholeLaws::gathered_none, crate::proofs::WholeLaws::gathered_fits, crate::proofs::WholeLaws::gathered_more))]
    fn gather(&self, at: usize, width: u64) -> u64
        requires within { at + width ≤ PAGE }
        requires small { width ≤ 8 }
        ensures number { result ≡ number_in self.now.bytes at width }
        ensures small { result < 256 ^ width }
    {
        let mut value = 0;
        for taken in 0..width {
            let byte = self.bytes[at + taken as usize];
            value += u64::from(byte) << (8 * taken);
        }
        value
    }

    /// Sets the low bytes of a value at at most 8 places.
    #[inline(always)]
    pub fn put(&mut self, at: usize, width: u64, value: u64)
        requires within { at + width ≤ PAGE }
        requires small { width ≤ 8 }
        ensures put { self.new.bytes ≡ bytes_put self.old.bytes at width value }
        ensures count { length self.old.bytes ≡ PAGE }
    {
        match width {
            1 => self.scatter(at, 1, value),
            2 => self.scatter(at, 2, value),
            4 => self.scatter(at, 4, value),
            8 => self.scatter(at, 8, value),
            _ => self.scatter(at, width, value),
        }
    }

    /// Sets the low bytes of a value at any number of places.
    #[inline(always)]
    fn scatter(&mut self, at: usize, width: u64, value: u64)
        requires within { at + width ≤ PAGE }
        requires small { width ≤ 8 }
        ensures put { self.new.bytes ≡ bytes_put self.old.bytes at width value }
        ensures count { length self.old.bytes ≡ PAGE }
    {
        let _ = &self.bytes;
        for i in 0..width {
            self.bytes[at + i as usize] = ((value >> (8 * i)) & 0xff) as u8;
        }
    }
}
