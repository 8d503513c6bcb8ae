//! Bytes that may be executed and not written.
ghost use Rattle.std.specs.Prelude.{◌≡◌, ◌-◌, ◌<◌, true, false, length, slice_get, IfOk, IfNone, IfSome, Some};
ghost use Rattle.machine.specs.Program.{LoadSegment, memory_of};
ghost use Rattle.mem_image.specs.Fixed.{is_code_flags, IsFixedCode};
ghost use Rattle.mem_image.specs.Overlap.{AreImage};
ghost use Rattle.mem_image.specs.Segments.{has_all, number_in};

use crate::held::{Access, Held};
use std::alloc::AllocError;
use std::marker::Model;

/// Bytes of a page that may be executed and not written, as a segment of their own. They stay as they were, whatever
/// becomes of the image that gave them.
#[derive(Drop)]
pub struct Code {
    held: Held,
}

impl Model for Code {
    ghost use Rattle.machine.specs.Program.{LoadSegment};

    ghost Value = { LoadSegment };

    ghost view = { λ c. c.held };
}

/// The bytes of the page of this number, where they may be executed and not written.
#[tactic(auto, using(crate::proofs::SegmentLaws::stands_at, crate::proofs::WholeLaws::among_stands))]
pub fn code_of(pages: &[Held], at: usize) -> Result<Option<Code>, AllocError>
    requires sound { AreImage pages.now }
    requires below { at < length pages.now }
    ensures fixed { IfOk result (λ found. IfSome found (IsFixedCode (memory_of pages.now))) }
    ensures some { IfOk result (λ found. IfSome found (λ code. slice_get pages.now at ≡ Some code)) }
    ensures none { IfOk result (λ found. IfNone found ((s : LoadSegment) → slice_get pages.now at ≡ Some s → is_code_flags s.flags ≡ false)) }
{
    let page = &pages[at];
    if !page.allows(Access::Execute) || page.allows(Access::Write) {
        return Ok(None);
    }
    let held = page.copy()?;
    Ok(Some(Code { held }))
}

impl Code {
    /// The address of the first byte.
    pub fn start(&self) -> u64
        ensures { result ≡ self.now.address }
    {
        self.held.start()
    }

    /// The number of bytes, at most 4,096.
    pub fn size(&self) -> u64
        ensures { result ≡ self.now.size }
    {
        self.held.size()
    }

    /// The word at an address, whose four bytes are all here.
    #[inline(always)]
    pub fn word(&self, address: u64) -> u32
        requires { has_all self.now address 4 ≡ true }
        ensures { result ≡ number_in self.now.bytes (address - self.now.address) 4 }
    {
        self.held.number(address, 4) as u32
    }
}
