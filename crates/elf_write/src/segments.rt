//! Program headers and the bytes of segments.
ghost use Rattle.std.specs.Prelude.{◌≡◌, ◌+◌, ◌^◌, ◌<◌, ◌≤◌, ◌++◌, OnOk, All};
ghost use Rattle.rv_isa.specs.declared.profile.TheConstants.{PAGE};
ghost use Rattle.machine.specs.declared.limits.Limit.TheVariants as limit;
ghost use Rattle.machine.specs.Limits.{limit_of};
ghost use Rattle.tests.specs.Elf.Written.{offset_from as least_offset, end_from as segments_end, program_headers, segments_bytes};
ghost use Rattle.elf_write.specs.Widths.{SegmentFits};

use crate::numbers::push_zeros;
use crate::records::push_program_header;
use elf_types::Segment;
use rv_isa::profile::PAGE;
use std::alloc::AllocError;

/// The least offset from `at` on that equals the address modulo a page.
pub fn offset_from(at: u128, address: u64) -> u128
    requires { at < 2 ^ 127 }
    ensures value { result ≡ least_offset at address }
    ensures bound { result < at + PAGE }
{
    let page = u128::from(PAGE);
    at + (u128::from(address) % page + page - at % page) % page
}

/// The end of segments whose bytes are sought from the offset `start` on.
pub fn end_from(start: u128, segments: &[Segment]) -> u128
    requires { start < 2 ^ 64 }
    ensures value { result ≡ segments_end start segments.now }
    ensures bound { result < 2 ^ 122 }
{
    let mut at = start;
    for segment in segments {
        at = offset_from(at, segment.address) + segment.bytes.as_slice().len() as u128;
    }
    at
}

/// Appends the program headers of segments whose bytes are sought from the offset `start` on.
#[tactic(auto, using(crate::proofs::Places::end_from_above))]
pub fn push_program_headers(
    out: &mut Vec<u8>,
    segments: &[Segment],
    start: u64,
) -> Result<(), AllocError>
    requires { segments_end start segments.now ≤ limit_of limit.CountedBytes }
    ensures bytes { OnOk result (out.new.items ≡ out.old.items ++ program_headers start segments.now) }
    ensures fits { OnOk result (All SegmentFits segments.now) }
{
    let mut at = start;
    for segment in segments {
        let offset = offset_from(u128::from(at), segment.address) as u64;
        push_program_header(out, segment, offset)?;
        at = offset + segment.bytes.as_slice().len() as u64;
    }
    Ok(())
}

/// Appends the bytes of segments, with zeros before each up to its offset.
#[tactic(auto, using(crate::proofs::Places::end_from_above))]
pub fn push_segments(out: &mut Vec<u8>, segments: &[Segment], start: u64) -> Result<(), AllocError>
    requires { segments_end start segments.now ≤ limit_of limit.CountedBytes }
    ensures { OnOk result (out.new.items ≡ out.old.items ++ segments_bytes start segments.now) }
{
    let mut at = start;
    for segment in segments {
        let offset = offset_from(u128::from(at), segment.address) as u64;
        push_zeros(out, offset - at)?;
        out.extend_from_slice(segment.bytes.as_slice())?;
        at = offset + segment.bytes.as_slice().len() as u64;
    }
    Ok(())
}
