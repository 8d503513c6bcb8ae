//! The sections' own bytes, their headers and their names.
ghost use Rattle.std.specs.Prelude.{◌≡◌, ◌+◌, ◌^◌, ◌<◌, ◌≤◌, ◌++◌, OnOk, All, length, map};
ghost use Rattle.std.specs.Bool.{OnTrue};
ghost use Rattle.machine.specs.declared.limits.Limit.TheVariants as limit;
ghost use Rattle.machine.specs.Limits.{limit_of};
ghost use Rattle.tests.specs.Elf.Written.{end_from};
ghost use Rattle.tests.specs.Elf.Layout.{names_bytes, own_bytes, is_inside as lies_inside, offset_in as offset_inside, headers_bytes, headers_from};
ghost use Rattle.elf_write.specs.Widths.{SectionFits};

use crate::records::{NULL, push_section_header};
use crate::segments::offset_from;
use crate::symbols::push_name;
use elf_types::abi::SHT_PROGBITS;
use elf_types::{OutSection, SectionHeader, Segment};
use std::alloc::AllocError;

/// Whether the section lies inside the file bytes of the segment.
fn is_inside(section: &OutSection, segment: &Segment) -> bool
    ensures value { result ≡ lies_inside section.now segment.now }
    ensures near { OnTrue result (section.now.address ≤ segment.now.address + length segment.now.bytes) }
{
    let (address, first) = (section.address, segment.address);
    let end = u128::from(address) + u128::from(section.size);
    let segment_end = u128::from(first) + segment.bytes.as_slice().len() as u128;
    first <= address && end <= segment_end
}

/// Where a section stands in the file that lies inside the file bytes of a segment. Those bytes are sought from the
/// offset `start` on.
#[tactic(auto, using(crate::proofs::Places::end_from_above))]
fn offset_in(section: &OutSection, segments: &[Segment], start: u64) -> u64
    requires { end_from start segments.now ≤ limit_of limit.CountedBytes }
    ensures { result ≡ offset_inside start segments.now section.now }
{
    let mut at = start;
    for segment in segments {
        let offset = offset_from(u128::from(at), segment.address) as u64;
        let end = offset + segment.bytes.as_slice().len() as u64;
        if is_inside(section, segment) {
            return offset + (section.address - segment.address);
        }
        at = end;
    }
    0
}

/// The bytes of the sections' own.
pub fn own_size(sections: &[OutSection]) -> u128
    ensures value { result ≡ length (own_bytes sections.now) }
    ensures bound { result < 2 ^ 122 }
{
    let mut size: u128 = 0;
    for section in sections {
        size += section.bytes.as_slice().len() as u128;
    }
    size
}

/// The bytes of the sections' names, each with its zero byte.
pub fn names_size(sections: &[OutSection]) -> u128
    ensures value { result ≡ length (names_bytes (map (λ x. x.name) sections.now)) }
    ensures bound { result < 2 ^ 122 }
{
    let mut size: u128 = 0;
    for section in sections {
        size += section.name.as_slice().len() as u128 + 1;
    }
    size
}

/// Appends the sections' own bytes.
pub fn push_own_bytes(out: &mut Vec<u8>, sections: &[OutSection]) -> Result<(), AllocError>
    ensures { OnOk result (out.new.items ≡ out.old.items ++ own_bytes sections.now) }
{
    for section in sections {
        out.extend_from_slice(section.bytes.as_slice())?;
    }
    Ok(())
}

/// Appends the names of the sections, each with a zero byte.
pub fn push_section_names(out: &mut Vec<u8>, sections: &[OutSection]) -> Result<(), AllocError>
    ensures { OnOk result (out.new.items ≡ out.old.items ++ names_bytes (map (λ x. x.name) sections.now)) }
{
    for section in sections {
        push_name(out, section.name.as_slice())?;
    }
    Ok(())
}

/// Appends the headers of the given sections, whose own bytes stand from the offset `first` on. The bytes of the
/// segments are sought from the offset `start` on.
pub fn push_given_headers(
    out: &mut Vec<u8>,
    sections: &[OutSection],
    segments: &[Segment],
    start: u64,
    first: u64,
) -> Result<(), AllocError>
    requires segments { end_from start segments.now ≤ limit_of limit.CountedBytes }
    requires names { length (names_bytes (map (λ x. x.name) sections.now)) ≤ limit_of limit.CountedBytes }
    requires own { first + length (own_bytes sections.now) ≤ limit_of limit.CountedBytes }
    ensures bytes { OnOk result (out.new.items ≡ out.old.items ++ headers_bytes (headers_from start segments.now 1 first sections.now)) }
    ensures fits { OnOk result (All SectionFits sections.now) }
{
    let mut name: u32 = 1;
    let mut own = first;
    for section in sections {
        let offset = if section.is_allocated() {
            offset_in(section, segments, start)
        } else {
            own
        };
        let (flags, addr, size) = (section.flags, section.address, section.size);
        push_section_header(
            out,
            SectionHeader {
                name,
                kind: SHT_PROGBITS,
                flags,
                addr,
                offset,
                size,
                ..NULL
            },
        )?;
        name += section.name.as_slice().len() as u32 + 1;
        own += section.bytes.as_slice().len() as u64;
    }
    Ok(())
}
