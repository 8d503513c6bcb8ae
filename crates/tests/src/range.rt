//! Ranges of addresses.
ghost use Rattle.std.specs.Prelude.{◌≡◌, ◌&&◌, ◌==◌, ◌%◌, map, nat_le, nat_lt};
ghost use Rattle.std.specs.List.{list_any};
ghost use Rattle.tests.specs.Admission.DataRanges.{range_of};
ghost use Rattle.tests.specs.Admission.Terms.{is_in, is_in_any, is_code_address};

use elf_types::Listed;

/// Addresses from `start` up to and without `end`, in bytes.
#[derive(Clone, Copy, Debug, PartialEq, Eq)]
pub struct Range {
    pub start: u64,
    pub end: u64,
}

/// Ranges in their order.
pub type Ranges = Listed<Range>;

/// Whether an address is one of some range.
fn is_in_any(ranges: &[Range], address: u64) -> bool
    ensures { result ≡ is_in_any (map range_of ranges.now) address }
{
    let mut ends = ranges.iter().map(|range| (range.start, range.end));
    ends.any(|range| range.0 <= address && address < range.1)
}

/// Whether an address is a code address: a multiple of 4 in one of the ranges.
pub fn is_code_address(ranges: &[Range], address: u64) -> bool
    ensures { result ≡ is_code_address (map range_of ranges.now) address }
{
    address % 4 == 0 && is_in_any(ranges, address)
}

/// Addresses from `start` up to and without `end`, of a file that may not be admitted: they may end at 2^64.
#[derive(Clone, Copy, Debug, PartialEq, Eq)]
pub struct Span {
    pub start: u64,
    pub end: u128,
}
