//! Addresses in the bytes of the segments: alone, and as distances in tables.
ghost use Rattle.std.specs.Prelude.{◌≡◌, ◌+◌, ◌*◌, ◌%◌, ◌^◌, ◌<◌, map, drop, OnOk};
ghost use Rattle.std.specs.List.{list_any};
ghost use Rattle.machine.specs.Numbers.{words_of};
ghost use Rattle.machine.specs.Values.{word as extended};
ghost use Rattle.tests.specs.Admission.DataRanges.{range_of};
ghost use Rattle.tests.specs.Admission.Terms.{is_in_any, is_code_address};
ghost use Rattle.flow_recovery.specs.Sets.{Adds, Gains};
ghost use Rattle.tests.specs.Admission.Reached.{offset_of, is_low_half, is_in_data, is_in_table, bytes_from, is_by_table};

use crate::sets::{add, insert};
use byteorder::{ByteOrder, LittleEndian};
use elf_types::Segment;
use qed_model::limits::MAX_IMAGE_SPAN;
use qed_model::{Range, Test};
use std::alloc::AllocError;
use std::collections::BTreeSet;
use tests::{is_code_address, rest_of};

/// The distance from a base to the first address at or behind it whose low 32 bits are the word.
fn offset_of(base: u64, word: u64) -> u64
    requires { word < 2 ^ 32 }
    ensures { result ≡ offset_of base word }
{
    (word + (0x1_0000_0000 - base % 0x1_0000_0000)) % 0x1_0000_0000
}

/// Adds the address with this low half, if it may be in the image.
fn add_low_half(list: &mut Vec<u64>, base: u64, word: u64) -> Result<(), AllocError>
    requires { word < 2 ^ 32 }
    ensures { OnOk result (Adds list.old.items list.new.items (λ a. is_low_half base a word)) }
{
    let offset = offset_of(base, word);
    if offset < MAX_IMAGE_SPAN {
        add(list, base.wrapping_add(offset))?;
    }
    Ok(())
}

/// Adds the address for the low half in each word.
fn add_low_halves(list: &mut Vec<u64>, base: u64, bytes: &[u8]) -> Result<(), AllocError>
    ensures { OnOk result (Adds list.old.items list.new.items (λ a. list_any (is_low_half base a) (words_of bytes.now))) }
{
    let mut left = bytes;
    while let [_, _, _, _, rest @ ..] = left {
        add_low_half(list, base, u64::from(LittleEndian::read_u32(left)))?;
        left = rest;
    }
    Ok(())
}

/// Adds the addresses whose low halves stand in the words of a segment.
fn add_segment(list: &mut Vec<u64>, base: u64, segment: &Segment) -> Result<(), AllocError>
    ensures { OnOk result (Adds list.old.items list.new.items (λ a. is_in_data base a segment.now)) }
{
    let skipped = (4 - segment.address % 4) % 4;
    add_low_halves(list, base, rest_of(segment.bytes.as_slice(), skipped))
}

/// Adds the addresses whose low halves stand in the words of all segments.
pub fn add_data(list: &mut Vec<u64>, base: u64, segments: &[Segment]) -> Result<(), AllocError>
    ensures { OnOk result (Adds list.old.items list.new.items (λ a. list_any (is_in_data base a) segments.now)) }
{
    for segment in segments {
        add_segment(list, base, segment)?;
    }
    Ok(())
}

/// A base and a word, sign-extended, modulo 2^64.
fn distance_from(base: u64, word: u64) -> u64
    requires { word < 2 ^ 32 }
    ensures { result ≡ (base + extended word) % 2 ^ 64 }
{
    base.wrapping_add(i64::from((word as u32).cast_signed()).cast_unsigned())
}

/// Adds what a table of distances leads to, as long as that is code.
fn add_distances(
    set: &mut BTreeSet<u64>,
    ranges: &[Range],
    base: u64,
    bytes: &[u8],
) -> Result<(), AllocError>
    ensures { OnOk result (Gains set.old set.new (λ a. is_in_table (map range_of ranges.now) base a (words_of bytes.now))) }
{
    let mut left = bytes;
    while let [_, _, _, _, rest @ ..] = left {
        let target = distance_from(base, u64::from(LittleEndian::read_u32(left)));
        if !is_code_address(ranges, target) {
            return Ok(());
        }
        insert(set, target)?;
        left = rest;
    }
    Ok(())
}

/// The bytes of a segment from an address on.
fn bytes_from(segment: &Segment, address: u64) -> &[u8]
    ensures { result.now ≡ bytes_from address segment.now }
{
    if segment.address <= address {
        rest_of(segment.bytes.as_slice(), address - segment.address)
    } else {
        &[]
    }
}

/// Adds what a table in a segment leads to.
fn add_table(
    set: &mut BTreeSet<u64>,
    test: &Test,
    base: u64,
    segment: &Segment,
) -> Result<(), AllocError>
    ensures { OnOk result (Gains set.old set.new (λ a. is_by_table test.now base a segment.now)) }
{
    let bytes = bytes_from(segment, base);
    add_distances(set, test.ranges.as_slice(), base, bytes)
}

/// Adds what tables of distances from a base lead to.
pub fn add_tables(set: &mut BTreeSet<u64>, test: &Test, base: u64) -> Result<(), AllocError>
    ensures { OnOk result (Gains set.old set.new (λ a. list_any (is_by_table test.now base a) test.now.segments)) }
{
    for segment in test.segments.as_slice() {
        add_table(set, test, base, segment)?;
    }
    Ok(())
}
