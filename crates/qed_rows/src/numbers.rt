//! Bytes that are written as numbers.

use std::alloc::{AllocError, Global};
use texts::{number, split_once};

/// A number, and the one behind a mark; without the mark, `other`.
fn pair(word: &str, mark: u8, other: u64) -> Option<(u64, u64)> {
    match split_once(word.as_bytes(), mark) {
        Some((first, second)) => Some((number(first)?, number(second)?)),
        None => Some((number(word.as_bytes())?, other)),
    }
}

/// Appends the `width` low bytes of a number, the lowest first.
fn push(bytes: &mut Vec<u8>, width: usize, value: u64) -> Result<(), AllocError> {
    for byte in value.to_le_bytes().into_iter().take(width) {
        bytes.push(byte)?;
    }
    Ok(())
}

/// The bytes of numbers, `width` bytes each: `0x13`, or `0*24` for 24 times. None if a word is not a number.
pub(crate) fn bytes_of(
    alloc: Global,
    width: usize,
    text: &str,
) -> Result<Option<Vec<u8>>, AllocError> {
    let mut bytes = Vec::new(alloc);
    for word in text.split(' ') {
        let Some((value, times)) = pair(word, b'*', 1) else {
            return Ok(None);
        };
        for _ in 0..times {
            push(&mut bytes, width, value)?;
        }
    }
    Ok(Some(bytes))
}

/// `count` records of the numbers with spaces between them, 8 bytes each: `0x40+8` grows from
/// record to record, `7` stays. None if a word is not a number.
pub(crate) fn records_of(
    alloc: Global,
    count: u64,
    text: &str,
) -> Result<Option<Vec<u8>>, AllocError> {
    let mut fields = Vec::new(alloc);
    for word in text.split(' ') {
        let Some(field) = pair(word, b'+', 0) else {
            return Ok(None);
        };
        fields.push(field)?;
    }
    let mut bytes = Vec::new(alloc);
    for at in 0..count {
        for (value, step) in &fields {
            push(&mut bytes, 8, value.wrapping_add(step.wrapping_mul(at)))?;
        }
    }
    Ok(Some(bytes))
}
