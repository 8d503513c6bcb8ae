//! Changes of files.

use std::alloc::{AllocError, Global};

/// The first `count` bytes, or all if there are fewer.
pub(crate) fn first(bytes: &[u8], count: usize) -> &[u8] {
    bytes.get(..count).unwrap_or(bytes)
}

/// A copy with other bytes from a place on.
pub(crate) fn with(
    alloc: Global,
    old: &[u8],
    at: usize,
    new: &[u8],
) -> Result<Vec<u8>, AllocError> {
    let mut all = Vec::new(alloc);
    all.extend_from_slice(first(old, at))?;
    all.extend_from_slice(new)?;
    if let Some(rest) = old.get(all.len()..) {
        all.extend_from_slice(rest)?;
    }
    Ok(all)
}
