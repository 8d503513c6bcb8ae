//! Bytes in short.

use md5::{Digest, Md5};
use std::alloc::{AllocError, Global};

/// The number of bytes, and their MD5 digest.
pub(crate) fn digest_of(alloc: Global, bytes: &[u8]) -> Result<String, AllocError> {
    let size = bytes.len();
    let digest = u128::from_be_bytes(Md5::digest(bytes));
    format!(in alloc; "{size} bytes, md5 {digest:032x}")
}
