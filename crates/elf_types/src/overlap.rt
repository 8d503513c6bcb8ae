//! Ranges of bytes that overlap.
ghost use Rattle.std.specs.Prelude.{◌≡◌};
ghost use Rattle.elf_types.specs.Overlap.{share_byte};

/// Whether two ranges share a byte. Each is given by its first address and its size, in bytes, and may end at 2^64 or
/// behind it.
pub fn share_byte(first: u64, first_size: u64, second: u64, second_size: u64) -> bool
    ensures { result ≡ share_byte first first_size second second_size }
{
    first_size > 0
        && second_size > 0
        && u128::from(first) < u128::from(second) + u128::from(second_size)
        && u128::from(second) < u128::from(first) + u128::from(first_size)
}
