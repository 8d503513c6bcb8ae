//! Products.
ghost use Rattle.std.specs.Prelude.{◌≡◌, ℕ, pos, ◌*◌, ◌/◌, ◌%◌, ◌^◌, ◌*ℤ◌};
ghost use Rattle.machine.specs.Values.{wrapped, floor_shift, s64};

/// The low 64 bits of the product.
pub(crate) fn mul(a: u64, b: u64) -> u64
    ensures { result ≡ a * b % 2 ^ 64 }
{
    a.wrapping_mul(b)
}

/// The high 64 bits of the product of two signed numbers.
pub(crate) fn mulh(a: u64, b: u64) -> u64
    ensures { result ≡ wrapped (floor_shift (s64 a *ℤ s64 b) 64) }
{
    let product = a.cast_signed() as i128 * b.cast_signed() as i128;
    ((product >> 64) as i64).cast_unsigned()
}

/// The high 64 bits of the product of a, read as signed, and b.
pub(crate) fn mulhsu(a: u64, b: u64) -> u64
    ensures { result ≡ wrapped (floor_shift (s64 a *ℤ pos b) 64) }
{
    let product = a.cast_signed() as i128 * b as i128;
    ((product >> 64) as i64).cast_unsigned()
}

/// The high 64 bits of the product.
pub(crate) fn mulhu(a: u64, b: u64) -> u64
    ensures { result ≡ a * b / 2 ^ 64 }
{
    ((a as u128 * b as u128) >> 64) as u64
}
