//! Sums, shifts, tests and logic of whole registers.
ghost use Rattle.std.specs.Prelude.{◌≡◌, ℕ, ◌+◌, ◌-◌, ◌*◌, ◌/◌, ◌%◌, ◌^◌, int_lt, nat_lt, bit_and, bit_or, bit_xor};
ghost use Rattle.machine.specs.Values.{wrapped, floor_shift, s64, from_test};

use crate::compare::{below, less};

/// The sum modulo 2^64.
pub(crate) fn add(a: u64, b: u64) -> u64
    ensures { result ≡ (a + b) % 2 ^ 64 }
{
    a.wrapping_add(b)
}

/// The difference modulo 2^64.
pub(crate) fn sub(a: u64, b: u64) -> u64
    ensures { result ≡ (a + (2 ^ 64 - b)) % 2 ^ 64 }
{
    a.wrapping_sub(b)
}

/// Shifted left by the low 6 bits of b.
pub(crate) fn sll(a: u64, b: u64) -> u64
    ensures { result ≡ a * 2 ^ (b % 64) % 2 ^ 64 }
{
    a << (b & 63)
}

/// Shifted right by the low 6 bits of b, with zeros.
pub(crate) fn srl(a: u64, b: u64) -> u64
    ensures { result ≡ a / 2 ^ (b % 64) }
{
    a >> (b & 63)
}

/// Shifted right by the low 6 bits of b, with copies of the sign.
pub(crate) fn sra(a: u64, b: u64) -> u64
    ensures { result ≡ wrapped (floor_shift (s64 a) (b % 64)) }
{
    (a.cast_signed() >> (b & 63)).cast_unsigned()
}

/// 1 where a is less than b, both read as signed, else 0.
pub(crate) fn slt(a: u64, b: u64) -> u64
    ensures { result ≡ from_test (int_lt (s64 a) (s64 b)) }
{
    u64::from(less(a, b))
}

/// 1 where a is less than b, else 0.
pub(crate) fn sltu(a: u64, b: u64) -> u64
    ensures { result ≡ from_test (nat_lt a b) }
{
    u64::from(below(a, b))
}

/// Each bit is set where those of a and b differ.
pub(crate) fn xor(a: u64, b: u64) -> u64
    ensures { result ≡ bit_xor a b }
{
    a ^ b
}

/// Each bit is set where that of a or of b is.
pub(crate) fn or(a: u64, b: u64) -> u64
    ensures { result ≡ bit_or a b }
{
    a | b
}

/// Each bit is set where those of a and b are.
pub(crate) fn and(a: u64, b: u64) -> u64
    ensures { result ≡ bit_and a b }
{
    a & b
}
