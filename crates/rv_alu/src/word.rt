//! Words: the low 32 bits of a register. Each result is a word, sign-extended to 64 bits (RISC-V
//! unprivileged manual, "RV64I").
ghost use Rattle.std.specs.Prelude.{◌≡◌, ℕ, pos, ◌+◌, ◌-◌, ◌*◌, ◌/◌, ◌%◌, ◌^◌};
ghost use Rattle.machine.specs.Values.{wrapped, floor_shift, word, s32, s64, u32 as low_word, quotient, remainder};

use crate::divide::{div, divu, rem, remu};
use crate::multiply::mul;
use crate::register::{add, sll, sra, srl, sub};

/// The word without a sign.
fn unsigned(x: u64) -> u64
    ensures { result ≡ low_word x }
{
    x & 0xffff_ffff
}

/// The word, sign-extended.
fn extended(x: u64) -> u64
    ensures value { result ≡ word x }
    ensures sign { s64 result ≡ s32 x }
{
    let low = unsigned(x) as u32;
    (low.cast_signed() as i64).cast_unsigned()
}

/// The sum.
pub(crate) fn addw(a: u64, b: u64) -> u64
    ensures { result ≡ word (a + b) }
{
    extended(add(a, b))
}

/// The difference.
pub(crate) fn subw(a: u64, b: u64) -> u64
    ensures { result ≡ word (a + (2 ^ 64 - b)) }
{
    extended(sub(a, b))
}

/// Shifted left by the low 5 bits of b.
pub(crate) fn sllw(a: u64, b: u64) -> u64
    ensures { result ≡ word (low_word a * 2 ^ (b % 32)) }
{
    extended(sll(unsigned(a), b & 31))
}

/// Shifted right by the low 5 bits of b, with zeros.
pub(crate) fn srlw(a: u64, b: u64) -> u64
    ensures { result ≡ word (low_word a / 2 ^ (b % 32)) }
{
    extended(srl(unsigned(a), b & 31))
}

/// Shifted right by the low 5 bits of b, with copies of the sign.
pub(crate) fn sraw(a: u64, b: u64) -> u64
    ensures { result ≡ word (wrapped (floor_shift (s32 a) (b % 32))) }
{
    extended(sra(extended(a), b & 31))
}

/// The product.
pub(crate) fn mulw(a: u64, b: u64) -> u64
    ensures { result ≡ word (low_word a * low_word b) }
{
    extended(mul(unsigned(a), unsigned(b)))
}

/// The signed quotient, as `div`.
pub(crate) fn divw(a: u64, b: u64) -> u64
    ensures { result ≡ word (quotient (s32 a) (s32 b)) }
{
    extended(div(extended(a), extended(b)))
}

/// The signed remainder, as `rem`.
pub(crate) fn remw(a: u64, b: u64) -> u64
    ensures { result ≡ word (remainder (s32 a) (s32 b)) }
{
    extended(rem(extended(a), extended(b)))
}

/// The quotient without signs, as `divu`.
pub(crate) fn divuw(a: u64, b: u64) -> u64
    ensures { result ≡ word (quotient (pos (low_word a)) (pos (low_word b))) }
{
    extended(divu(unsigned(a), unsigned(b)))
}

/// The remainder without signs, as `remu`.
pub(crate) fn remuw(a: u64, b: u64) -> u64
    ensures { result ≡ word (remainder (pos (low_word a)) (pos (low_word b))) }
{
    extended(remu(unsigned(a), unsigned(b)))
}
