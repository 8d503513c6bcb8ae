//! Quotients and remainders. No division traps (RISC-V unprivileged manual, "Division Operations").
ghost use Rattle.std.specs.Prelude.{◌≡◌, ℕ, pos};
ghost use Rattle.machine.specs.Values.{s64, quotient, remainder};

/// Each quotient by 0: all bits are set.
const BY_ZERO: u64 = u64::MAX;

/// The signed quotient, rounded towards zero. By 0 all bits are set; the overflow gives the least
/// number.
pub(crate) fn div(a: u64, b: u64) -> u64
    ensures { result ≡ quotient (s64 a) (s64 b) }
{
    if b == 0 {
        return BY_ZERO;
    }
    a.cast_signed()
        .wrapping_div(b.cast_signed())
        .cast_unsigned()
}

/// The remainder of the signed quotient, with the sign of a. By 0 it is a; at the overflow 0.
pub(crate) fn rem(a: u64, b: u64) -> u64
    ensures { result ≡ remainder (s64 a) (s64 b) }
{
    if b == 0 {
        return a;
    }
    a.cast_signed()
        .wrapping_rem(b.cast_signed())
        .cast_unsigned()
}

/// The quotient, rounded down. By 0 all bits are set.
pub(crate) fn divu(a: u64, b: u64) -> u64
    ensures { result ≡ quotient (pos a) (pos b) }
{
    if b == 0 {
        return BY_ZERO;
    }
    a / b
}

/// The remainder of the quotient. By 0 it is a.
pub(crate) fn remu(a: u64, b: u64) -> u64
    ensures { result ≡ remainder (pos a) (pos b) }
{
    if b == 0 {
        return a;
    }
    a % b
}
