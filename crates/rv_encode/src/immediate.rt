//! The bits of immediates.
ghost use Rattle.std.specs.Prelude.{◌≡◌, ◌^◌, ◌<◌, ◌≤◌, true};
ghost use Rattle.machine.specs.Table.{fits_signed as fits_signed_of, fits_below as fits_below_of, to_bits as to_bits_of};

/// Whether this is a signed number of `width` bits.
#[inline]
pub fn fits_signed(width: u32, imm: i64) -> bool
    requires some { 1 ≤ width }
    requires most { width ≤ 32 }
    ensures { result ≡ fits_signed_of width imm }
{
    let half = 1i64 << (width - 1);
    -half <= imm && imm < half
}

/// Whether this is a number of `width` bits, without a sign.
#[inline]
pub fn fits_below(width: u32, imm: i64) -> bool
    requires { width ≤ 32 }
    ensures { result ≡ fits_below_of width imm }
{
    imm >= 0 && imm < 1i64 << width
}

/// The bits of a signed number.
#[inline]
pub fn to_bits(width: u32, imm: i64) -> u32
    requires some { 1 ≤ width }
    requires most { width ≤ 32 }
    requires fits { fits_signed_of width imm ≡ true }
    ensures value { result ≡ to_bits_of width imm }
    ensures bound { result < 2 ^ width }
{
    (imm.cast_unsigned() & (u64::MAX >> (64 - width))) as u32
}
