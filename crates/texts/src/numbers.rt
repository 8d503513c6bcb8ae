//! Numbers.
ghost use Rattle.std.specs.Prelude.{◌≡◌, ℕ, ◌≤◌, ◌<◌, ◌*◌, ◌+◌, ◌^◌, ◌&&◌, nat_lt, if◌then◌else◌, Some, None};
ghost use Rattle.std.specs.Char.{digit_value};
ghost use Rattle.texts.specs.Read.{digits as digits_of, parsed_number as number_of};

/// The number with one digit more, None if the byte is not a digit, or from 2^64 on.
fn next(base: u32, number: u64, byte: u8) -> Option<u64>
    requires low { 2 ≤ base }
    requires high { base ≤ 16 }
    ensures { result ≡ (if nat_lt (digit_value byte) base && nat_lt (number * base + digit_value byte) (2 ^ 64) then Some (number * base + digit_value byte)
        else None) }
{
    let digit = char::from(byte).to_digit(base)?;
    let front = number.checked_mul(u64::from(base))?;
    front.checked_add(u64::from(digit))
}

/// The number of 1 to `most` digits, None if a byte is not a digit, or from 2^64 on.
#[tactic(auto, unfolding(crate::specs::Read::digits))]
pub fn digits(base: u32, most: usize, text: &[u8]) -> Option<u64>
    requires low { 2 ≤ base }
    requires high { base ≤ 16 }
    ensures { result ≡ digits_of base most text.now }
{
    if text.is_empty() || text.len() > most {
        return None;
    }
    let mut number = 0u64;
    for &byte in text {
        number = next(base, number, byte)?;
    }
    Some(number)
}

/// A number of 1 to 20 decimal digits, or `0x` and 1 to 16 hexadecimal digits of either case.
#[tactic(auto, unfolding(crate::specs::Read::parsed_number))]
pub fn number(text: &[u8]) -> Option<u64>
    ensures { result ≡ number_of text.now }
{
    match text {
        [b'0', b'x', rest @ ..] => digits(16, 16, rest),
        _ => digits(10, 20, text),
    }
}
