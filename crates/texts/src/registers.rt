//! Registers.
ghost use Rattle.std.specs.Prelude.{◌≡◌};
ghost use Rattle.texts.specs.Read.{register_numbered, register as register_of};

use crate::numbers::digits;
use rv_isa::Reg;

/// A register from x1 to x31, from its number.
fn numbered(number: u64) -> Option<Reg>
    ensures { result ≡ register_numbered number }
{
    match u8::try_from(number) {
        Ok(number @ 1..=31) => Reg::new(number),
        _ => None,
    }
}

/// A register from x1 to x31, from its number in decimal without leading zeros.
#[tactic(auto, unfolding(crate::specs::Read::register))]
pub fn register(text: &[u8]) -> Option<Reg>
    ensures { result ≡ register_of text.now }
{
    match text {
        [] | [b'0', ..] => None,
        _ => numbered(digits(10, 2, text)?),
    }
}
