//! The registers x0 to x31.
ghost use Rattle.std.specs.Prelude.{◌≡◌, ◌≢◌, ◌+◌, ◌<◌, ◌≤◌, ◌↔◌, IsSome, IfSome};
ghost use Rattle.rv_isa.specs.declared.profile.TheConstants.{LAST_ORIGINAL, PAIR_DISTANCE};

use crate::profile::PAIR_DISTANCE;
use std::marker::Model;

/// A register, by its number from 0 to 31: x0 to x31.
#[derive(Clone, Copy, Debug, PartialEq, Eq)]
pub struct Reg {
    number: u8,
}

impl Model for Reg {
    ghost use Rattle.std.specs.Prelude.{ℕ, ◌<◌};

    ghost Value = { ℕ };

    ghost view = { λ r. r.number };

    ghost invariant = { λ r. r.number < 32 };

    ghost inverse = { λ n. record { number = n } };
}

/// The register of a number below 32.
pub fn register(number: u8) -> Reg
    requires { number < 32 }
    ensures { result ≡ number }
{
    Reg { number }
}

impl Reg {
    /// The register of this number, None above 31.
    pub fn new(n: u8) -> Option<Reg>
        ensures known { IsSome result ↔ (n < 32) }
        ensures value { IfSome result (λ r. r ≡ n) }
    {
        if n < 32 {
            Some(Reg { number: n })
        } else {
            None
        }
    }

    /// The register's number, from 0 to 31.
    pub fn number(&self) -> u8
        ensures value { result ≡ self.now }
        ensures bound { result < 32 }
    {
        self.number
    }

    /// The register that holds the duplicate of this one: x(r+16) for x1 to x13, x0 for x0.
    pub fn pair(&self) -> Reg
        requires { self.now ≤ LAST_ORIGINAL }
        ensures zero { self.now ≡ 0 → result ≡ 0 }
        ensures other { self.now ≢ 0 → result ≡ self.now + PAIR_DISTANCE }
    {
        if self.number == 0 {
            Reg { number: 0 }
        } else {
            Reg {
                number: self.number + PAIR_DISTANCE,
            }
        }
    }
}
