//! What the registers hold.
ghost use Rattle.std.specs.Prelude.{◌≡◌, length, slice_index, slice_set};
ghost use Rattle.rv_isa.specs.Regs.{set_reg};

use crate::Reg;
use std::marker::Model;

/// The 64-bit numbers that the registers x0 to x31 hold, where x0 holds 0. Contracts see them as a
/// list of 32 numbers.
#[derive(Clone, Copy, Debug, PartialEq, Eq)]
pub struct Regs {
    values: [u64; 32],
}

impl Model for Regs {
    ghost use Rattle.std.specs.Prelude.{◌≡◌, ℕ, List, slice_index};

    ghost Value = { List ℕ };

    ghost view = { λ r. r.values };

    ghost invariant = { λ r. slice_index r.values 0 ≡ 0 };

    ghost inverse = { λ values. record { values = values } };
}

impl Regs {
    /// These numbers, with the first replaced by 0.
    pub fn new(values: &[u64; 32]) -> Regs
        ensures { result ≡ slice_set values.now 0 0 }
    {
        let mut values = *values;
        values[0] = 0;
        Regs { values }
    }

    /// The number that the register holds.
    pub fn get(&self, r: Reg) -> u64
        ensures value { result ≡ slice_index self.now r }
        ensures count { length self.now ≡ 32 }
        ensures zero { slice_index self.now 0 ≡ 0 }
    {
        self.values[r.number() as usize]
    }

    /// Gives the register another number. Nothing changes where it is x0.
    pub fn set(&mut self, r: Reg, value: u64)
        ensures { self.new ≡ set_reg r value self.old }
    {
        self.values[r.number() as usize] = value;
        self.values[0] = 0;
    }
}
