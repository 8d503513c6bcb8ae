//! Hexadecimal numbers.
ghost use Rattle.std.specs.Prelude.{Some};
ghost use Rattle.texts.specs.Printed.{hex_text, word_text};

use std::fmt;

/// An address, printed as `0x` and 16 lower-case digits.
#[derive(Clone, Copy, Debug)]
pub struct Address(pub u64);

impl fmt::Display for Address {
    ghost output = { λ a. Some (hex_text a.0) };

    fn fmt<W: fmt::Write>(&self, f: &mut fmt::Formatter<W>) -> fmt::Result {
        write!(f, "0x{:016x}", self.0)
    }
}

/// A word, printed as `0x` and 8 lower-case digits.
#[derive(Clone, Copy, Debug)]
pub struct Word(pub u32);

impl fmt::Display for Word {
    ghost output = { λ w. Some (word_text w.0) };

    fn fmt<W: fmt::Write>(&self, f: &mut fmt::Formatter<W>) -> fmt::Result {
        write!(f, "0x{:08x}", self.0)
    }
}
