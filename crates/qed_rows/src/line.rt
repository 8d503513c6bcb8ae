//! Lines of words and numbers, one behind the other.

use std::alloc::{AllocError, Global};

/// Lines so far.
#[derive(Drop)]
pub(crate) struct Lines {
    alloc: Global,
    text: String,
}

impl Lines {
    /// No line.
    pub(crate) fn new(alloc: Global) -> Lines {
        Lines {
            alloc,
            text: String::new(alloc),
        }
    }

    /// Appends a text as it stands.
    pub(crate) fn text(&mut self, text: &str) -> Result<(), AllocError> {
        self.text.push_str(text)
    }

    /// Appends a word.
    pub(crate) fn word(&mut self, word: &str) -> Result<(), AllocError> {
        self.text.push_str(" ")?;
        self.text.push_str(word)
    }

    /// Appends a number in hexadecimal digits.
    pub(crate) fn hex(&mut self, number: u64) -> Result<(), AllocError> {
        let digits = format!(in self.alloc; " 0x{number:x}")?;
        self.text.push_str(&digits)
    }

    /// Appends a number in decimal digits.
    pub(crate) fn number(&mut self, number: u64) -> Result<(), AllocError> {
        let digits = format!(in self.alloc; " {number}")?;
        self.text.push_str(&digits)
    }

    /// Appends a word and a number in hexadecimal digits.
    pub(crate) fn field(&mut self, word: &str, number: u64) -> Result<(), AllocError> {
        self.word(word)?;
        self.hex(number)
    }

    /// Appends a word and a number in decimal digits.
    pub(crate) fn count(&mut self, word: &str, number: u64) -> Result<(), AllocError> {
        self.word(word)?;
        self.number(number)
    }

    /// Ends the line.
    pub(crate) fn end(&mut self) -> Result<(), AllocError> {
        self.text.push_str("\n")
    }

    /// The text of all lines.
    pub(crate) fn into_text(self) -> String {
        self.text
    }
}
