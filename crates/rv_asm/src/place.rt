//! Places of lines.
ghost use Rattle.std.specs.Prelude.{◌≡◌, ◌<◌, ◌^◌};
ghost use Rattle.rv_asm.specs.Given.{address_at};
ghost use Rattle.rv_asm.specs.Steps.{next_place};

use crate::heads::Head;

/// Where the code begins.
pub const CODE: u64 = 0x10000;

/// Where the data begin.
pub const DATA: u64 = 0x20000;

/// What stands before a line, by the first words of the lines before it.
#[derive(Clone, Copy)]
pub struct Place {
    /// A line is `.data`.
    pub in_data: bool,
    /// How many lines before `.data` count as code words.
    pub code_words: u64,
    /// How many lines behind `.data` count as data words.
    pub data_words: u64,
}

impl Place {
    /// The place of the first line.
    pub const FIRST: Place = Place {
        in_data: false,
        code_words: 0,
        data_words: 0,
    };

    /// The address of the next code word, or of the next data word behind `.data`.
    pub fn address(self) -> u64
        requires code { self.code_words < 2 ^ 32 }
        requires words { self.data_words < 2 ^ 32 }
        ensures { result ≡ address_at self }
    {
        if self.in_data {
            DATA + 8 * self.data_words
        } else {
            CODE + 4 * self.code_words
        }
    }

    /// The place behind a line with this first word.
    pub fn behind(self, head: Head) -> Place
        requires code { self.code_words < 2 ^ 32 }
        requires words { self.data_words < 2 ^ 32 }
        ensures { result ≡ next_place self head }
    {
        match head {
            Head::DataStart => Place {
                in_data: true,
                ..self
            },
            Head::Instruction(_) | Head::Word if !self.in_data => Place {
                code_words: self.code_words + 1,
                ..self
            },
            Head::DataWord if self.in_data => Place {
                data_words: self.data_words + 1,
                ..self
            },
            _ => self,
        }
    }
}
