//! Names of files.
ghost use Rattle.std.specs.Prelude.{◌≡◌, ℕ, List, string_bytes};

use elf_types::Listed;
use std::marker::Model;

/// The name of a file, which contracts see as its bytes.
#[derive(Debug, Drop)]
pub struct Name {
    text: String,
}

impl Model for Name {
    ghost Value = { List ℕ };

    ghost view = { λ n. string_bytes n.text };
}

impl Name {
    /// The name with this text.
    pub fn of(text: String) -> Name
        ensures { result ≡ string_bytes text }
    {
        Name { text }
    }

    /// The text of the name.
    pub fn as_str(&self) -> &str
        ensures { result.now ≡ self.now }
    {
        self.text.as_str()
    }
}

/// Names of files, in their order.
pub type Names = Listed<Name>;
