//! The options of commands, as a table.
ghost use Rattle.std.specs.Prelude.{◌≡◌, map};
ghost use Rattle.qed_words.specs.Tables.{option_of};

use crate::Key;
use qed_model::limits::MAX_HALF;

/// The kind of an option's value.
#[derive(Clone, Copy)]
pub enum Value {
    /// None: the option is a flag.
    Flag,
    /// A number from the first to the second.
    Number(u64, u64),
    /// A multiple of 4096, from 4096 to this number.
    Pages(u64),
    /// `STEP:PLACE=V`.
    Fault,
    /// `STEP:WAY`.
    Slip,
    /// `ADDR:LEN`.
    Dump,
    /// Digits, each below the number of files.
    Turns,
    /// One of the words of the row.
    Word,
}

/// What an option takes.
#[derive(Clone, Copy)]
pub struct KeyRow {
    /// The option's name, without its dashes.
    pub name: &'static str,
    pub value: Value,
    /// The words that the value may be, if it is a word.
    pub words: &'static [&'static str],
    /// How often the option may be given.
    pub most: usize,
}

// A row: name, kind of value; then, if needed, the words that it may be and how often it may be given.
macro_rules! row {
    ($name:literal, $value:expr) => {
        row!($name, $value, [], 1)
    };
    ($name:literal, $value:expr, [$($word:literal),*], $most:literal) => {
        KeyRow {
            name: $name,
            value: $value,
            words: &[$($word),*],
            most: $most,
        }
    };
}

impl Key {
    /// What the option takes.
    pub fn row(self) -> KeyRow
        ensures name { result.name.now ≡ (option_of self).name }
        ensures value { result.value ≡ (option_of self).value }
        ensures words { map (λ word. word.now) result.words.now ≡ (option_of self).words }
        ensures most { result.most ≡ (option_of self).most }
    {
        match self {
            Key::InstMin => row!("inst-min", Value::Number(1, 1024)),
            Key::InstMax => row!("inst-max", Value::Number(1, 1024)),
            Key::Round => row!("round", Value::Number(1, 1024)),
            Key::Half => row!("half", Value::Pages(MAX_HALF)),
            Key::Entries => row!("entries", Value::Word, ["all", "reached"], 1),
            Key::Steps => row!("steps", Value::Number(0, 1_000_000_000_000)),
            Key::Fault => row!("fault", Value::Fault, [], 64),
            Key::Slip => row!("slip", Value::Slip),
            Key::Dump => row!("dump", Value::Dump),
            Key::Seed => row!("seed", Value::Number(0, u64::MAX)),
            Key::Count => row!("count", Value::Number(1, 10_000)),
            Key::Size => row!("size", Value::Number(1, 60_000)),
            Key::Changes => row!("changes", Value::Number(1, 16)),
            Key::Only => row!("only", Value::Word, ["registers", "words", "slips"], 1),
            Key::From => row!("from", Value::Number(0, 1_000_000)),
            Key::To => row!("to", Value::Number(1, 1_000_000)),
            Key::Turns => row!("turns", Value::Turns),
            Key::At => row!("at", Value::Number(0, u64::MAX)),
            Key::Sweep => row!("sweep", Value::Flag),
            Key::Diverse => row!("diverse", Value::Flag),
            Key::Results => row!("results", Value::Flag),
            Key::Reached => row!("reached", Value::Flag),
            Key::Lean => row!("lean", Value::Flag),
            Key::Every => row!("every", Value::Number(1, 2047)),
            Key::Land => row!("land", Value::Flag),
        }
    }

    /// The option's name, without its dashes.
    pub fn name(self) -> &'static str
        ensures { result.now ≡ (option_of self).name }
    {
        self.row().name
    }
}
