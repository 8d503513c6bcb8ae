//! The commands, as a table.
ghost use Rattle.std.specs.Prelude.{◌≡◌, map};
ghost use Rattle.qed_words.specs.Tables.{place_among as place_among_of, command_row_of, command_of, key_named};

use crate::Command::*;
use crate::{Command, Key};

/// What a command takes.
#[derive(Clone, Copy)]
pub struct CommandRow {
    /// The command's names, that of the texts first.
    pub names: &'static [&'static str],
    pub least_files: usize,
    pub most_files: usize,
    /// The options, in the order in which their values are checked.
    pub keys: &'static [Key],
    /// The options that must be given.
    pub required: &'static [Key],
}

/// All commands, in the order of the texts.
pub const COMMANDS: [Command; 11] = [
    Transform, Plan, Explain, Run, Campaign, Gen, List, Asm, Harts, Help, Version,
];

// A row: names, the least and the most files, options, options that must be given. `weave` puts the
// options of `transform` in front.
macro_rules! row {
    ($names:expr, $least:literal, $most:literal, weave [$($key:ident),*], [$($required:ident),*]) => {
        row!($names, $least, $most, [InstMin, InstMax, Round, Half, Entries, Sweep, Diverse, Lean, Every, Land $(, $key)*], [$($required),*])
    };
    ($names:expr, $least:literal, $most:literal, [$($key:ident),*], [$($required:ident),*]) => {
        CommandRow {
            names: &$names,
            least_files: $least,
            most_files: $most,
            keys: &[$(Key::$key),*],
            required: &[$(Key::$required),*],
        }
    };
}

/// The place of a text among some words, from 0.
#[tactic(auto, unfolding(crate::specs::Tables::place_among))]
pub fn place_among(words: &[&str], text: &[u8]) -> Option<usize>
    ensures { result ≡ place_among_of (map (λ word. word.now) words.now) text.now }
{
    for place in 0..words.len() {
        if words[place].as_bytes() == text {
            return Some(place);
        }
    }
    None
}

impl Command {
    /// What the command takes.
    pub fn row(self) -> CommandRow
        ensures names { map (λ name. name.now) result.names.now ≡ (command_row_of self).names }
        ensures least_files { result.least_files ≡ (command_row_of self).least_files }
        ensures most_files { result.most_files ≡ (command_row_of self).most_files }
        ensures keys { result.keys.now ≡ (command_row_of self).keys }
        ensures required { result.required.now ≡ (command_row_of self).required }
    {
        match self {
            Command::Transform => row!(["transform"], 2, 2, weave [], []),
            Command::Plan => row!(["plan"], 1, 1, weave [], []),
            Command::Explain => row!(["explain"], 1, 1, weave[At], []),
            Command::Run => row!(["run"], 1, 1, [Steps, Fault, Slip, Dump, Reached], []),
            Command::Campaign =>
                row!(["campaign"], 1, 1, weave [Seed, Count, Changes, Only, From, To, Results], [Seed, Count]),
            Command::Gen => row!(["gen"], 1, 1, [Seed, Size], [Seed, Size]),
            Command::List => row!(["list"], 1, 1, [], []),
            Command::Asm => row!(["asm"], 2, 2, [], []),
            Command::Harts => row!(["harts"], 1, 8, [Turns, Steps], []),
            Command::Help => row!(["help", "--help", "-h"], 0, 1, [], []),
            Command::Version => row!(["version", "--version"], 0, 0, [], []),
        }
    }

    /// The command with this name.
    #[tactic(auto, unfolding(crate::specs::Tables::command_of))]
    pub fn named(word: &str) -> Option<Command>
        ensures { result ≡ command_of word.now }
    {
        COMMANDS.iter().copied().find(|command| place_among(
            command.row().names,
            word.as_bytes(),
        ).is_some())
    }

    /// The option of the command with this name.
    #[tactic(auto, unfolding(crate::specs::Tables::key_named))]
    pub fn key(self, name: &[u8]) -> Option<Key>
        ensures { result ≡ key_named self name.now }
    {
        let keys = self.row().keys;
        keys.iter()
            .copied()
            .find(|key| key.row().name.as_bytes() == name)
    }
}
