//! What the words of the command line ask for.

use crate::{Name, Names};
use elf_types::Bytes;
use qed_model::{Changes, Draws, Options};
use rv_step::SlipAt;

/// A command, without its files and options.
#[derive(Clone, Copy, Debug, PartialEq, Eq)]
pub enum Command {
    Transform,
    Plan,
    Explain,
    Run,
    Campaign,
    Gen,
    List,
    Asm,
    Harts,
    Help,
    Version,
}

/// The topics of `help` and `version`.
#[derive(Clone, Copy, Debug)]
pub enum Topic {
    /// All commands.
    All,
    One(Command),
    /// The program's version.
    Version,
}

/// What a run looks for, besides how it ends.
#[derive(Clone, Copy, Debug)]
pub enum Watch {
    Nothing,
    /// The first indirect jump to an address that is not reached.
    Jumps,
    /// An instruction that goes wrong in it.
    Slip(SlipAt),
}

/// A command with its files and options.
#[derive(Debug, Drop)]
pub enum Order {
    /// The input and the output.
    Transform(Name, Name, Options),
    /// The input.
    Plan(Name, Options),
    /// The input, and the address of the word to print alone.
    Explain(Name, Options, Option<u64>),
    /// The file, the most steps, the changes in the order of their steps, the address and length of
    /// the dump in bytes, and what the run looks for.
    Run(Name, u64, Changes, Option<(u64, u64)>, Watch),
    /// The input, the strikes, and whether to print which ends are right.
    Campaign(Name, Options, Draws, bool),
    /// As `Campaign`, but the strikes are slips: an instruction each, which goes wrong once.
    Slips(Name, Options, Draws, bool),
    /// The output, the seed and the size.
    Gen(Name, u64, u64),
    /// The file.
    List(Name),
    /// The text and the output.
    Asm(Name, Name),
    /// The files, the numbers of the harts that make the turns, again and again, and the number of
    /// turns. By default all harts take turns from 0 upwards.
    Harts(Names, Option<Bytes>, u64),
    /// A text that needs no file.
    Tell(Topic),
}

/// An option of a command.
#[derive(Clone, Copy, Debug)]
pub enum Key {
    InstMin,
    InstMax,
    Round,
    Half,
    Entries,
    Steps,
    Fault,
    Slip,
    Dump,
    Seed,
    Count,
    Size,
    Changes,
    Only,
    From,
    To,
    Turns,
    At,
    Sweep,
    Diverse,
    Results,
    Reached,
    Lean,
    Every,
    Land,
}

/// Why words ask for nothing. A number is that of a word; word 0 names the command.
#[derive(Clone, Copy, Debug)]
pub enum Reason {
    /// The first word is missing.
    NoCommand,
    /// Word 0 names no command, or the word behind `help` does not.
    UnknownCommand,
    EmptyWord(u64),
    /// The word begins with `-` and is not an option of the command.
    UnknownOption(u64),
    /// The option was already given as often as allowed.
    Repeated(u64),
    /// The option of this word has no value: it is missing, empty or begins with `-`.
    MissingValue(u64),
    /// The word is one file more than the command has.
    ExtraWord(u64),
    MissingFile,
    MissingOption(Key),
    BadNumber(Key),
    /// A fault, a slip, a dump, places or turns of another form.
    BadShape(Key),
    OutOfRange(Key),
    /// The floor of a piece leaves no room: `2 * inst_min` is above `inst_max + 1`.
    Split,
    /// All entries and the lean form are both asked for.
    AllEntries,
    /// The longest block of the lean form has this many steps, which is not below those from check to check.
    FewSteps(u64),
    /// A slip and a watch on indirect jumps are both asked for.
    SlipAndReached,
}
