//! The options of a transformation.
ghost use Rattle.std.specs.Prelude.{◌≡◌, ◌+◌, ◌/◌, map};
ghost use Rattle.qed_words.specs.Words.{entries as entries_of, usual_options as usual_options_of, options as options_of, is_split as is_split_of};
ghost use Rattle.qed_words.specs.Seen.{seen};

use crate::Key;
use crate::argument::Argument;
use crate::given::{lacks, number_given, word_given};
use qed_model::{Entries, Options};
use tests::{LEAN_EVERY, LEAN_INST_MAX, LEAN_ROUND};

/// Half of a number, rounded up: the greatest floor that leaves room.
fn room(inst_max: u64) -> u64
    ensures { result ≡ (inst_max + 1) / 2 }
{
    inst_max / 2 + inst_max % 2
}

/// The entries that the words of `--entries` name, by their place.
fn entries(place: usize) -> Entries
    ensures { result ≡ entries_of place }
{
    if place == 0 {
        Entries::All
    } else {
        Entries::Reached
    }
}

/// The defaults: of the lean form if it is asked for.
#[tactic(auto, unfolding(crate::specs::Words::usual_options))]
fn usual_options(arguments: &[Argument<'_>]) -> Options
    ensures { result ≡ usual_options_of (map seen arguments.now) }
{
    let default = Options::default();
    if lacks(arguments, Key::Lean) {
        return default;
    }
    Options {
        inst_max: LEAN_INST_MAX,
        round: LEAN_ROUND,
        entries: Entries::Reached,
        lean: Some(LEAN_EVERY),
        ..default
    }
}

/// The options that arguments ask for.
#[tactic(auto, unfolding(crate::specs::Words::options))]
pub fn options(arguments: &[Argument<'_>]) -> Options
    ensures { result ≡ options_of (map seen arguments.now) }
{
    let usual = usual_options(arguments);
    let inst_max = number_given(Key::InstMax, arguments).unwrap_or(usual.inst_max);
    let least = usual.inst_min.min(room(inst_max));
    let every = number_given(Key::Every, arguments);
    Options {
        inst_min: number_given(Key::InstMin, arguments).unwrap_or(least),
        inst_max,
        round: number_given(Key::Round, arguments).unwrap_or(usual.round),
        half: number_given(Key::Half, arguments),
        sweep: !lacks(arguments, Key::Sweep),
        diverse: !lacks(arguments, Key::Diverse),
        entries: word_given(Key::Entries, arguments)
            .map(entries)
            .unwrap_or(usual.entries),
        lean: usual.lean.map(|usual| every.unwrap_or(usual)),
        land: !lacks(arguments, Key::Land),
    }
}

/// Whether the floor of a piece leaves no room.
pub fn is_split(options: &Options) -> bool
    ensures { result ≡ is_split_of options.now }
{
    options.inst_min > room(options.inst_max)
}
