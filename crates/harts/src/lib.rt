//! Several harts with one memory. Contracts see a world as its harts with their steps, and the
//! shared memory; a turn is the step of the definitions. If the files share no byte, each hart runs
//! as it runs alone, and the promises on its file hold of it: the laws say so.
#![tactic(auto)]

ghost use Rattle.std.specs.Prelude.{ℕ, List};
ghost use Rattle.machine.specs.Program.{Program};
ghost use Rattle.harts.specs.Shared.{AreSound, AreUnshared, NoneShared};
ghost use Rattle.harts.specs.Starts.{WorldLaws};
ghost use Rattle.harts.specs.HartSteps.{CountedTogether, TurnsKeep, TurnsRun};
ghost use Rattle.harts.specs.Together.{Together, PerHart};

mod error;
mod parts;
mod standing;
mod world;

pub use error::HartsError;
pub use world::World;

/// Files that share no byte run on a hart each, with changes of their own. If no hart is trapped when it runs
/// alone, then after any schedule each hart has the registers, pc, outcome and bytes of its run alone.
pub fn harts_together()
    ensures { Together }
{}

/// If a hart's file is the output of some input, the hart keeps the input's values and raises no
/// false alarm, and its changes are caught, in its own turns, in every schedule.
pub fn hart_promises()
    ensures { PerHart }
{}

/// As `harts_together`, without changes: each hart stands as a run of its file does, with as many steps.
pub fn turns_run()
    ensures counted { CountedTogether }
    ensures plain { TurnsRun }
{}

/// Let the segments of each file fit, no two segments share a byte, and no hart of these turns be trapped when it runs
/// alone. Then a hart whose file is the output of some input keeps the input's values and raises no false alarm.
pub fn turns_keep()
    ensures { (gs : List Program) (ts : List ℕ) → AreSound gs → AreUnshared gs → TurnsKeep gs ts }
{}

/// If the segments of each file fit and share no byte, and no two files share one, the files are
/// apart, and all segments together make one memory.
pub fn files_apart()
    ensures { NoneShared }
{}

/// The memory before the first turn is the union of the files' memories. A turn and a change touch
/// one hart and the memory, and a turn also the steps of this hart.
pub fn world_laws()
    ensures { WorldLaws }
{}
