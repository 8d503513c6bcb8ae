//! Instructions that touch no memory.
ghost use Rattle.std.specs.Prelude.{◌≡◌};
ghost use Rattle.rv_isa.specs.Kind.{class_of};
ghost use Rattle.rv_isa.specs.Operation.{Frame, Sources, Mirror};

use crate::{Ins, Regs};

/// What the instructions of some classes do to the registers and the pc. The classes are such as
/// touch no memory.
pub trait Operation {
    ghost use Rattle.std.specs.Prelude.{ℕ, List};
    ghost use Rattle.rv_isa.specs.declared.class.Class.{Class};
    ghost use Rattle.rv_isa.specs.declared.ins.Ins.{Ins};

    // The classes that it is for.
    ghost is_for: { Class → Type 0 };

    // What the registers hold after an instruction, of the pc and what they hold before.
    ghost registers: { Ins → ℕ → List ℕ → List ℕ };

    // The next pc, of the same.
    ghost next: { Ins → ℕ → List ℕ → ℕ };

    /// Changes the registers as the instruction at the pc does, and gives the next pc, whose grain is
    /// not checked. The instruction is of a class that the operation is for.
    fn act(&self, ins: &Ins, pc: u64, regs: &mut Regs) -> u64
        requires { is_for (class_of ins.now.kind) }
        ensures registers { regs.new ≡ registers ins.now pc regs.old }
        ensures next { result ≡ next ins.now pc regs.old };

    // Every register other than the one that is written stays.
    ghost frame: { Frame is_for registers };

    // Equal source registers and an equal pc give equal results.
    ghost sources: { Sources is_for registers next };

    // The renamed instruction does to the pairs what the instruction does to the originals.
    ghost mirror: { Mirror is_for registers next };
}
