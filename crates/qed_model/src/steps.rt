//! Step counts of code sequences that several bounds use (docs/PROFILE.md).
ghost use Rattle.std.specs.Prelude.{◌≡◌, ◌≤◌};
ghost use Rattle.qed_model.specs.Weave.Bounds.{cost_of};
ghost use Rattle.qed_model.specs.Weave.LeanBounds.{cost_of as lean_cost_of, entry_steps as entry_steps_of, call_steps as call_steps_of};

/// The most steps of an instruction in both its parts.
pub const INSTRUCTION_STEPS: u64 = 5;

/// The most steps of an instruction whose mirror part is of other kinds.
pub const DIVERSE_STEPS: u64 = 8;

/// The most steps of a store of the lean form in both its parts.
pub const STORE_STEPS: u64 = 6;

/// The steps of a tick of the lean form that does not call the check.
pub const TICK_STEPS: u64 = 3;

/// The steps of an entry that tests the signature, with its tick.
pub const LANDING_STEPS: u64 = 6;

/// The extra steps of a tick that calls the check.
pub const CALL_STEPS: u64 = 3;

/// The most steps of a leave of the lean form.
pub const LEAN_LEAVE_STEPS: u64 = 27;

/// The most steps that a block without a tick may leave to the tick before it.
pub const MOST_OWED: u64 = 48;

/// The most steps of an instruction in both its parts.
pub fn instruction_steps(diverse: bool) -> u64
    ensures value { result ≡ cost_of diverse }
    ensures bound { result ≤ 8 }
{
    if diverse {
        DIVERSE_STEPS
    } else {
        INSTRUCTION_STEPS
    }
}

/// The most steps of an instruction of the lean form in both its parts.
pub fn lean_instruction_steps(diverse: bool) -> u64
    ensures value { result ≡ lean_cost_of diverse }
    ensures bound { result ≤ 8 }
{
    if diverse { DIVERSE_STEPS } else { STORE_STEPS }
}

/// The steps of an entry of the lean form whose tick does not call the check; with `land` it tests the signature first.
pub fn entry_steps(land: bool) -> u64
    ensures value { result ≡ entry_steps_of land }
    ensures bound { result ≤ 6 }
{
    if land { LANDING_STEPS } else { TICK_STEPS }
}

/// The extra steps of a tick that calls the check.
pub fn call_steps(land: bool) -> u64
    ensures value { result ≡ call_steps_of land }
    ensures bound { result ≤ 3 }
{
    if land { 1 } else { CALL_STEPS }
}
