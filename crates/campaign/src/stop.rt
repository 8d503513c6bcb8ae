//! When a machine stops.
ghost use Rattle.std.specs.Prelude.{◌≤◌, IfOk};
ghost use Rattle.machine.specs.Step.{State};
ghost use Rattle.campaign.specs.Found.{IsOn, TellsStop};

use qed_model::Outcome;
use rv_step::Machine;
use std::alloc::AllocError;

/// Runs a machine, which has made `made` of at most `most` steps, until it stops or has made them
/// all. Returns the number of steps after which it stops; None if it still goes on after all.
pub fn steps_to_stop(machine: &mut Machine, made: u64, most: u64) -> Result<Option<u64>, AllocError>
    requires { made ≤ most }
    ensures { (s : State) → IsOn s made machine.old.state → IfOk result (TellsStop s most machine.new.state) }
{
    let more = machine.run_made(most - made)?;
    if machine.outcome() == Outcome::Going {
        return Ok(None);
    }
    Ok(Some(made + more))
}
