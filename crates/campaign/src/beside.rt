//! A changed run that meets the run without changes: from equal states both go on alike.
ghost use Rattle.std.specs.Prelude.{◌≡◌, ◌+◌, ◌*◌, ◌≤◌, true, IfOk};
ghost use Rattle.machine.specs.Step.{State, run};
ghost use Rattle.campaign.specs.Found.{IsOn, TellsStop};
ghost use Rattle.campaign.specs.Kept.{copies_up_to};

use crate::snapshots::{SPACING, Snapshots};
use crate::stop::steps_to_stop;
use crate::strike::Strike;
use crate::verdict::last_step;
use qed_model::Outcome;
use rv_step::Machine;
use std::alloc::AllocError;

/// In the time of how many steps a page is compared.
const PAGE_STEPS: u64 = 32;

/// Whether a machine stands as copy `number` of a run does. It may wrongly say no, for example if
/// the comparison takes longer than `steps` steps.
fn stands_at(way: &Snapshots, number: u64, machine: &Machine, steps: u64) -> bool
    ensures { result ≡ true → machine.now.state ≡ run way.now.start (4096 * number) }
{
    match way.at(number) {
        Some(copy) => machine.is_beside(copy, steps / PAGE_STEPS),
        None => false,
    }
}

impl<'a> Strike<'a> {
    /// As `steps_beside`, of a machine that stands as copy `number` does: it goes on as the last copy.
    fn leap_to_stop(
        &self,
        number: u64,
        machine: &mut Machine,
        made: u64,
    ) -> Result<Option<u64>, AllocError>
        requires part { made ≤ self.now.bound }
        requires number { number + 1 ≤ copies_up_to self.now.way.now.reach }
        requires beside { machine.old.state ≡ run self.now.way.now.start (4096 * number) }
        ensures { (s : State) → IsOn s made machine.old.state → IfOk result (TellsStop s self.now.bound machine.new.state) }
    {
        let reach = self.way.reach();
        let here = SPACING * number;
        if self.bound - made < reach - here {
            return Ok(None);
        }
        let last = reach / SPACING;
        *machine = self.way.at(last).unwrap().copy(self.alloc)?;
        let steps = steps_to_stop(machine, made + (SPACING * last - here), self.bound)?;
        Ok(steps)
    }

    /// As `steps_to_stop`, up to the bound, of a machine that has made `from` steps behind the last
    /// change. It may come to stand as the run without changes does.
    pub fn steps_beside(&self, machine: &mut Machine, from: u64) -> Result<Option<u64>, AllocError>
        requires { from ≤ self.now.bound }
        ensures { (s : State) → IsOn s from machine.old.state → IfOk result (TellsStop s self.now.bound machine.new.state) }
    {
        let at = self
            .start
            .saturating_add(last_step(self.changes))
            .saturating_add(from);
        let mut here = at;
        let mut made = from;
        for number in at / SPACING + 1..self.way.reach() / SPACING + 1 {
            let next = SPACING * number - here;
            if self.bound - made < next {
                let steps = steps_to_stop(machine, made, self.bound)?;
                return Ok(steps);
            }
            let more = machine.run_made(next)?;
            if machine.outcome() != Outcome::Going {
                return Ok(Some(made + more));
            }
            made += next;
            here = SPACING * number;
            if stands_at(self.way, number, machine, self.bound - made) {
                let steps = self.leap_to_stop(number, machine, made)?;
                return Ok(steps);
            }
        }
        let steps = steps_to_stop(machine, made, self.bound)?;
        Ok(steps)
    }
}
