//! A run with one word changed; it goes the way of the run without changes until it touches the word.
ghost use Rattle.std.specs.Prelude.{◌≡◌, IfOk};
ghost use Rattle.machine.specs.declared.place.Place.TheVariants.{Word as InWord};
ghost use Rattle.machine.specs.Step.{run};
ghost use Rattle.machine.specs.Struck.{struck};
ghost use Rattle.fault_inject.specs.Touched.{IsTrace};
ghost use Rattle.campaign.specs.Found.{TellsStop};
ghost use Rattle.campaign.specs.Later.{word_changed, one_word as one_word_of};

use crate::snapshots::SPACING;
use crate::strike::Strike;
use qed_model::{Change, Place};
use rv_step::Machine;
use std::alloc::AllocError;

/// The address and the value of a single change of a word at step 0.
pub fn one_word(changes: &[Change]) -> Option<(u64, u64)>
    ensures { result ≡ one_word_of changes.now }
{
    match changes {
        [change] => word_at_once(change),
        _ => None,
    }
}

/// The address and the value of one change.
fn word_at_once(change: &Change) -> Option<(u64, u64)>
    ensures { result ≡ word_changed change.now.place change.now.step change.now.value }
{
    match change.place {
        Place::Word(address) => {
            if change.step != 0 {
                return None;
            }
            Some((address, change.value))
        }
        Place::Reg(_) => None,
    }
}

impl<'a> Strike<'a> {
    /// As `steps_to_stop`, up to the bound, of a machine that stands as the run without changes
    /// does at `start`, but for one word. If enough steps touch no byte of that word, it takes over
    /// that run's state after them.
    pub fn steps_spared(
        &self,
        machine: &mut Machine,
        address: u64,
        value: u64,
    ) -> Result<Option<u64>, AllocError>
        requires trace { IsTrace self.now.way.now.start self.now.trace.now }
        requires there { machine.old.state ≡ struck (InWord address) value (run self.now.way.now.start self.now.start) }
        ensures { IfOk result (TellsStop machine.old.state self.now.bound machine.new.state) }
    {
        let made = self.trace.spared(address, self.start, self.bound);
        if made < SPACING {
            let steps = self.steps_beside(machine, 0)?;
            return Ok(steps);
        }
        *machine = self.way.machine_at(self.alloc, self.start + made)?;
        machine.strike(&Place::Word(address), value)?;
        let steps = self.steps_beside(machine, made)?;
        Ok(steps)
    }
}
