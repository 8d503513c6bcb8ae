//! Where the steps of a run have their instructions from.
ghost use Rattle.std.specs.Prelude.{◌≡◌, true, IfOk, IfErr};
ghost use Rattle.machine.specs.Step.{step};
ghost use Rattle.rv_step.specs.Harts.{with_memory, LeadsIn};
ghost use Rattle.rv_step.specs.Known.{does_step};

use crate::hart::Hart;
use crate::table::Table;
use crate::window::Window;
use mem_image::Image;
use std::alloc::AllocError;

/// What a run has kept of the code, and its steps by that.
pub(crate) trait Source {
    ghost use Rattle.machine.specs.Step.{State};

    // What is kept stands in a state.
    ghost stands: { State → Self → Type 0 };

    /// The step of a hart that goes on, and whether the hart surely goes on. It is not counted here.
    fn take_step(&mut self, hart: &mut Hart, image: &mut Image) -> Result<bool, AllocError>
        requires goes { does_step hart.old.outcome ≡ true }
        requires stands { stands (with_memory hart.old image.old).state self.old }
        ensures step { IfOk result (λ _. LeadsIn step hart.old image.old hart.new image.new) }
        ensures stands { IfOk result (λ _. stands (with_memory hart.new image.new).state self.new) }
        ensures on { IfOk result (λ on. on ≡ true → does_step hart.new.outcome ≡ true) }
        ensures kept { IfErr result (λ _. hart.new ≡ hart.old) }
        ensures memory { IfErr result (λ _. image.new ≡ image.old) };
}

/// A window on the code, or a new one where `more` steps may follow.
#[derive(Drop)]
pub(crate) struct Words {
    pub(crate) window: Window,
    pub(crate) more: bool,
}

impl Source for Words {
    ghost use Rattle.rv_step.specs.Windows.{IsWindow};

    ghost stands = { λ s w. IsWindow s w.window };

    #[tactic(auto, unfolding(machine::specs::Step::step))]
    #[inline(always)]
    fn take_step(&mut self, hart: &mut Hart, image: &mut Image) -> Result<bool, AllocError> {
        let word = hart.word_in(image, &mut self.window, self.more);
        let on = hart.advance::<0>(word, image)?;
        Ok(on)
    }
}

/// A table of instructions, and a window for those that it does not have.
#[derive(Drop)]
pub(crate) struct Instructions {
    pub(crate) window: Window,
    pub(crate) table: Table,
}

impl Source for Instructions {
    ghost use Rattle.rv_step.specs.Windows.{IsKnown};

    ghost stands = { λ s k. IsKnown s k.window k.table };

    #[tactic(auto, unfolding(machine::specs::Step::step))]
    #[inline(always)]
    fn take_step(&mut self, hart: &mut Hart, image: &mut Image) -> Result<bool, AllocError> {
        let Some(ins) = self.table.at(hart.pc()) else {
            let on = hart.step_new(image, &mut self.window, &mut self.table)?;
            return Ok(on);
        };
        let on = hart.execute::<2>(ins, image)?;
        Ok(on)
    }
}
