//! What takes the items of new code part by part, in order.
ghost use Rattle.std.specs.Prelude.{[], ◌∷◌, OnOk};
ghost use Rattle.relinker.specs.Sink.{ComeNext, Takes};

use passes::Emit;
use qed_model::Role;
use std::alloc::AllocError;

/// Takes the items of new code, one part after another.
pub trait ItemSink {
    ghost use Rattle.std.specs.Prelude.{ℕ, Bool, List};
    ghost use Rattle.qed_model.specs.declared.item.Item.{Item};
    ghost use Rattle.qed_model.specs.declared.role.Role.{Role};

    // These parts of near or far code from an address on were taken, and those are still to come.
    ghost took: { Self → Bool × ℕ → List (Role × List Item) → List (Role × List Item) → Type 0 };

    /// Takes the next items, with their role.
    ///
    /// Errors: want of memory.
    fn take(&mut self, role: Role, items: &Emit) -> Result<(), AllocError>
        requires { ComeNext (took self.old) ((role, items.now) ∷ []) }
        ensures { OnOk result (Takes (took self.old) (took self.new) ((role, items.now) ∷ [])) };
}
