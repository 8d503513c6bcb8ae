//! A part of new code, which is gathered and then handed on.
ghost use Rattle.std.specs.Prelude.{◌≡◌, [], ◌∷◌, OnOk};
ghost use Rattle.relinker.specs.Sink.{ComeNext};
ghost use Rattle.weave.specs.Handed.{Handed};

use passes::Emit;
use qed_model::Role;
use relinker::ItemSink;
use std::alloc::{AllocError, Global};

/// The items of a part so far, and what takes the parts.
#[derive(Drop)]
pub struct PartSink<S> {
    pub items: Emit,
    pub sink: S,
}

impl<S: ItemSink> PartSink<S> {
    /// No items yet.
    pub fn new(alloc: Global, sink: S) -> PartSink<S>
        ensures sink { result.sink ≡ sink }
        ensures none { result.items ≡ [] }
    {
        PartSink {
            items: Emit::new(alloc),
            sink,
        }
    }

    /// Ends a part: hands on its items, with their role.
    ///
    /// Errors: want of memory.
    pub fn end(&mut self, role: Role) -> Result<(), AllocError>
        requires { ComeNext (S.took self.old.sink) ((role, self.old.items) ∷ []) }
        ensures { OnOk result (Handed (S.took self.old.sink) (S.took self.new.sink) self.new.items ((role, self.old.items) ∷ [])) }
    {
        self.sink.take(role, &self.items)?;
        self.items.clear();
        Ok(())
    }
}
