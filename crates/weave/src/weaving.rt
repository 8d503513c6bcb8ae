//! What makes the parts of new code.
ghost use Rattle.std.specs.Prelude.{◌≡◌, ◌+◌, ◌*◌, ◌^◌, ◌<◌, ◌≤◌, OnOk, length};
ghost use Rattle.std.specs.Option.{SomeIff};
ghost use Rattle.bound_calc.specs.Fitting.{AreSmall};
ghost use Rattle.weave_core.specs.Blocks.{AllFit};
ghost use Rattle.block_split.specs.Listed.{end_of};
ghost use Rattle.weave.specs.Fits.{FitsBlock};
ghost use Rattle.weave.specs.Handed.{Comes, Handed};

use crate::PartSink;
use block_split::CodeBlock;
use qed_model::{Bounds, Limit, Shape};
use relinker::ItemSink;
use rv_isa::Ins;
use std::alloc::AllocError;

/// Makes the parts of new code, and hands each on with its role.
///
/// Errors: want of memory; what is handed on then is left open.
pub trait Weaving {
    ghost use Rattle.machine.specs.declared.limits.Limit.{Limit};
    ghost use Rattle.qed_model.specs.Weave.Code.{Sequences};
    ghost use Rattle.qed_model.specs.Weave.Parts.{Parts, ArePartsOf};
    ghost use Rattle.block_split.specs.declared.block.CodeBlock.{CodeBlock};
    ghost use Rattle.weave.specs.Kind.{CodeKind};

    // The limit on the bytes of the code.
    ghost limit: { Limit };

    // The sequences that it makes.
    ghost code: { Self → Sequences };

    // The parts of these sequences.
    ghost parts: { Self → Parts };

    // What its code has besides items.
    ghost kind: { Self → CodeKind };

    // The blocks that it accepts, among those that fit.
    ghost is_for: { Self → CodeBlock → Type 0 };

    /// The limit on the bytes of the code.
    fn limit() -> Limit
        ensures { result ≡ limit };

    /// Whether it makes far code.
    fn far(&self) -> bool
        ensures { result ≡ (kind self.now).far };

    /// Whether the output has a table even if no block ends with a JALR.
    fn table(&self) -> bool
        ensures { result ≡ (kind self.now).table };

    /// The bounds of the output, in steps. None exactly if one of them is 2^64 or above.
    fn bounds(&self, shape: &Shape) -> Option<Bounds>
        requires { 1 ≤ shape.now.round }
        ensures { SomeIff result (AreSmall ((kind self.now).bounds shape.now)) ((kind self.now).bounds shape.now) };

    /// Hands on what runs first; `distance` is between the halves, `entry` the input address of the test's entry.
    fn first<S: ItemSink>(
        &self,
        distance: u64,
        entry: u64,
        to: &mut PartSink<S>,
    ) -> Result<(), AllocError>
        requires half { distance < 2 ^ 63 }
        requires come { Comes (S.took to.old.sink) to.old.items ((parts self.now).first distance entry) }
        ensures { OnOk result (Handed (S.took to.old.sink) (S.took to.new.sink) to.new.items ((parts self.now).first distance entry)) };

    /// Hands on the mark of a block and what begins its entry.
    fn enter<S: ItemSink>(&self, block: &CodeBlock, to: &mut PartSink<S>) -> Result<(), AllocError>
        requires fits { FitsBlock block.now }
        requires own { is_for self.now block.now }
        requires come { Comes (S.took to.old.sink) to.old.items ((parts self.now).enter block.now.start) }
        ensures { OnOk result (Handed (S.took to.old.sink) (S.took to.new.sink) to.new.items ((parts self.now).enter block.now.start)) };

    /// Hands on a piece whose first instruction stands at an input address.
    fn piece<S: ItemSink>(
        &self,
        list: &[Ins],
        at: u64,
        to: &mut PartSink<S>,
    ) -> Result<(), AllocError>
        requires fits { AllFit list.now }
        requires low { at + 4 * length list.now < 2 ^ 64 }
        requires come { Comes (S.took to.old.sink) to.old.items ((parts self.now).piece list.now at) }
        ensures { OnOk result (Handed (S.took to.old.sink) (S.took to.new.sink) to.new.items ((parts self.now).piece list.now at)) };

    /// Hands on the leave of a block.
    fn leave<S: ItemSink>(&self, block: &CodeBlock, to: &mut PartSink<S>) -> Result<(), AllocError>
        requires fits { FitsBlock block.now }
        requires own { is_for self.now block.now }
        requires come { Comes (S.took to.old.sink) to.old.items ((parts self.now).leave (end_of block.now.end) (block.now.start + 4 * length block.now.body)) }
        ensures { OnOk result (Handed (S.took to.old.sink) (S.took to.new.sink) to.new.items
            ((parts self.now).leave (end_of block.now.end) (block.now.start + 4 * length block.now.body))) };

    // Each item of the sequences is in one part.
    ghost whole: { (w : Self) → ArePartsOf (code w) (parts w) };
}
