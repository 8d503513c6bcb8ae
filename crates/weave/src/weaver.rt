//! The passes of new code, in one form.
ghost use Rattle.std.specs.Prelude.{◌≡◌};
ghost use Rattle.std.specs.Option.{ForSome};
ghost use Rattle.plc_rounds.specs.Spans.{spans_of};

use crate::each::{last_of, weave_halves};
use crate::leave::end_address;
use crate::{PartSink, Piece, Weaving};
use block_split::CodeBlock;
use end_sweep::Sweep;
use flow_tracking::Entry;
use passes::{Pass, PassAll};
use qed_model::{Bounds, Limit, Role, Shape};
use relinker::ItemSink;
use rv_isa::Ins;
use std::alloc::AllocError;

/// Makes the parts of new code, all in one form.
#[derive(Drop)]
pub struct Weaver {
    pub(crate) pieces: Piece,
    pub(crate) far: bool,
    pub(crate) sweep: Option<Sweep>,
    ghost same_spans: { ForSome sweep (λ s. spans_of s.span ≡ spans_of pieces.second.second.pass.second.span) },
}

impl Weaving for Weaver {
    ghost use Rattle.qed_model.specs.Weave.Code.{sequences};
    ghost use Rattle.qed_model.specs.Weave.Parts.{parts};
    ghost use Rattle.qed_model.proofs.Lemmas.{parts_are};
    ghost use Rattle.machine.specs.declared.limits.Limit.TheVariants as limits;
    ghost use Rattle.weave.specs.Form.{form, kind};

    ghost limit = { limits.CodeBytes };

    ghost code = { λ w. sequences (form w) };

    ghost parts = { λ w. parts (form w) };

    ghost kind = { λ w. kind w };

    ghost is_for = { λ w b. Unit {0} };

    fn limit() -> Limit {
        Limit::CodeBytes
    }

    fn far(&self) -> bool {
        self.far
    }

    fn table(&self) -> bool {
        false
    }

    fn bounds(&self, shape: &Shape) -> Option<Bounds> {
        bound_calc::bounds(shape)
    }

    fn first<S: ItemSink>(
        &self,
        distance: u64,
        entry: u64,
        to: &mut PartSink<S>,
    ) -> Result<(), AllocError> {
        self.prologue(distance, entry, &mut to.items)?;
        to.end(Role::Start)?;
        Ok(())
    }

    fn enter<S: ItemSink>(
        &self,
        block: &CodeBlock,
        to: &mut PartSink<S>,
    ) -> Result<(), AllocError> {
        Entry.emit(&Ins::nop(), block.start, &mut to.items)?;
        to.end(Role::Entry(block.start))?;
        Ok(())
    }

    fn piece<S: ItemSink>(
        &self,
        list: &[Ins],
        at: u64,
        to: &mut PartSink<S>,
    ) -> Result<(), AllocError> {
        weave_halves(&self.pieces.second.first.pass, list, at, to)?;
        self.pieces.second.second.emit_all(list, at, &mut to.items)?;
        to.end(Role::Visit(at, last_of(list, at)))?;
        Ok(())
    }

    fn leave<S: ItemSink>(
        &self,
        block: &CodeBlock,
        to: &mut PartSink<S>,
    ) -> Result<(), AllocError> {
        let at = end_address(block);
        self.before_end(&block.end, to)?;
        self.leave_at(&block.end, at, &mut to.items)?;
        to.end(Role::Leave(at))?;
        Ok(())
    }

    ghost whole = { λ w. parts_are (form w) };
}
