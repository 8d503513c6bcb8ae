//! The leave of a block.
ghost use Rattle.std.specs.Prelude.{◌≡◌, ◌+◌, ◌*◌, ◌++◌, OnOk, length};
ghost use Rattle.rv_isa.specs.Kind.{class_of};
ghost use Rattle.qed_model.specs.Weave.Sequences.{before_end};
ghost use Rattle.weave.specs.Fits.{FitsBlock, FitsEnd, FitsLeave};
ghost use Rattle.weave.specs.Form.{form};
ghost use Rattle.weave.specs.Handed.{Comes, Handed};
ghost use Rattle.weave.specs.Leaves.{before_parts, last_as, last_items, is_ecall_end as ends};

use crate::{PartSink, Weaver};
use block_split::CodeBlock;
use end_sweep::put_checks;
use flow_tracking::Leave;
use passes::{Emit, Pass};
use qed_model::Role;
use relinker::ItemSink;
use rv_isa::{Class, Ins};
use std::alloc::AllocError;

/// Whether an end of a block is an ECALL.
pub fn is_end(end: &Option<Ins>) -> bool
    ensures { result ≡ ends end.now }
{
    match end {
        Some(ins) => ins.class() == Class::End,
        None => false,
    }
}

/// The input address of a block's end, or to which the block falls through.
pub fn end_address(block: &CodeBlock) -> u64
    requires { FitsBlock block.now }
    ensures { result ≡ block.now.start + 4 * length block.now.body }
{
    block.start + 4 * block.body.as_slice().len() as u64
}

impl Weaver {
    /// Appends the comparisons of the sweep, if it is asked for.
    fn put_swept(&self, out: &mut Emit) -> Result<(), AllocError>
        ensures { OnOk result (out.new ≡ out.old ++ before_end (form self.now)) }
    {
        if let Some(sweep) = &self.sweep {
            put_checks(sweep.span.as_slice(), out)?;
        }
        Ok(())
    }

    /// Hands on what stands before an ECALL that ends a block.
    pub(crate) fn before_end<S: ItemSink>(
        &self,
        end: &Option<Ins>,
        to: &mut PartSink<S>,
    ) -> Result<(), AllocError>
        requires { Comes (S.took to.old.sink) to.old.items (before_parts (form self.now) end.now) }
        ensures { OnOk result (Handed (S.took to.old.sink) (S.took to.new.sink) to.new.items (before_parts (form self.now) end.now)) }
    {
        if is_end(end) {
            self.put_swept(&mut to.items)?;
            to.end(Role::Sweep)?;
        }
        Ok(())
    }

    /// Appends the leave of an instruction that ends a block.
    fn stop(&self, ins: &Ins, at: u64, out: &mut Emit) -> Result<(), AllocError>
        requires { FitsLeave (class_of ins.now.kind) ins.now }
        ensures { OnOk result (out.new ≡ out.old ++ last_as (form self.now) (class_of ins.now.kind) ins.now at) }
    {
        let leave = Leave {
            next: at.wrapping_add(4),
            far: self.far,
        };
        leave.emit(ins, at, out)?;
        Ok(())
    }

    /// Appends the leave of a block whose end stands at an input address, or which falls through to
    /// it, without what stands before an ECALL.
    pub(crate) fn leave_at(
        &self,
        end: &Option<Ins>,
        at: u64,
        out: &mut Emit,
    ) -> Result<(), AllocError>
        requires { FitsEnd end.now }
        ensures { OnOk result (out.new ≡ out.old ++ last_items (form self.now) end.now at) }
    {
        match end {
            None => self.go_on(at, out)?,
            Some(ins) => self.stop(ins, at, out)?,
        }
        Ok(())
    }
}
