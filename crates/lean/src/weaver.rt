//! What makes the parts of the lean form of a test.
ghost use Rattle.std.specs.Prelude.{◌≡◌, ◌+◌, ◌^◌, ◌<◌, ◌≤◌, ◌++◌, [], ℕ, AllPairs, OnOk, cond};
ghost use Rattle.machine.specs.Offsets.{distance_between as distance_of};
ghost use Rattle.qed_model.specs.Weave.Lean.{first_word as first_word_of, tick, call_at as call_place};
ghost use Rattle.qed_model.specs.Weave.Placed.{EntriesAscend, leads_to};
ghost use Rattle.plc_rounds.specs.Spans.{spans_of};
ghost use Rattle.lean.specs.Counts.{ticks_in, most_in};

use crate::begin::put_begin;
use crate::check::{first_word, put_done, put_front, put_look_ups};
use crate::counts::{Counts, counted_at};
use crate::piece::weave_piece;
use crate::tick::{call_at, put_mark, put_tick};
use block_split::CodeBlock;
use bound_calc::lean_bounds;
use passes::{Emit, Pass};
use plc_rounds::Visit;
use qed_model::{Bounds, EntryRow, Limit, Role, Shape};
use relinker::{ItemSink, distance_between, place_of};
use rv_isa::Ins;
use std::alloc::AllocError;
use weave::{PartSink, Weaving, end_address};

/// Makes the parts of the lean form of a test with these blocks.
#[derive(Drop)]
pub struct LeanWeaver<'a> {
    /// Mirror parts are of other kinds.
    pub(crate) diverse: bool,
    pub(crate) visits: Visit,
    pub(crate) sweeps: bool,
    /// Each entry tests the signature.
    pub(crate) land: bool,
    /// Where the input begins.
    pub(crate) base: u64,
    /// The distance of the halves.
    pub(crate) distance: u64,
    /// The most steps from check to check.
    pub(crate) every: u64,
    /// Where the check stands.
    pub(crate) check: u64,
    pub(crate) blocks: &'a [CodeBlock],
    /// Where the entries stand, if known: from the entry of a block its tick calls the check.
    pub(crate) entries: Vec<EntryRow>,
    /// Where others are.
    pub(crate) last: u64,
    /// Which blocks have a tick, and how many steps it counts.
    pub(crate) counts: Counts,
    ghost ascend: { AllPairs (λ b c. b.start < c.start) blocks.now },
    ghost rows: { EntriesAscend entries.items },
    ghost low: { (a : ℕ) → leads_to entries.items last a + 32 < 2 ^ 64 },
    ghost half: { distance < 2 ^ 63 },
    ghost few: { every ≤ 2047 },
    ghost short: { (a : ℕ) → most_in counts a < 2 ^ 63 },
}

impl<'a> LeanWeaver<'a> {
    /// Where the entry of an input address stands.
    fn entry(&self, address: u64) -> u64
        ensures { result ≡ leads_to self.now.entries.items self.now.last address }
    {
        place_of(&self.entries, address).unwrap_or(self.last)
    }

    /// The address of the first data word, or where there is none the begin of the input.
    fn first_word(&self) -> u64
        ensures { result ≡ first_word_of self.now.base (spans_of self.now.visits.span) }
    {
        first_word(self.base, self.visits.span.as_slice())
    }

    /// Appends the tick of the block that begins at an address, where it has one.
    fn put_tick_of(&self, start: u64, out: &mut Emit) -> Result<(), AllocError>
        ensures { OnOk result (out.new ≡ out.old ++ cond (ticks_in self.now.counts start)
            (tick self.now.land start (most_in self.now.counts start)
            (distance_of (leads_to self.now.entries.items self.now.last start + call_place self.now.land) self.now.check)) []) }
    {
        let counted = counted_at(&self.counts, start);
        if counted.ticks {
            let call = self.entry(start) + call_at(self.land);
            let distance = distance_between(call, self.check);
            put_tick(self.land, start, counted.most, distance, out)?;
        }
        Ok(())
    }
}

impl<'a> Weaving for LeanWeaver<'a> {
    ghost use Rattle.std.specs.Prelude.{◌≡◌};
    ghost use Rattle.machine.specs.declared.limits.Limit.TheVariants as limits;
    ghost use Rattle.qed_model.proofs.Lemmas.{lean_are};
    ghost use Rattle.qed_model.specs.Weave.Blocks.{begins_at};
    ghost use Rattle.qed_model.specs.Weave.Placed.{leads_to};
    ghost use Rattle.lean.specs.Form.{lean_code_of, lean_parts_of, lean_form, lean_kind, lean_of_weaver, blocks_in, IsOwn};

    ghost limit = { limits.LeanBytes };

    ghost code = { λ w. lean_code_of w };

    ghost parts = { λ w. lean_parts_of w };

    ghost kind = { λ w. lean_kind w };

    ghost is_for = { λ w b. IsOwn w b };

    fn limit() -> Limit
        ensures { result ≡ limits.LeanBytes }
    {
        Limit::LeanBytes
    }

    fn far(&self) -> bool {
        false
    }

    fn table(&self) -> bool {
        true
    }

    fn bounds(&self, shape: &Shape) -> Option<Bounds> {
        lean_bounds(shape, self.every)
    }

    fn first<S: ItemSink>(
        &self,
        distance: u64,
        entry: u64,
        to: &mut PartSink<S>,
    ) -> Result<(), AllocError> {
        put_begin(distance, entry, &mut to.items)?;
        to.end(Role::Start)?;
        let first = self.first_word();
        put_front(distance, first, &mut to.items)?;
        to.end(Role::Check)?;
        self.visits.emit(&Ins::nop(), 0, &mut to.items)?;
        to.end(Role::CheckVisit)?;
        put_done(first, self.every, &mut to.items)?;
        to.end(Role::Check)?;
        put_look_ups(distance, &mut to.items)?;
        to.end(Role::LookUp)?;
        Ok(())
    }

    fn enter<S: ItemSink>(
        &self,
        block: &CodeBlock,
        to: &mut PartSink<S>,
    ) -> Result<(), AllocError> {
        put_mark(self.land, block.start, &mut to.items)?;
        to.end(Role::Sign(block.start))?;
        self.put_tick_of(block.start, &mut to.items)?;
        to.end(Role::Tick(block.start))?;
        Ok(())
    }

    fn piece<S: ItemSink>(
        &self,
        list: &[Ins],
        at: u64,
        to: &mut PartSink<S>,
    ) -> Result<(), AllocError> {
        weave_piece(self.diverse, list, at, to)
    }

    fn leave<S: ItemSink>(
        &self,
        block: &CodeBlock,
        to: &mut PartSink<S>,
    ) -> Result<(), AllocError> {
        let at = end_address(block);
        self.before_end(&block.end, block.start, at, to)?;
        self.put_leave(&block.end, block.start, at, &mut to.items)?;
        to.end(Role::Leave(at))?;
        Ok(())
    }

    ghost whole = { λ w. lean_are (lean_form w) w.base (leads_to w.entries.items w.last) (lean_of_weaver w) (begins_at (blocks_in w)) };
}
