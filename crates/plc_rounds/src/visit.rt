//! The visits of data words.
ghost use Rattle.std.specs.Prelude.{◌≡◌, ◌++◌, ◌∷◌, OnOk, OnErr};
ghost use Rattle.qed_model.specs.Weave.Sequences.{wraps, visit_word};
ghost use Rattle.passes.specs.Emitted.{AppendsPart};
ghost use Rattle.plc_rounds.specs.Spans.{spans_of, wrap_items};

use passes::{Emit, Pass, plain};
use qed_model::{Item, Range, Ranges};
use rv_isa::profile::{CURSOR, DISTANCE, SPARE, TEMPORARY};
use rv_isa::{Ins, Kind, register};
use std::alloc::AllocError;

/// Visits `round` data words of the ranges, from the cursor on. It looks at no instruction.
#[derive(Drop)]
pub struct Visit {
    pub round: u64,
    pub span: Ranges,
}

/// If the cursor is at `end`, it goes on at `next`.
fn put_wrap(end: u64, next: u64, out: &mut Emit) -> Result<(), AllocError>
    ensures all { OnOk result (out.new ≡ out.old ++ wrap_items end next) }
    ensures none { OnErr result (out.new ≡ out.old) }
{
    out.put(&[
        Item::Constant(register(TEMPORARY), end),
        plain(
            Kind::Bne,
            register(0),
            register(CURSOR),
            register(TEMPORARY),
            12,
        ),
        Item::Constant(register(CURSOR), next),
    ])?;
    Ok(())
}

/// Appends the words behind a visit that move the cursor past the end of each range.
#[tactic(auto, using(passes::specs::Emitted::part_none, passes::specs::Emitted::done_none, passes::specs::Emitted::done_more, passes::specs::Emitted::done_part, passes::specs::Emitted::done_all, crate::specs::Laws::done_last))]
fn put_wraps(range: Range, more: &[Range], first: u64, out: &mut Emit) -> Result<(), AllocError>
    ensures all { OnOk result (out.new ≡ out.old ++ wraps (spans_of (range ∷ more.now)) first) }
    ensures part { OnErr result (AppendsPart out.old out.new (wraps (spans_of (range ∷ more.now)) first)) }
{
    let mut last = range;
    for next in more {
        put_wrap(last.end, next.start, out)?;
        last = *next;
    }
    put_wrap(last.end, first, out)?;
    Ok(())
}

/// Appends the words of one visit.
#[tactic(auto, using(passes::specs::Emitted::part_none, passes::specs::Emitted::part_first, passes::specs::Emitted::part_second, crate::specs::Laws::head_tail))]
fn put_word(spans: &[Range], out: &mut Emit) -> Result<(), AllocError>
    ensures all { OnOk result (out.new ≡ out.old ++ visit_word (spans_of spans.now)) }
    ensures part { OnErr result (AppendsPart out.old out.new (visit_word (spans_of spans.now))) }
{
    if spans.is_empty() {
        return Ok(());
    }
    let first = spans[0].start;
    let zero = register(0);
    let cursor = register(CURSOR);
    let word = register(TEMPORARY);
    let mirror = register(SPARE);
    out.put(&[
        plain(Kind::Ld, word, cursor, zero, 0),
        plain(Kind::Add, mirror, cursor, register(DISTANCE), 0),
        plain(Kind::Ld, mirror, mirror, zero, 0),
        plain(Kind::Beq, zero, word, mirror, 8),
        plain(Kind::Ebreak, zero, zero, zero, 0),
        plain(Kind::Addi, cursor, cursor, zero, 8),
    ])?;
    put_wraps(spans[0], &spans[1..], first, out)?;
    Ok(())
}

impl Pass for Visit {
    ghost use Rattle.std.specs.Prelude.{◌≡◌, ◌*◌, [], length};
    ghost use Rattle.rv_isa.specs.declared.profile.TheConstants.{CURSOR};
    ghost use Rattle.machine.specs.Step.{reg};
    ghost use Rattle.qed_model.specs.Weave.Sequences.{visit};
    ghost use Rattle.weave_core.specs.World.{IsCursor};
    ghost use Rattle.tests.specs.Admission.DataRanges.{word_count};
    ghost use Rattle.qed_model.specs.Weave.Bounds.{visit_bound};
    ghost use Rattle.plc_rounds.specs.Spans.{spans_of, Rounds};
    ghost use Rattle.plc_rounds.specs.Laws.{any, quiet_visit, honest_visit, lockstep_visit};

    ghost is_for = { λ p i at. Unit {0} };

    ghost suits = { λ p. any };

    ghost items = { λ p i at. visit p.round (spans_of p.span) };

    ghost uses = { λ p i. [] };

    ghost cost = { λ p i. visit_bound (word_count (spans_of p.span)) (length (spans_of p.span)) * p.round };

    ghost needs = { λ p i at w v. (v.original ≡ v.shadow) × (w.form.spans ≡ spans_of p.span) × IsCursor (spans_of p.span) (reg v.now CURSOR) };

    ghost gives = { λ p i at w. Rounds w p.round (spans_of p.span) };

    ghost leaves = { λ p i at w v n z. ⊥ };

    #[tactic(auto, using(passes::specs::Emitted::part_none, passes::specs::Emitted::done_none, passes::specs::Emitted::done_more, passes::specs::Emitted::done_part, passes::specs::Emitted::done_all, crate::specs::Laws::times_left, crate::specs::Laws::times_part, crate::specs::Laws::times_end))]
    fn emit(&self, _ins: &Ins, _at: u64, out: &mut Emit) -> Result<(), AllocError> {
        for _ in 0..self.round {
            put_word(self.span.as_slice(), out)?;
        }
        Ok(())
    }

    ghost quiet = { λ p i at f. quiet_visit p.round (spans_of p.span) };

    ghost honest = { λ p i at f. honest_visit p.round (spans_of p.span) };

    ghost lockstep = { λ p i at f. lockstep_visit p.round (spans_of p.span) };
}
