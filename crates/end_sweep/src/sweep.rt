//! The sweep over all data words, before the end of a test.
ghost use Rattle.std.specs.Prelude.{◌≡◌, ◌++◌, OnOk, OnErr};
ghost use Rattle.qed_model.specs.Weave.Sequences.{compare, sweep, sweep_range};
ghost use Rattle.passes.specs.Emitted.{AppendsPart};
ghost use Rattle.plc_rounds.specs.Spans.{spans_of};

use eddi_dup::CompareAll;
use passes::{Emit, Pass, plain};
use qed_model::{Item, Range, Ranges};
use rv_isa::profile::{CURSOR, DISTANCE, SPARE, TEMPORARY};
use rv_isa::{Ins, Kind, register};
use std::alloc::AllocError;

/// Compares all data words of the ranges, then all registers, and ends.
#[derive(Drop)]
pub struct Sweep {
    pub span: Ranges,
}

/// Appends the comparisons of the words of one range.
fn put_range(range: Range, out: &mut Emit) -> Result<(), AllocError>
    ensures all { OnOk result (out.new ≡ out.old ++ sweep_range (range.start, range.end)) }
    ensures none { OnErr result (out.new ≡ out.old) }
{
    let zero = register(0);
    let cursor = register(CURSOR);
    let word = register(TEMPORARY);
    let mirror = register(SPARE);
    out.put(&[
        Item::Constant(cursor, range.start),
        plain(Kind::Ld, word, cursor, zero, 0),
        plain(Kind::Add, mirror, cursor, register(DISTANCE), 0),
        plain(Kind::Ld, mirror, mirror, zero, 0),
        plain(Kind::Beq, zero, word, mirror, 8),
        plain(Kind::Ebreak, zero, zero, zero, 0),
        plain(Kind::Addi, cursor, cursor, zero, 8),
        Item::Constant(word, range.end),
        plain(Kind::Bne, zero, cursor, word, -32),
    ])?;
    Ok(())
}

/// Appends the comparisons of the data words of all ranges with their duplicates.
#[tactic(auto, using(passes::specs::Emitted::part_none, passes::specs::Emitted::done_none, passes::specs::Emitted::done_more, passes::specs::Emitted::done_part, passes::specs::Emitted::done_all))]
fn put_sweep(spans: &[Range], out: &mut Emit) -> Result<(), AllocError>
    ensures all { OnOk result (out.new ≡ out.old ++ sweep (spans_of spans.now)) }
    ensures part { OnErr result (AppendsPart out.old out.new (sweep (spans_of spans.now))) }
{
    for range in spans {
        put_range(*range, out)?;
    }
    Ok(())
}

/// Appends the comparisons of the data words of all ranges, and of all registers.
///
/// Errors: want of memory; then a first part is appended.
#[tactic(auto, using(passes::specs::Emitted::part_first, passes::specs::Emitted::part_second))]
pub fn put_checks(spans: &[Range], out: &mut Emit) -> Result<(), AllocError>
    ensures all { OnOk result (out.new ≡ out.old ++ (sweep (spans_of spans.now) ++ compare)) }
    ensures part { OnErr result (AppendsPart out.old out.new (sweep (spans_of spans.now) ++ compare)) }
{
    put_sweep(spans, out)?;
    CompareAll.emit(&Ins::nop(), 0, out)?;
    Ok(())
}

impl Pass for Sweep {
    ghost use Rattle.std.specs.Prelude.{◌≡◌, [], length, true};
    ghost use Rattle.rv_isa.specs.declared.class.Class.TheVariants as class;
    ghost use Rattle.rv_isa.specs.Kind.{class_of};
    ghost use Rattle.qed_model.specs.Weave.Bounds.{end_bound};
    ghost use Rattle.tests.specs.Admission.DataRanges.{word_count};
    ghost use Rattle.plc_rounds.specs.Spans.{spans_of};
    ghost use Rattle.end_sweep.specs.Ending.{swept_end, Sweeps, SweptTo};
    ghost use Rattle.end_sweep.specs.Laws.{any, quiet_sweep, honest_sweep, lockstep_sweep};

    ghost is_for = { λ p i at. class_of i.kind ≡ class.End };

    ghost suits = { λ p. any };

    ghost items = { λ p i at. swept_end (spans_of p.span) i };

    ghost uses = { λ p i. [] };

    ghost cost = { λ p i. end_bound true (length (spans_of p.span)) (word_count (spans_of p.span)) };

    ghost needs = { λ p i at w. Sweeps w (spans_of p.span) };

    ghost gives = { λ p i at w v n z. ⊥ };

    ghost leaves = { λ p i at w. SweptTo w (spans_of p.span) };

    #[tactic(auto, using(passes::specs::Emitted::part_none, passes::specs::Emitted::part_first, passes::specs::Emitted::part_second))]
    fn emit(&self, ins: &Ins, at: u64, out: &mut Emit) -> Result<(), AllocError> {
        put_checks(self.span.as_slice(), out)?;
        out.put(&[Item::Plain(*ins)])?;
        Ok(())
    }

    ghost quiet = { λ p i at f. quiet_sweep (spans_of p.span) i f };

    ghost honest = { λ p i at f. honest_sweep (spans_of p.span) i f };

    ghost lockstep = { λ p i at f. lockstep_sweep (spans_of p.span) i f };
}
