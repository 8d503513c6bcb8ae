//! The plan of an output.
ghost use Rattle.std.specs.Prelude.{◌≡◌, ◌+◌, ◌-◌, ◌*◌, ◌/◌, ◌^◌, ◌<◌, ◌++◌, All, IfOk, OnOk, map};
ghost use Rattle.elf_types.specs.declared.file.ElfFile.{ElfFile};
ghost use Rattle.tests.specs.declared.options.Options.{Options};
ghost use Rattle.tests.specs.Admission.DataRanges.{range_of, word_count as word_count_of};
ghost use Rattle.qed_model.specs.Weave.OutputFile.{rows_of_pieces, piece_rows as piece_rows_of};
ghost use Rattle.qed_model.specs.Weave.Woven.{NewCode, IsPlanOf};
ghost use Rattle.block_split.specs.Listed.{block_of};
ghost use Rattle.tests.specs.Ranges.{AreSpaced};
ghost use Rattle.output_file.specs.Plans.{IsWhole, AreParts};

use crate::output::Code;
use block_split::CodeBlock;
use elf_types::Listed;
use qed_model::{Bounds, PieceRow, Plan, Range, Test};
use std::alloc::{AllocError, Global};

/// How many data words a range has.
fn words_in(range: Range) -> u64
    ensures value { result ≡ (range.end - range.start) / 8 }
    ensures range { range.end < 2 ^ 64 }
{
    range.end.saturating_sub(range.start) / 8
}

/// How many data words some ranges have.
#[tactic(auto, using(crate::proofs::Counting::counted_none, crate::proofs::Counting::counted_more, crate::proofs::Counting::counted_all))]
pub fn word_count(ranges: &[Range]) -> u64
    ensures { AreSpaced range_of ranges.now → result ≡ word_count_of (map range_of ranges.now) }
{
    let mut count: u64 = 0;
    for range in ranges {
        count = count.wrapping_add(words_in(*range));
    }
    count
}

/// The address behind `count` instructions. Addresses wrap at 2^64.
fn behind(address: u64, count: u64) -> u64
    ensures { address + 4 * count < 2 ^ 64 → result ≡ address + 4 * count }
{
    address.wrapping_add(count.wrapping_mul(4))
}

/// Appends the pieces of a block.
fn push_pieces(rows: &mut Vec<PieceRow>, block: &CodeBlock) -> Result<(), AllocError>
    ensures { OnOk result (IsWhole block.now → rows.new.items ≡ rows.old.items ++ rows_of_pieces block.now.start block.now.start (block_of block.now).body) }
{
    let mut first = block.start;
    for length in block.lengths.as_slice() {
        rows.push(PieceRow {
            entry: block.start,
            first,
            length: *length,
        })?;
        first = behind(first, *length);
    }
    Ok(())
}

/// The pieces of blocks.
fn piece_rows(alloc: Global, blocks: &[CodeBlock]) -> Result<Vec<PieceRow>, AllocError>
    ensures { IfOk result (λ rows. All IsWhole blocks.now → rows.items ≡ piece_rows_of (map block_of blocks.now)) }
{
    let mut rows = Vec::new(alloc);
    for block in blocks {
        push_pieces(&mut rows, block)?;
    }
    Ok(rows)
}

/// The plan of the output of a test with these blocks, this new code and these bounds.
#[tactic(auto, using(crate::proofs::Counting::test_spaced))]
pub fn plan(
    alloc: Global,
    test: &Test,
    blocks: &[CodeBlock],
    code: &Code<'_>,
    bounds: Bounds,
) -> Result<Plan, AllocError>
    ensures { IfOk result (λ plan. (c : NewCode) (f : ElfFile) (o : Options) → All IsWhole blocks.now
        → AreParts c f o test.now code.now.entries.now code.now.bytes bounds → IsPlanOf c f o (map block_of blocks.now) plan) }
{
    let pieces = piece_rows(alloc, blocks)?;
    Ok(Plan {
        base: test.base,
        distance: test.distance,
        words: word_count(test.span.as_slice()),
        code_bytes: code.bytes,
        entries: Listed::of(Vec::from_slice(alloc, code.entries)?),
        pieces: Listed::of(pieces),
        span: Listed::of(Vec::from_slice(alloc, test.span.as_slice())?),
        bounds,
    })
}
