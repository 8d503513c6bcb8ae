//! The count of the items of new code, by its blocks alone: no item is made.
ghost use Rattle.std.specs.Prelude.{◌≡◌, ◌+◌, ◌-◌, ◌^◌, ◌<◌, ◌≤◌, All, length, IfOk};
ghost use Rattle.relinker.specs.Counted.{capped, HasCounted};
ghost use Rattle.weave.specs.Fits.{FitsBlock};
ghost use Rattle.weave.specs.Code.{items_of};
ghost use Rattle.weave.specs.Sizes.{blocks_bytes, rows_of};

use crate::size::{Sizes, block_size, prologue_size, sizes_of};
use block_split::CodeBlock;
use qed_model::{EntryRow, Options, Test};
use relinker::Count;
use std::alloc::{AllocError, Global};

/// Where the marks of blocks stand, the first at `first`, and where the last block ends; at most 2^64 - 1.
#[tactic(auto, using(crate::proofs::RowLaws::rows_none, crate::proofs::RowLaws::rows_all))]
fn rows(
    alloc: Global,
    sizes: &Sizes,
    first: u64,
    blocks: &[CodeBlock],
) -> Result<(Vec<EntryRow>, u64), AllocError>
    requires { sizes.now.go ≤ 8 }
    ensures rows { IfOk result (λ made. first + blocks_bytes sizes.now blocks.now < 2 ^ 64 - 1 → made.0.items ≡ rows_of sizes.now first blocks.now) }
    ensures end { IfOk result (λ made. made.1 ≡ capped (first + blocks_bytes sizes.now blocks.now)) }
{
    let mut rows = Vec::new(alloc);
    let mut at = first;
    for block in blocks {
        rows.push(EntryRow {
            input: block.start,
            output: at,
        })?;
        at = at.saturating_add(block_size(sizes, block));
    }
    Ok((rows, at))
}

/// Counts the items of the new code in one form.
pub(crate) fn counted_by_blocks(
    alloc: Global,
    test: &Test,
    options: &Options,
    far: bool,
    blocks: &[CodeBlock],
) -> Result<Count, AllocError>
    requires visits { options.now.round ≤ 1024 }
    requires ranges { length test.now.span ≤ 67_108_864 }
    requires fit { All FitsBlock blocks.now }
    ensures form { IfOk result (λ count. count.far ≡ far) }
    ensures counted { IfOk result (λ count. HasCounted count (items_of test.now options.now far blocks.now)) }
{
    let sizes = sizes_of(test, options, far);
    let first = prologue_size(test.span.as_slice(), sizes.go);
    let (rows, bytes) = rows(alloc, &sizes, first, blocks)?;
    Ok(Count::of(far, bytes, rows))
}
