//! The new code, one part after another.
ghost use Rattle.std.specs.Prelude.{◌^◌, ◌<◌, All, IfOk, OnOk, map};
ghost use Rattle.qed_model.specs.Weave.Parts.{pieces_parts, block_parts, entries_parts, parts_to_stub};
ghost use Rattle.qed_model.specs.Weave.Pieces.{divided};
ghost use Rattle.block_split.specs.Listed.{block_of};
ghost use Rattle.relinker.specs.Sink.{ComeNext, Takes};
ghost use Rattle.weave.specs.Fits.{FitsBlock};
ghost use Rattle.weave.specs.Handed.{Comes, Handed};

use crate::{PartSink, Weaving};
use block_split::CodeBlock;
use qed_model::Test;
use relinker::ItemSink;
use std::alloc::{AllocError, Global};

/// Hands on the pieces of a block.
#[tactic(auto, using(crate::proofs::Taking::begun, crate::proofs::Taking::ended))]
fn weave_pieces<W: Weaving, S: ItemSink>(
    weaver: &W,
    block: &CodeBlock,
    to: &mut PartSink<S>,
) -> Result<(), AllocError>
    requires fits { FitsBlock block.now }
    requires come { Comes (S.took to.old.sink) to.old.items (pieces_parts (W.parts weaver.now) (divided block.now.lengths block.now.body) block.now.start) }
    ensures { OnOk result (Handed (S.took to.old.sink) (S.took to.new.sink) to.new.items
        (pieces_parts (W.parts weaver.now) (divided block.now.lengths block.now.body) block.now.start)) }
{
    let mut rest = block.body.as_slice();
    let mut at = block.start;
    for length in block.lengths.as_slice() {
        let (list, more) = rest.split_at(*length as usize);
        weaver.piece(list, at, to)?;
        rest = more;
        at += 4 * *length;
    }
    Ok(())
}

/// Hands on the entry of a block: its mark and what begins it, its pieces and its leave.
fn weave_block<W: Weaving, S: ItemSink>(
    weaver: &W,
    block: &CodeBlock,
    to: &mut PartSink<S>,
) -> Result<(), AllocError>
    requires fits { FitsBlock block.now }
    requires own { W.is_for weaver.now block.now }
    requires come { Comes (S.took to.old.sink) to.old.items (block_parts (W.parts weaver.now) (block_of block.now)) }
    ensures { OnOk result (Handed (S.took to.old.sink) (S.took to.new.sink) to.new.items (block_parts (W.parts weaver.now) (block_of block.now))) }
{
    weaver.enter(block, to)?;
    weave_pieces(weaver, block, to)?;
    weaver.leave(block, to)?;
    Ok(())
}

/// Hands on the entries of the blocks, one after another.
#[tactic(auto, using(crate::proofs::Taking::begun, crate::proofs::Taking::ended))]
fn weave_blocks<W: Weaving, S: ItemSink>(
    weaver: &W,
    blocks: &[CodeBlock],
    to: &mut PartSink<S>,
) -> Result<(), AllocError>
    requires fit { All FitsBlock blocks.now }
    requires own { All (W.is_for weaver.now) blocks.now }
    requires come { Comes (S.took to.old.sink) to.old.items (entries_parts (W.parts weaver.now) (map block_of blocks.now)) }
    ensures { OnOk result (Handed (S.took to.old.sink) (S.took to.new.sink) to.new.items (entries_parts (W.parts weaver.now) (map block_of blocks.now))) }
{
    for block in blocks {
        weave_block(weaver, block, to)?;
    }
    Ok(())
}

/// Makes the new code of a test with these blocks, except the stub behind it, and hands it on part
/// by part. It takes time per item, and memory for one part at a time.
///
/// Errors: want of memory.
pub fn weave<W: Weaving, S: ItemSink + Drop>(
    alloc: Global,
    weaver: &W,
    test: &Test,
    blocks: &[CodeBlock],
    sink: S,
) -> Result<S, AllocError>
    requires half { test.now.distance < 2 ^ 63 }
    requires fit { All FitsBlock blocks.now }
    requires own { All (W.is_for weaver.now) blocks.now }
    requires come { ComeNext (S.took sink) (parts_to_stub (W.parts weaver.now) test.now.distance test.now.entry (map block_of blocks.now)) }
    ensures { IfOk result (λ new. Takes (S.took sink) (S.took new)
        (parts_to_stub (W.parts weaver.now) test.now.distance test.now.entry (map block_of blocks.now))) }
{
    let mut to = PartSink::new(alloc, sink);
    weaver.first(test.distance, test.entry, &mut to)?;
    weave_blocks(weaver, blocks, &mut to)?;
    Ok(to.sink)
}
