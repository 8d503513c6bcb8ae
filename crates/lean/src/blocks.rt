//! Where blocks begin.
ghost use Rattle.std.specs.Prelude.{◌≡◌, ◌<◌, AllPairs, map};
ghost use Rattle.qed_model.specs.Weave.Blocks.{begins_at as begins};
ghost use Rattle.block_split.specs.Listed.{block_of};

use block_split::CodeBlock;

/// Whether one of the blocks, which ascend, begins at an address.
pub(crate) fn begins_at(blocks: &[CodeBlock], address: u64) -> bool
    requires { AllPairs (λ b c. b.start < c.start) blocks.now }
    ensures { result ≡ begins (map block_of blocks.now) address }
{
    let place = blocks.partition_point(|block| block.start < address);
    place < blocks.len() && blocks[place].start == address
}
