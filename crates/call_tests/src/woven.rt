//! Pieces that are woven whole; no program does this.

use elf_types::Listed;
use std::test::Fail;
use weave::{piece, woven_piece};

/// A piece of no instruction that visits no word is the comparison of 13 registers.
#[test]
fn empty_pieces(rt: HostRuntime) -> Result<(), Fail> {
    let alloc = rt.alloc();
    for diverse in [false, true] {
        let passes = piece(diverse, 1, Listed::of(Vec::new(alloc)));
        assert!(rt; woven_piece(alloc, &passes, &[], 0)?.items().len() == 26);
    }
    Ok(())
}
