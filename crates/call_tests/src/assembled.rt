//! A text that is assembled alone, without the numbers of its words; no program does this.

use rv_asm::assemble;
use std::test::Fail;

/// The file of one code word has as many bytes as `reference/qed asm` writes.
#[test]
fn one_word(rt: HostRuntime) -> Result<(), Fail> {
    let size = assemble(rt.alloc(), b"ecall")?.as_slice().len();
    assert!(rt; size == 4488);
    Ok(())
}
