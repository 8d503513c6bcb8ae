//! Words of jumps and constants, against the manual's encodings.

use passes::Emit;
use qed_model::Item;
use relinker::link;
use rv_isa::profile::TEMPORARY;
use rv_isa::register;
use std::test::Fail;

/// `auipc x30,-12288; addi x30,x30,-120` at 0x13078, which set x30 to 0x10000; `j .-8` to the mark,
/// `j .+4` to the stub, and the stub.
const NEAR: [u32; 5] = [0xffff_df17, 0xf88f_0f13, 0xff9f_f06f, 0x0040_006f, 0];

/// As `NEAR`, with `auipc x30,0; jalr x0,-8(x30)` and `auipc x30,0; jalr x0,8(x30)`.
const FAR: [u32; 7] = [
    0xffff_df17,
    0xf88f_0f13,
    0x0000_0f17,
    0xff8f_0067,
    0x0000_0f17,
    0x008f_0067,
    0,
];

#[test]
fn jumps_near_and_far(rt: HostRuntime) -> Result<(), Fail> {
    let alloc = rt.alloc();
    let mut items = Emit::new(alloc);
    items.put(&[
        Item::Mark(0x10000),
        Item::Constant(register(TEMPORARY), 0x10000),
        Item::Go(0x10000),
        Item::Go(0x10004),
    ])?;
    let near = link(alloc, &items, 0x13078, false)?;
    assert_eq!(rt; near.words.as_slice(), NEAR.as_slice());
    let far = link(alloc, &items, 0x13078, true)?;
    assert_eq!(rt; far.words.as_slice(), FAR.as_slice());
    assert_eq!(rt;
        (far.entries[0].input, far.entries[0].output),
        (0x10000, 0x13078)
    );
    Ok(())
}
