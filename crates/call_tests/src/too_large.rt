//! Code past the limit of its form.
ghost use Rattle.std.specs.Prelude.{◌≡◌, ◌*◌, Bool, IfOk};
ghost use Rattle.qed_model.specs.Weave.Placed.{sum_of_sizes};

use passes::Emit;
use qed_model::Item;
use relinker::{LinkError, link};
use rv_isa::register;
use std::alloc::{AllocError, Global};
use std::test::Fail;

/// `count` constants, of 8 bytes each.
fn constants(alloc: Global, count: u32) -> Result<Emit, AllocError>
    ensures { IfOk result (λ items. (far : Bool) → sum_of_sizes far items ≡ 8 * count) }
{
    let mut items = Emit::new(alloc);
    for _ in 0..count {
        items.push(Item::Constant(register(1), 0))?;
    }
    Ok(items)
}

#[test]
fn too_large_near(rt: HostRuntime) -> Result<(), Fail> {
    let alloc = rt.alloc();
    let items = constants(alloc, 131_072)?;
    let error = link(alloc, &items, 0x13078, false).err();
    assert!(rt; error == Some(LinkError::TooLarge(1_048_580)));
    Ok(())
}

#[test]
fn too_large_far(rt: HostRuntime) -> Result<(), Fail> {
    let alloc = rt.alloc();
    let items = constants(alloc, 8_388_608)?;
    let error = link(alloc, &items, 0x13078, true).err();
    assert!(rt; error == Some(LinkError::TooLarge(67_108_868)));
    Ok(())
}
