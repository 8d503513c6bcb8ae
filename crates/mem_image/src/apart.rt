//! Bytes that are set one by one, each in its page.
ghost use Rattle.std.specs.Prelude.{◌≡◌, ℕ, ◌≤◌, ◌^◌, IfOk, IfErr, None};
ghost use Rattle.std.specs.FinMap.{get};
ghost use Rattle.machine.specs.Memory.{Memory, put};
ghost use Rattle.machine.specs.Program.{memory_of};
ghost use Rattle.mem_image.specs.Overlap.{AreImage};

use crate::held::Held;
use crate::places::place;
use std::alloc::AllocError;

/// Sets the bytes of a value from number `from` on at those of `width` addresses that are mapped; those before are set.
/// Each page is kept until the later bytes are set, so that without memory all stays.
pub fn put_from(
    pages: &mut [Held],
    address: u64,
    from: u64,
    width: u64,
    value: u64,
) -> Result<(), AllocError>
    requires sound { AreImage pages.old }
    requires part { from ≤ width }
    requires small { width ≤ 8 }
    ensures sound { AreImage pages.new }
    ensures put { IfOk result (λ _. (m : Memory) → ((q : ℕ) → 2 ^ 64 ≤ q → get m q ≡ None)
        → memory_of pages.old ≡ put m address from value → memory_of pages.new ≡ put m address width value) }
    ensures kept { IfErr result (λ _. pages.new ≡ pages.old) }
{
    if from == width {
        return Ok(());
    }
    let here = address.wrapping_add(from);
    let Some(at) = place(pages, 0, here) else {
        put_from(pages, address, from + 1, width, value)?;
        return Ok(());
    };
    let before = pages[at].copy()?;
    pages[at].put(here, 1, (value >> (8 * from)) & 0xff)?;
    match put_from(pages, address, from + 1, width, value) {
        Ok(()) => Ok(()),
        Err(error) => {
            pages[at] = before;
            Err(error)
        }
    }
}
