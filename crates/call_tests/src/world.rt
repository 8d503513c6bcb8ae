//! A hart and the memory are struck; no program does this.
ghost use Rattle.std.specs.Prelude.{◌≡◌, ◌<◌, ◌^◌, IfOk};
ghost use Rattle.machine.specs.Loading.{load_segments};
ghost use Rattle.machine.specs.Apart.{AllFitMemory, AreApart};

use elf_types::{Bytes, ElfFile, Listed, Segment};
use harts::World;
use qed_model::Place;
use rv_isa::Reg;
use std::alloc::{AllocError, Global};
use std::test::Fail;

/// A file of eight bytes of memory.
fn file(alloc: Global, address: u64) -> Result<ElfFile, AllocError>
    requires { address < 2 ^ 32 }
    ensures fit { IfOk result (λ f. AllFitMemory (load_segments f.segments)) }
    ensures apart { IfOk result (λ f. AreApart (load_segments f.segments)) }
{
    let word = Segment {
        kind: 1,
        flags: 6,
        address,
        memory: 8,
        bytes: Bytes::of(Vec::new(alloc)),
    };
    Ok(ElfFile {
        entry: address,
        flags: 0,
        segments: Listed::of(Vec::from_array(alloc, [word])?),
        sections: Listed::of(Vec::new(alloc)),
        symbols: Listed::of(Vec::new(alloc)),
        relas: Listed::of(Vec::new(alloc)),
    })
}

#[test]
fn one_hart_is_struck(rt: HostRuntime) -> Result<(), Fail> {
    let alloc = rt.alloc();
    let files = [file(alloc, 0x10000)?, file(alloc, 0x20000)?];
    let mut world = World::start(alloc, &files)?;
    let x9 = Reg::new(9).ok_or("a register")?;
    world.strike(1, &Place::Reg(x9), 3)?;
    world.strike(0, &Place::Word(0x20000), 5)?;
    assert!(rt; world.reg(0, x9) == 0 && world.reg(1, x9) == 3);
    assert!(rt; world.byte(0x10000) == Some(0) && world.byte(0x20000) == Some(5));
    Ok(())
}
