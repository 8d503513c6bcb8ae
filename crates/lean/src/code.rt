//! The words of the lean form.
ghost use Rattle.std.specs.Prelude.{◌≡◌, ◌+◌, ◌^◌, ◌<◌, ℕ, IfOk, IfErr, map};
ghost use Rattle.elf_types.specs.declared.file.ElfFile.{ElfFile};
ghost use Rattle.block_split.specs.Listed.{block_of};
ghost use Rattle.qed_model.specs.Weave.Placed.{EntriesAscend, leads_to};
ghost use Rattle.qed_model.specs.Weave.Woven.{lean};
ghost use Rattle.weave.specs.Code.{IsWoven, HasCodeCause};
ghost use Rattle.lean.specs.Code.{code_with, test_parts_with, IsLeanCut};
ghost use Rattle.lean.specs.Form.{code_at, lean_code_of, parts_at, lean_parts_of, lean_kind, IsOwn};

use crate::begin::BEGIN_BYTES;
use crate::counts::counts_of;
use crate::weaver::LeanWeaver;
use block_split::CodeBlock;
use plc_rounds::Visit;
use qed_model::{EntryRow, Options, Test};
use relinker::{LinkError, lay};
use std::alloc::{AllocError, Global};
use weave::{Woven, copied, counted, written};

/// What makes the parts of a test's lean form, before it is known where its entries stand.
fn weaver<'a>(
    alloc: Global,
    test: &Test,
    options: &Options,
    every: u64,
    blocks: &'a [CodeBlock],
) -> Result<LeanWeaver<'a>, AllocError>
    requires { (f : ElfFile) × IsLeanCut f options.now every test.now blocks.now }
    ensures code { IfOk result (λ w. code_at w ≡ code_with test.now options.now every (map block_of blocks.now)) }
    ensures parts { IfOk result (λ w. parts_at w ≡ test_parts_with test.now options.now every (map block_of blocks.now)) }
    ensures blocks { IfOk result (λ w. w.blocks.now ≡ blocks.now) }
    ensures every { IfOk result (λ w. w.every ≡ every) }
{
    let counts = counts_of(alloc, test, options, every, blocks)?;
    let span = copied(alloc, &test.span)?;
    Ok(LeanWeaver {
        diverse: options.diverse,
        visits: Visit {
            round: options.round,
            span,
        },
        sweeps: options.sweep,
        land: options.land,
        base: test.base,
        distance: test.distance,
        every,
        check: test.base + 3 * test.distance + BEGIN_BYTES,
        blocks,
        entries: Vec::new(alloc),
        last: 0,
        counts,
    })
}

/// Tells a weaver where the entries stand, and others.
fn place(weaver: &mut LeanWeaver, entries: Vec<EntryRow>, last: u64)
    requires rows { EntriesAscend entries.items }
    requires low { (a : ℕ) → leads_to entries.items last a + 32 < 2 ^ 64 }
    ensures code { lean_code_of weaver.new ≡ code_at weaver.old (leads_to entries.items last) }
    ensures parts { lean_parts_of weaver.new ≡ parts_at weaver.old (leads_to entries.items last) }
    ensures blocks { weaver.new.blocks.now ≡ weaver.old.blocks.now }
    ensures every { weaver.new.every ≡ weaver.old.every }
{
    weaver.entries = entries;
    weaver.last = last;
}

/// The lean form of a test that was admitted, with `every` steps from check to check at most.
///
/// Errors: `TooLarge` exactly where it has more than 1,048,576 bytes: how many; want of memory.
pub fn lean_code<'a>(
    alloc: Global,
    test: &Test,
    options: &Options,
    every: u64,
    blocks: &'a [CodeBlock],
) -> Result<Woven<LeanWeaver<'a>>, LinkError>
    requires { (f : ElfFile) × IsLeanCut f options.now every test.now blocks.now }
    ensures code { IfOk result (λ woven. (f : ElfFile) → IsLeanCut f options.now every test.now blocks.now
        → IsWoven (lean f options.now every (map block_of blocks.now)) f options.now test.now blocks.now
        (lean_kind woven.weaver) (lean_parts_of woven.weaver) (IsOwn woven.weaver) woven.linked) }
    ensures cause { IfErr result (λ e. (f : ElfFile) → IsLeanCut f options.now every test.now blocks.now
        → HasCodeCause (lean f options.now every (map block_of blocks.now)) e) }
{
    let mut weaver = weaver(alloc, test, options, every, blocks)?;
    let count = counted(alloc, &weaver, test, blocks)?;
    let layout = lay(alloc, count, test.base + 3 * test.distance)?;
    let entries = Vec::from_slice(alloc, layout.entries())?;
    place(&mut weaver, entries, layout.last());
    let linked = written(alloc, &weaver, layout, test, blocks)?;
    Ok(Woven { weaver, linked })
}
