//! The new code, in the near form if that fits, else in the far form.
ghost use Rattle.std.specs.Prelude.{◌≡◌, ◌+◌, ◌*◌, ◌^◌, ◌<◌, ◌≤◌, ℕ, [], All, IfOk, IfErr, length, map};
ghost use Rattle.elf_types.specs.declared.file.ElfFile.{ElfFile};
ghost use Rattle.block_split.specs.Listed.{block_of};
ghost use Rattle.machine.specs.declared.limits.TheConstants.{CODE_ROOM};
ghost use Rattle.qed_model.specs.Weave.Parts.{parts, code_parts, role_rows};
ghost use Rattle.qed_model.specs.Weave.Woven.{compared, is_far_code};
ghost use Rattle.relinker.specs.Counted.{HasCounted};
ghost use Rattle.relinker.specs.Laid.{IsLaid, IsLinked, HasLinkCause};
ghost use Rattle.relinker.specs.Link.{IsWithinForm, LinksWithin};
ghost use Rattle.weave.specs.Fits.{FitsBlock};
ghost use Rattle.weave.specs.Form.{code_to_stub, form, form_with, kind};
ghost use Rattle.plc_rounds.specs.Spans.{spans_of};
ghost use Rattle.weave.specs.Code.{items_of, code_begin, IsCut, IsWoven, HasCodeCause};

use crate::count::counted_by_blocks;
use crate::size::code_size;
use crate::{Weaver, Weaving, weave};
use block_split::CodeBlock;
use qed_model::limits::MAX_NEAR_CODE_BYTES;
use qed_model::{Options, RoleRow, Test};
use relinker::{Count, Layout, LinkError, Linked, Roles, lay};
use std::alloc::{AllocError, Global};

/// Counts the items of new code.
///
/// Errors: want of memory.
pub fn counted<W: Weaving>(
    alloc: Global,
    weaver: &W,
    test: &Test,
    blocks: &[CodeBlock],
) -> Result<Count, AllocError>
    requires half { test.now.distance < 2 ^ 63 }
    requires fit { All FitsBlock blocks.now }
    requires own { All (W.is_for weaver.now) blocks.now }
    ensures form { IfOk result (λ count. count.far ≡ (W.kind weaver.now).far) }
    ensures counted { IfOk result (λ count. HasCounted count (code_to_stub (W.code weaver.now) test.now.distance test.now.entry (map block_of blocks.now))) }
{
    let far = weaver.far();
    let count = weave(alloc, weaver, test, blocks, Count::new(alloc, far))?;
    Ok(count)
}

/// Writes the words of a test's items into their layout.
///
/// Errors: want of memory.
pub fn written<W: Weaving>(
    alloc: Global,
    weaver: &W,
    layout: Layout,
    test: &Test,
    blocks: &[CodeBlock],
) -> Result<Linked, AllocError>
    requires half { test.now.distance < 2 ^ 63 }
    requires fit { All FitsBlock blocks.now }
    requires own { All (W.is_for weaver.now) blocks.now }
    requires laid { IsLaid layout [] (code_to_stub (W.code weaver.now) test.now.distance test.now.entry (map block_of blocks.now)) }
    ensures { IfOk result (IsLinked layout.far layout.base (code_to_stub (W.code weaver.now) test.now.distance test.now.entry (map block_of blocks.now))) }
{
    let layout = weave(alloc, weaver, test, blocks, layout)?;
    Ok(layout.finish())
}

/// The roles of the words of new code: how many bytes have which role, one row behind the other
/// from the first word on.
///
/// Errors: want of memory.
pub fn roles<W: Weaving>(
    alloc: Global,
    weaver: &W,
    test: &Test,
    blocks: &[CodeBlock],
) -> Result<Vec<RoleRow>, AllocError>
    requires half { test.now.distance < 2 ^ 63 }
    requires fit { All FitsBlock blocks.now }
    requires own { All (W.is_for weaver.now) blocks.now }
    ensures { IfOk result (λ rows. rows.items ≡ role_rows (W.kind weaver.now).far
        (code_parts (W.parts weaver.now) test.now.distance test.now.entry (map block_of blocks.now))) }
{
    let far = weaver.far();
    let roles = weave(alloc, weaver, test, blocks, Roles::new(alloc, far))?;
    let rows = roles.finish()?;
    Ok(rows)
}

/// Takes the memory for counted code.
fn laid_out(
    alloc: Global,
    test: &Test,
    options: &Options,
    far: bool,
    blocks: &[CodeBlock],
) -> Result<Layout, LinkError>
    requires room { code_begin test.now + CODE_ROOM ≤ 2 ^ 63 }
    requires visits { options.now.round ≤ 1024 }
    requires ranges { length test.now.span ≤ 67_108_864 }
    requires fit { All FitsBlock blocks.now }
    requires links { LinksWithin far (code_begin test.now) (items_of test.now options.now far blocks.now) }
    ensures form { IfOk result (λ layout. layout.far ≡ far) }
    ensures base { IfOk result (λ layout. layout.base ≡ code_begin test.now) }
    ensures laid { IfOk result (λ layout. IsLaid layout [] (items_of test.now options.now far blocks.now)) }
    ensures fits { IfOk result (λ _. IsWithinForm far (items_of test.now options.now far blocks.now)) }
    ensures cause { IfErr result (HasLinkCause far (items_of test.now options.now far blocks.now)) }
{
    let count = counted_by_blocks(alloc, test, options, far, blocks)?;
    lay(alloc, count, test.base + 3 * test.distance)
}

/// The new code of a test: its words and entries, and its maker.
#[derive(Drop)]
pub struct Woven<W> {
    pub weaver: W,
    pub linked: Linked,
}

/// The code in one form.
fn code_in(
    alloc: Global,
    test: &Test,
    options: &Options,
    blocks: &[CodeBlock],
    far: bool,
) -> Result<Woven<Weaver>, LinkError>
    requires room { code_begin test.now + CODE_ROOM ≤ 2 ^ 63 }
    requires visits { options.now.round ≤ 1024 }
    requires ranges { length test.now.span ≤ 67_108_864 }
    requires fit { All FitsBlock blocks.now }
    requires links { LinksWithin far (code_begin test.now) (items_of test.now options.now far blocks.now) }
    ensures weaver { IfOk result (λ made. form made.weaver ≡ form_with (spans_of test.now.span) options.now far) }
    ensures linked { IfOk result (λ made. IsLinked far (code_begin test.now) (items_of test.now options.now far blocks.now) made.linked) }
    ensures fits { IfOk result (λ _. IsWithinForm far (items_of test.now options.now far blocks.now)) }
    ensures cause { IfErr result (HasLinkCause far (items_of test.now options.now far blocks.now)) }
{
    let layout = laid_out(alloc, test, options, far, blocks)?;
    let weaver = Weaver::new(alloc, &test.span, options, far)?;
    let linked = written(alloc, &weaver, layout, test, blocks)?;
    Ok(Woven { weaver, linked })
}

/// Whether the near form has more bytes than allowed.
fn is_far(test: &Test, options: &Options, blocks: &[CodeBlock]) -> bool
    requires { (f : ElfFile) × IsCut f options.now test.now blocks.now }
    ensures { (f : ElfFile) → IsCut f options.now test.now blocks.now → is_far_code f options.now (map block_of blocks.now) ≡ result }
{
    code_size(test, options, false, blocks) > MAX_NEAR_CODE_BYTES
}

/// The new code of an admitted test, in the near form if that has at most 1,048,576 bytes, else in
/// the far form. The bytes are counted before any item is made.
///
/// Errors: `TooLarge` if the far form is taken and has more than 67,108,864 bytes: their number; want of memory.
pub fn woven_code(
    alloc: Global,
    test: &Test,
    options: &Options,
    blocks: &[CodeBlock],
) -> Result<Woven<Weaver>, LinkError>
    requires { (f : ElfFile) × IsCut f options.now test.now blocks.now }
    ensures code { IfOk result (λ woven. (f : ElfFile) → IsCut f options.now test.now blocks.now
        → IsWoven (compared f options.now (map block_of blocks.now)) f options.now test.now blocks.now
        (kind woven.weaver) (parts (form woven.weaver)) (λ b. Unit {0}) woven.linked) }
    ensures cause { IfErr result (λ e. (f : ElfFile)
        → IsCut f options.now test.now blocks.now → HasCodeCause (compared f options.now (map block_of blocks.now)) e) }
{
    let far = is_far(test, options, blocks);
    code_in(alloc, test, options, blocks, far)
}
