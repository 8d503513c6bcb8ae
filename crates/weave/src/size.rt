//! How many bytes new code has, by its blocks alone: no item is made.
ghost use Rattle.std.specs.Prelude.{◌≡◌, ℕ, ◌+◌, ◌*◌, ◌≤◌, List, All, length, cond};
ghost use Rattle.block_split.specs.declared.block.CodeBlock.{CodeBlock};
ghost use Rattle.qed_model.specs.Weave.Diverse.{parts_of};
ghost use Rattle.qed_model.specs.Weave.Placed.{go_size, sum_of_sizes};
ghost use Rattle.relinker.specs.Counted.{capped};
ghost use Rattle.weave.specs.Fits.{FitsBlock};
ghost use Rattle.weave.specs.Code.{items_of};
ghost use Rattle.weave.specs.Sizes.{guard_room, guards_bytes, original_bytes, mirrored_bytes, diverse_bytes, mirror_bytes, body_bytes, links_bytes};
ghost use Rattle.weave.specs.Sizes.{leave_bytes, block_bytes, blocks_bytes, prologue_bytes, visited_room, end_bytes, AreSizes};

use block_split::CodeBlock;
use mirror_forms::part_count;
use qed_model::{Options, Range, Test};
use rv_isa::{Class, Ins, Kind, Reg};

/// The bytes of the comparison of a register with its pair.
fn guard_size(r: Reg) -> u64
    ensures value { result ≡ guard_room r }
    ensures bound { result ≤ 8 }
{
    if r.number() == 0 { 0 } else { 8 }
}

/// The bytes of the comparisons of both source registers.
fn guards_size(ins: &Ins) -> u64
    ensures value { result ≡ guards_bytes ins.now }
    ensures bound { result ≤ 16 }
{
    let first = guard_size(ins.rs1);
    if ins.rs2 == ins.rs1 {
        return first;
    }
    first + guard_size(ins.rs2)
}

/// The bytes of the original part of an instruction.
fn original_size(ins: &Ins) -> u64
    ensures value { result ≡ original_bytes ins.now }
    ensures bound { result ≤ 20 }
{
    if ins.kind == Kind::Auipc {
        return 8;
    }
    match ins.class() {
        Class::Load => guard_size(ins.rs1) + 4,
        Class::Store => guards_size(ins) + 4,
        _ => 4,
    }
}

/// The bytes of the mirror part of the same kind.
#[inline(always)]
fn mirrored_size(ins: &Ins) -> u64
    ensures value { result ≡ mirrored_bytes ins.now }
    ensures bound { result ≤ 8 }
{
    if ins.kind == Kind::Auipc {
        return 8;
    }
    match ins.class() {
        Class::Load => 8,
        Class::Store => 8,
        Class::Fence => 0,
        _ => 4,
    }
}

/// The bytes of the mirror part of other kinds, or of the instruction's own if there are none.
fn diverse_size(ins: &Ins) -> u64
    ensures value { result ≡ diverse_bytes (parts_of ins.now.kind ins.now.imm) ins.now }
    ensures bound { result ≤ 28 }
{
    let count = part_count(ins.kind);
    if count == 0 {
        return mirrored_size(ins);
    }
    4 * count
}

/// The bytes of the mirror part of an instruction.
#[inline(always)]
fn mirror_size(ins: &Ins, diverse: bool) -> u64
    ensures value { result ≡ mirror_bytes diverse ins.now }
    ensures bound { result ≤ 28 }
{
    if diverse {
        diverse_size(ins)
    } else {
        mirrored_size(ins)
    }
}

/// The bytes of both parts of all instructions of a body; at most 2^64 - 1.
fn body_size(body: &[Ins], diverse: bool) -> u64
    ensures { result ≡ capped (body_bytes diverse body.now) }
{
    let mut total = 0u64;
    for ins in body {
        total = total.saturating_add(original_size(ins) + mirror_size(ins, diverse));
    }
    total
}

/// What the sizes of blocks depend on besides the blocks.
#[derive(Clone, Copy)]
pub(crate) struct Sizes {
    /// Whether mirror parts are of other kinds.
    pub(crate) diverse: bool,
    /// The bytes of a jump to an entry.
    pub(crate) go: u64,
    /// The bytes of the comparison and the visits behind the parts of a piece.
    pub(crate) piece: u64,
    /// The bytes before an ECALL.
    pub(crate) end: u64,
}

/// The bytes of the visit of a data word.
fn word_size(span: &[Range]) -> u64
    requires { length span.now ≤ 67_108_864 }
    ensures value { result ≡ visited_room span.now }
    ensures bound { result ≤ 1_342_177_304 }
{
    if span.is_empty() {
        return 0;
    }
    24 + 20 * span.len() as u64
}

/// The bytes of the comparisons before an ECALL.
fn end_size(span: &[Range], sweep: bool) -> u64
    requires { length span.now ≤ 67_108_864 }
    ensures { result ≡ end_bytes sweep span.now }
{
    if sweep {
        44 * span.len() as u64 + 104
    } else {
        0
    }
}

/// What the sizes of the blocks of a test depend on.
pub(crate) fn sizes_of(test: &Test, options: &Options, far: bool) -> Sizes
    requires visits { options.now.round ≤ 1024 }
    requires ranges { length test.now.span ≤ 67_108_864 }
    ensures { AreSizes result options.now far test.now.span }
{
    let span = test.span.as_slice();
    Sizes {
        diverse: options.diverse,
        go: if far { 8 } else { 4 },
        piece: 104 + options.round * word_size(span),
        end: end_size(span, options.sweep),
    }
}

/// The bytes of the return address of a jump, in rd and in its pair.
fn links_size(ins: &Ins) -> u64
    ensures value { result ≡ links_bytes ins.now }
    ensures bound { result ≤ 16 }
{
    if ins.rd.number() == 0 { 0 } else { 16 }
}

/// The bytes of the leave of a block; at most 2^64 - 1.
fn leave_size(sizes: &Sizes, end: &Option<Ins>) -> u64
    requires { sizes.now.go ≤ 8 }
    ensures { result ≡ capped (leave_bytes sizes.now end.now) }
{
    match end {
        None => 8 + sizes.go,
        Some(ins) => match ins.class() {
            Class::End => sizes.end.saturating_add(4),
            Class::Jump => links_size(ins) + 8 + sizes.go,
            Class::Branch => 28 + guards_size(ins) + 2 * sizes.go,
            Class::JumpReg => 36 + guard_size(ins.rs1) + links_size(ins),
            _ => 4,
        },
    }
}

/// The bytes of a block; at most 2^64 - 1.
pub(crate) fn block_size(sizes: &Sizes, block: &CodeBlock) -> u64
    requires { sizes.now.go ≤ 8 }
    ensures { result ≡ capped (block_bytes sizes.now block.now) }
{
    let count = block.lengths.as_slice().len() as u64;
    let body = body_size(block.body.as_slice(), sizes.diverse);
    let pieces = body.saturating_add(count.saturating_mul(sizes.piece));
    let leave = leave_size(sizes, &block.end);
    pieces.saturating_add(leave).saturating_add(16)
}

/// The bytes of blocks; at most 2^64 - 1.
fn blocks_size(sizes: &Sizes, blocks: &[CodeBlock]) -> u64
    requires { sizes.now.go ≤ 8 }
    ensures { result ≡ capped (blocks_bytes sizes.now blocks.now) }
{
    let mut total = 0u64;
    for block in blocks {
        total = total.saturating_add(block_size(sizes, block));
    }
    total
}

/// The bytes of what runs first.
pub(crate) fn prologue_size(span: &[Range], go: u64) -> u64
    requires { go ≤ 8 }
    ensures { result ≡ prologue_bytes go span.now }
{
    let cursor = if span.is_empty() { 0 } else { 8 };
    116 + cursor + go
}

/// The bytes of the new code in one form, with the stub; at most 2^64 - 1. Takes time per instruction, no memory.
pub(crate) fn code_size(test: &Test, options: &Options, far: bool, blocks: &[CodeBlock]) -> u64
    requires visits { options.now.round ≤ 1024 }
    requires ranges { length test.now.span ≤ 67_108_864 }
    requires fit { All FitsBlock blocks.now }
    ensures { result ≡ capped (sum_of_sizes far (items_of test.now options.now far blocks.now) + 4) }
{
    let sizes = sizes_of(test, options, far);
    let first = prologue_size(test.span.as_slice(), sizes.go);
    let size = blocks_size(&sizes, blocks).saturating_add(first);
    size.saturating_add(4)
}
