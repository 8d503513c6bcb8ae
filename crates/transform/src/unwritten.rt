//! The output of a test with its blocks, before it is written.
ghost use Rattle.std.specs.Prelude.{◌≡◌, ℕ, List, [], length, IfSome, IfOk, IfErr};
ghost use Rattle.elf_types.specs.declared.file.Symbol.{Symbol};
ghost use Rattle.tests.specs.declared.options.Options.{Options as TestOptions};
ghost use Rattle.output_file.specs.Sizes.{symbols_room};
ghost use Rattle.tests.specs.Elf.Layout.{written};
ghost use Rattle.tests.specs.Files.File.{IsReadAs};
ghost use Rattle.machine.specs.Apart.{AllFitMemory, AreApart};
ghost use Rattle.machine.specs.Loading.{load_segments};
ghost use Rattle.weave.specs.Code.{IsCut};
ghost use Rattle.transform.specs.Unwritten.{code_for, IsCoded, IsUnwritten, Exceeds};
ghost use Rattle.transform.specs.Transform.{HasCause};

use crate::code::Coded;
use crate::cut::CutTest;
use crate::error::TransformError;
use elf_types::OutFile;
use elf_write::{file_size, names_size};
use output_file::{Code, bare_file, plan, symbols_size, with_symbols};
use qed_model::Plan;
use qed_model::limits::{MAX_OUTPUT_BYTES, MAX_OUTPUT_SEGMENTS};
use std::alloc::Global;

/// An output before it is written, and its plan.
#[derive(Debug, Drop)]
pub(crate) struct Unwritten {
    pub out: OutFile,
    pub plan: Plan,
}

/// The size of a file if symbols that take `room` bytes are added. None if those are 2^128 or more.
fn size_with(bare: &OutFile, room: u128) -> Option<u128>
    ensures { IfSome result (λ size. (symbols : List Symbol) → bare.now.symbols ≡ []
        → room ≡ symbols_room symbols → size ≡ length (written (record bare.now { symbols = symbols }))) }
{
    // The section headers are last, at the next multiple of 8 behind the names of the sections.
    // Without symbols those names end `gap` bytes before it.
    let gap = 7 - (names_size(bare.sections.as_slice()) + 3) % 8;
    let size = file_size(bare).checked_add(room)?;
    let size = size.checked_add(7 - gap)?;
    Some(size / 8 * 8)
}

/// Tests the limits on segments and then on bytes, of a file without symbols, as if it had symbols
/// of `room` bytes. So no names are copied for a file that is too long, if its size is below 2^128.
fn check_bare(bare: &OutFile, room: u128) -> Result<(), TransformError>
    ensures { IfErr result (λ e. (symbols : List Symbol)
        → bare.now.symbols ≡ [] → room ≡ symbols_room symbols → Exceeds (record bare.now { symbols = symbols }) e) }
{
    let segments = bare.segments.as_slice().len() as u64;
    if segments > MAX_OUTPUT_SEGMENTS {
        return Err(TransformError::TooManySegments(segments));
    }
    match size_with(bare, room) {
        Some(size) if size > u128::from(MAX_OUTPUT_BYTES) => Err(TransformError::FileTooLong(size)),
        _ => Ok(()),
    }
}

/// The output of a test with its blocks and its new code, and its plan.
pub(crate) fn output_of(
    alloc: Global,
    cut: &CutTest,
    code: &Coded,
) -> Result<Unwritten, TransformError>
    requires fit { AllFitMemory (load_segments cut.now.file.segments) }
    requires apart { AreApart (load_segments cut.now.file.segments) }
    requires coded { (o : TestOptions) × IsCut cut.now.file o cut.now.test cut.now.blocks
        × IsCoded (code_for cut.now.file o cut.now.blocks) cut.now.file o code.now }
    ensures made { IfOk result (λ made. (o : TestOptions) → IsCut cut.now.file o cut.now.test cut.now.blocks
        → IsCoded (code_for cut.now.file o cut.now.blocks) cut.now.file o code.now → IsUnwritten cut.now.file o cut.now.blocks made.out made.plan) }
    ensures refused { IfErr result (λ e. (o : TestOptions) (input : List ℕ)
        → IsReadAs input cut.now.file → IsCut cut.now.file o cut.now.test cut.now.blocks
        → IsCoded (code_for cut.now.file o cut.now.blocks) cut.now.file o code.now → HasCause input o e) }
{
    let (blocks, entries) = (cut.blocks.as_slice(), code.linked.entries.as_slice());
    let bytes = 4 * code.linked.words.len() as u64;
    let new = Code {
        words: &code.linked.words,
        bytes,
        entries,
        table: code.table,
    };
    let bare = bare_file(alloc, &cut.file, &cut.test, &new)?;
    let plan = plan(alloc, &cut.test, blocks, &new, code.bounds)?;
    let symbols = cut.file.symbols.as_slice();
    check_bare(&bare, symbols_size(symbols))?;
    let out = with_symbols(alloc, bare, entries, symbols)?;
    Ok(Unwritten { out, plan })
}
