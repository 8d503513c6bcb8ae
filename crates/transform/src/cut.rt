//! A file as a test, with its blocks.
ghost use Rattle.std.specs.Prelude.{ℕ, List, IfOk, IfErr};
ghost use Rattle.tests.specs.declared.options.Options.{Options as TestOptions};
ghost use Rattle.tests.specs.Files.File.{IsReadAs};
ghost use Rattle.tests.specs.Elf.Sound.{IsSound};
ghost use Rattle.machine.specs.Apart.{AllFitMemory, AreApart};
ghost use Rattle.machine.specs.Loading.{load_segments};
ghost use Rattle.qed_model.specs.Weave.SoundOptions.{AreSoundOptions};
ghost use Rattle.test_admission.specs.Admit.{IsAdmittedAs};
ghost use Rattle.transform.specs.Transform.{HasCause, IsNotAdmitted};
ghost use Rattle.weave.specs.Code.{IsCut};

use crate::error::TransformError;
use block_split::{Blocks, blocks};
use elf_read::read_elf;
use elf_types::{ElfError, ElfFile};
use qed_model::{AdmitError, Options, Test};
use std::alloc::Global;
use test_admission::admit;

/// A file that is a test, and its blocks.
#[derive(Debug, Drop)]
pub(crate) struct CutTest {
    pub file: ElfFile,
    pub test: Test,
    pub blocks: Blocks,
}

/// The file with these bytes.
fn read(alloc: Global, bytes: &[u8]) -> Result<ElfFile, TransformError>
    ensures read { IfOk result (λ f. IsReadAs bytes.now f) }
    ensures sound { IfOk result IsSound }
    ensures fit { IfOk result (λ f. AllFitMemory (load_segments f.segments)) }
    ensures apart { IfOk result (λ f. AreApart (load_segments f.segments)) }
    ensures refused { IfErr result (λ e. (o : TestOptions) → HasCause bytes.now o e) }
{
    match read_elf(alloc, bytes) {
        Ok(file) => Ok(file),
        Err(ElfError::Memory) => Err(TransformError::Memory),
        Err(refusal) => Err(TransformError::Elf(refusal)),
    }
}

/// The test of a file.
fn test_of(alloc: Global, file: &ElfFile, options: &Options) -> Result<Test, TransformError>
    requires sound { AreSoundOptions options.now }
    requires fit { AllFitMemory (load_segments file.now.segments) }
    requires apart { AreApart (load_segments file.now.segments) }
    ensures test { IfOk result (IsAdmittedAs file.now options.now) }
    ensures refused { IfErr result (λ e. (input : List ℕ) → IsReadAs input file.now → HasCause input options.now e) }
{
    match admit(alloc, file, options) {
        Ok(test) => Ok(test),
        Err(AdmitError::Memory) => Err(TransformError::Memory),
        Err(refusal) => Err(TransformError::Admit(refusal)),
    }
}

/// The test with these bytes, and its blocks.
pub(crate) fn cut_test(
    alloc: Global,
    bytes: &[u8],
    options: &Options,
) -> Result<CutTest, TransformError>
    requires sound { AreSoundOptions options.now }
    ensures read { IfOk result (λ c. IsReadAs bytes.now c.file) }
    ensures fit { IfOk result (λ c. AllFitMemory (load_segments c.file.segments)) }
    ensures apart { IfOk result (λ c. AreApart (load_segments c.file.segments)) }
    ensures cut { IfOk result (λ c. IsCut c.file options.now c.test c.blocks) }
    ensures refused { IfErr result (HasCause bytes.now options.now) }
{
    let file = read(alloc, bytes)?;
    let test = test_of(alloc, &file, options)?;
    let blocks = blocks(alloc, &test, &file, options)?;
    Ok(CutTest { file, test, blocks })
}
