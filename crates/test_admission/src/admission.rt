//! Which tests are admitted, and their facts.
ghost use Rattle.std.specs.Prelude.{IfErr, MatchResult};
ghost use Rattle.tests.specs.Admission.CodeWords.{loads_of};
ghost use Rattle.tests.specs.Admission.Ends.{HasEnds};
ghost use Rattle.machine.specs.Apart.{AllFitMemory, AreApart};
ghost use Rattle.qed_model.specs.Weave.SoundOptions.{AreSoundOptions};
ghost use Rattle.test_admission.specs.Admit.{IsAdmittedAs};
ghost use Rattle.test_admission.specs.Order.{IsCauseOf};

use crate::check::check_rules;
use crate::facts::make_test;
use elf_types::ElfFile;
use qed_model::{AdmitError, Options, Test};
use std::alloc::Global;

/// Tests whether a file is transformed with these options, and returns what is transformed.
///
/// The options are sound, and the PT_LOAD segments fit into memory and share no byte, as in each file that was read. An
/// error is the first rule that holds, with its place or number; it is `Memory` if memory runs out. The ends in the
/// answer are at most 2^64 and below 2^64.
#[tactic(auto, using(crate::proofs::RefusedEnds::cause_ends))]
pub fn admit(alloc: Global, file: &ElfFile, options: &Options) -> Result<Test, AdmitError>
    requires sound { AreSoundOptions options.now }
    requires fit { AllFitMemory (loads_of file.now) }
    requires apart { AreApart (loads_of file.now) }
    ensures exact { MatchResult result (IsAdmittedAs file.now options.now) (IsCauseOf file.now options.now) }
    ensures ends { IfErr result HasEnds }
{
    let parts = check_rules(alloc, file, options)?;
    let test = make_test(alloc, file, options, &parts)?;
    Ok(test)
}
