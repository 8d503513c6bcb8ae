//! How many code words there are, and the list of them.
ghost use Rattle.std.specs.Prelude.{◌≡◌, ◌+◌, ◌++◌, ◌^◌, ◌<◌, ◌≤◌, None, All, IfOk, OnOk, MatchResult};
ghost use Rattle.tests.specs.Admission.Refusals.{IsRefusedBy};
ghost use Rattle.test_admission.specs.declared.rules.CodeRule.TheVariants as rule;
ghost use Rattle.test_admission.specs.Faults.{first_in, first_among};
ghost use Rattle.test_admission.specs.Order.{PassesBelow};
ghost use Rattle.test_admission.specs.Stretches.{part_of, stretch_parts, AllEndBelow, AreCodeOf};
ghost use Rattle.test_admission.specs.Words.{part_words, words_among, word_total, pairs_of, IsDecoded};

use crate::stretches::Stretch;
use elf_types::ElfFile;
use qed_model::limits::MAX_CODE_WORDS;
use qed_model::{AdmitError, CodeWord, Options};
use rv_decode::decode;
use rv_isa::Ins;
use std::alloc::{AllocError, Global};
use tests::word_in;

/// How many code words there are.
fn word_count(code: &[Stretch<'_>]) -> u64
    requires { word_total (stretch_parts code.now) < 2 ^ 64 }
    ensures { result ≡ word_total (stretch_parts code.now) }
{
    let mut count = 0;
    for stretch in code {
        count += stretch.size / 4;
    }
    count
}

/// Tests the limit on code words, behind that on the image. Each address counts once.
#[tactic(auto, using(crate::proofs::Listing::few_words, crate::proofs::Listing::refused_words, crate::proofs::Listing::passes_words))]
pub fn check_words(
    file: &ElfFile,
    options: &Options,
    code: &[Stretch<'_>],
) -> Result<(), AdmitError>
    requires code { AreCodeOf file.now (stretch_parts code.now) }
    requires passed { PassesBelow file.now options.now 13 }
    ensures { MatchResult result (λ _. PassesBelow file.now options.now 14) (λ e. IsRefusedBy file.now options.now e) }
{
    let count = word_count(code);
    if count > MAX_CODE_WORDS {
        return Err(AdmitError::CodeWords(count));
    }
    Ok(())
}

/// Appends the words of a stretch. Each is an instruction.
fn push_words(words: &mut Vec<CodeWord>, stretch: &Stretch<'_>) -> Result<(), AllocError>
    requires fits { stretch.now.start + stretch.now.size ≤ 2 ^ 64 }
    requires known { first_in rule.Unknown (part_of stretch.now) ≡ None }
    ensures words { OnOk result (pairs_of words.new.items ≡ pairs_of words.old.items ++ part_words (part_of stretch.now)) }
    ensures decoded { OnOk result (All IsDecoded words.old.items → All IsDecoded words.new.items) }
{
    for number in 0..stretch.size / 4 {
        let word = word_in(stretch.bytes, (4 * number) as usize);
        words.push(CodeWord {
            at: stretch.start + 4 * number,
            word,
            ins: decode(word).unwrap_or(Ins::nop()),
        })?;
    }
    Ok(())
}

/// All words of the code, in ascending order.
pub fn code_words(alloc: Global, code: &[Stretch<'_>]) -> Result<Vec<CodeWord>, AllocError>
    requires fits { AllEndBelow code.now }
    requires known { first_among rule.Unknown (stretch_parts code.now) ≡ None }
    ensures words { IfOk result (λ words. pairs_of words.items ≡ words_among (stretch_parts code.now)) }
    ensures decoded { IfOk result (λ words. All IsDecoded words.items) }
{
    let mut words = Vec::new(alloc);
    for stretch in code {
        push_words(&mut words, stretch)?;
    }
    Ok(words)
}
