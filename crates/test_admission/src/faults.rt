//! The rules on code words, sought only where the file has a byte of the word. Every other word is the zero word, which
//! breaks none of them.
ghost use Rattle.std.specs.Prelude.{◌≡◌, ◌+◌, ◌^◌, ◌≤◌, None, All, IfSome, MatchOption, MatchResult, OnOk};
ghost use Rattle.tests.specs.declared.options.Options.{Options};
ghost use Rattle.machine.specs.Table.{decode_of};
ghost use Rattle.tests.specs.Admission.Rules.{high_in};
ghost use Rattle.tests.specs.Admission.Refusals.{IsRefusedBy};
ghost use Rattle.tests.specs.Admission.Places.{base_of, image_of};
ghost use Rattle.test_admission.specs.declared.rules.CodeRule.TheVariants as rule;
ghost use Rattle.test_admission.specs.Faults.{filled, first_in, first_among, HasHigh};
ghost use Rattle.test_admission.specs.Order.{PassesBelow};
ghost use Rattle.test_admission.specs.Stretches.{part_of, stretch_parts, AllEndBelow, AreCodeOf};

use crate::rules::{CodeRule, high_in, is_at_fault};
use crate::stretches::Stretch;
use elf_types::ElfFile;
use qed_model::AdmitError;
use tests::word_in;

/// How many words of a stretch have a byte in the file.
fn filled(stretch: &Stretch<'_>) -> u64
    ensures { result ≡ filled (part_of stretch.now) }
{
    let words = (stretch.bytes.len() as u64).div_ceil(4);
    words.min(stretch.size / 4)
}

/// The first word of a stretch that is at fault by a rule: its address and the word.
fn first_in(stretch: &Stretch<'_>, rule: CodeRule) -> Option<(u64, u32)>
    requires { stretch.now.start + stretch.now.size ≤ 2 ^ 64 }
    ensures { result ≡ first_in rule (part_of stretch.now) }
{
    for number in 0..filled(stretch) {
        let address = stretch.start + 4 * number;
        let word = word_in(stretch.bytes, (4 * number) as usize);
        if is_at_fault(rule, address, word) {
            return Some((address, word));
        }
    }
    None
}

/// The first word of all code that is at fault by a rule: its address and the word.
fn first_among(code: &[Stretch<'_>], rule: CodeRule) -> Option<(u64, u32)>
    requires { AllEndBelow code.now }
    ensures { result ≡ first_among rule (stretch_parts code.now) }
{
    for stretch in code {
        if let Some(found) = first_in(stretch, rule) {
            return Some(found);
        }
    }
    None
}

/// The error of the first instruction that reads or writes a register above x13, with the first such register.
fn first_high(code: &[Stretch<'_>]) -> Option<AdmitError>
    requires { AllEndBelow code.now }
    ensures { MatchOption result (first_among rule.Registers (stretch_parts code.now) ≡ None) (HasHigh (stretch_parts code.now)) }
{
    let (address, word) = first_among(code, CodeRule::Registers)?;
    let register = high_in(word)?;
    Some(AdmitError::RegisterHalf(address, register))
}

/// Tests the rules on code words, behind those on the shape of code. Constants are tested against a base. If no rule
/// refuses a word, each is decoded once.
#[tactic(auto, using(crate::proofs::Faulting::follow_fit, crate::proofs::Faulting::refused_unknown, crate::proofs::Faulting::refused_high, crate::proofs::Faulting::refused_break, crate::proofs::Faulting::refused_far, crate::proofs::Faulting::passes_code, crate::proofs::FirstFault::none_each))]
pub fn check_code(file: &ElfFile, code: &[Stretch<'_>], base: u64) -> Result<(), AdmitError>
    requires code { AreCodeOf file.now (stretch_parts code.now) }
    requires base { base ≡ base_of (image_of file.now) }
    requires passed { (o : Options) → PassesBelow file.now o 6 }
    ensures order { MatchResult result (λ _. (o : Options) → PassesBelow file.now o 10) (λ e. (o : Options) → IsRefusedBy file.now o e) }
    ensures known { OnOk result (first_among rule.Unknown (stretch_parts code.now) ≡ None) }
{
    if first_among(code, CodeRule::Any(base)).is_none() {
        return Ok(());
    }
    if let Some((address, word)) = first_among(code, CodeRule::Unknown) {
        return Err(AdmitError::UnknownWord(address, word));
    }
    if let Some(error) = first_high(code) {
        return Err(error);
    }
    if let Some((address, _)) = first_among(code, CodeRule::Breakpoint) {
        return Err(AdmitError::Breakpoint(address));
    }
    if let Some((address, _)) = first_among(code, CodeRule::Constant(base)) {
        return Err(AdmitError::FarConstant(address));
    }
    Ok(())
}
