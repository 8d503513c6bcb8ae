//! The rules on compressed code, dynamic linking and segments that are both written and executed.
ghost use Rattle.std.specs.Prelude.{◌≡◌, position, MatchResult};
ghost use Rattle.std.specs.List.{list_any};
ghost use Rattle.tests.specs.declared.options.Options.{Options};
ghost use Rattle.tests.specs.Admission.Terms.{is_dynamic};
ghost use Rattle.tests.specs.Admission.Rules.{is_writable_code};
ghost use Rattle.tests.specs.Admission.Refusals.{IsRefusedBy};
ghost use Rattle.test_admission.specs.Order.{PassesBelow};

use elf_types::{ElfFile, Segment};
use qed_model::AdmitError;

/// Whether a program header asks for dynamic linking.
fn is_dynamic(segments: &[Segment]) -> bool
    ensures { result ≡ is_dynamic segments.now }
{
    segments.iter().any(|segment| segment.is_dynamic())
}

/// The number of the first segment of the image that is both written and executed.
fn first_writable_code(segments: &[Segment]) -> Option<usize>
    ensures { result ≡ position is_writable_code segments.now }
{
    segments.iter().position(|segment| segment.is_in_image()
        && segment.is_writable()
        && segment.is_executable())
}

/// Tests the first three rules.
#[tactic(auto, using(crate::proofs::Firsts::none_found))]
pub fn check_header(file: &ElfFile) -> Result<(), AdmitError>
    ensures { MatchResult result (λ _. (o : Options) → PassesBelow file.now o 4) (λ e. (o : Options) → IsRefusedBy file.now o e) }
{
    if file.is_compressed() {
        return Err(AdmitError::Compressed);
    }
    let segments = file.segments.as_slice();
    if is_dynamic(segments) {
        return Err(AdmitError::Dynamic);
    }
    match first_writable_code(segments) {
        Some(number) => Err(AdmitError::WritableCode(number as u64)),
        None => Ok(()),
    }
}
