//! Answers for files that are refused, or exceed a limit.
ghost use Rattle.std.specs.Prelude.{◌≡◌, ◌≢◌, IfOk, OnOk};
ghost use Rattle.qed_words.specs.Text.Errors.{error_line};
ghost use Rattle.qed_top.specs.Answer.{PrintsOnly};
ghost use Rattle.tests.specs.Admission.Ends.{HasEnds};
ghost use Rattle.report.specs.Admission.{admit_line};
ghost use Rattle.qed_top.specs.Refused.{TellsEnds, admit_status, error_status, refusal_line, refusal_status};

use crate::answer::{Answer, above_limit, plain};
use crate::status::Status;
use elf_types::ElfError;
use qed_model::{AdmitError, Limit};
use report::{admit_text, error_text};
use std::alloc::{AllocError, Global};
use transform::TransformError;

/// The status for a file that is not read.
fn status_of(error: ElfError) -> Status
    ensures { result ≡ error_status error }
{
    match error {
        ElfError::TooManySections(_) | ElfError::TooManyBytes(_) => Status::Limit,
        _ => Status::Refused,
    }
}

/// The answer for a file that is not read. For want of memory it fails.
pub fn unread(alloc: Global, error: ElfError) -> Result<Answer, AllocError>
    ensures answer { IfOk result (PrintsOnly (error_status error) (error_line error)) }
    ensures memory { OnOk result (error ≢ ElfError.Memory) }
{
    let text = error_text(alloc, error)?;
    Ok(plain(status_of(error), text))
}

/// The status for a test that is not admitted.
fn admit_status_of(rule: AdmitError) -> Status
    ensures { result ≡ admit_status rule }
{
    match rule {
        AdmitError::ImageSpan(_) | AdmitError::CodeWords(_) | AdmitError::TopAddress(_) => {
            Status::Limit
        }
        _ => Status::Refused,
    }
}

/// The answer for a test that is not admitted. For want of memory it fails.
pub fn not_admitted(alloc: Global, rule: &AdmitError) -> Result<Answer, AllocError>
    requires { HasEnds rule.now }
    ensures answer { IfOk result (PrintsOnly (admit_status rule.now) (admit_line rule.now)) }
    ensures memory { OnOk result (rule.now ≢ AdmitError.Memory) }
{
    let text = admit_text(alloc, rule)?;
    Ok(plain(admit_status_of(*rule), text))
}

/// The answer for a file that is not transformed. For want of memory it fails.
pub fn refused(alloc: Global, error: &TransformError) -> Result<Answer, AllocError>
    requires { TellsEnds error.now }
    ensures answer { IfOk result (PrintsOnly (refusal_status error.now) (refusal_line error.now)) }
    ensures memory { OnOk result (error.now ≢ TransformError.Memory) }
{
    match error {
        TransformError::Elf(error) => Ok(unread(alloc, *error)?),
        TransformError::Admit(rule) => Ok(not_admitted(alloc, rule)?),
        TransformError::TooLarge(most, n) => Ok(above_limit(alloc, *most, u128::from(*n))?),
        TransformError::TooManySegments(n) => Ok(above_limit(
            alloc,
            Limit::OutputSegments,
            u128::from(*n),
        )?),
        TransformError::FileTooLong(n) => Ok(above_limit(alloc, Limit::OutputBytes, *n)?),
        TransformError::Memory => Err(AllocError),
    }
}
