//! What is printed if a test is not admitted.
ghost use Rattle.std.specs.Prelude.{◌≡◌, ◌≢◌, ◌^◌, ◌≤◌, IfOk, OnOk, string_bytes};
ghost use Rattle.tests.specs.Admission.Ends.{HasEnds};
ghost use Rattle.report.specs.Admission.{admit_line, no_word_line, outside_line};

use crate::limits::limit_line;
use crate::lines::{addressed, numbered};
use elf_types::Bytes;
use qed_model::{AdmitError, Limit};
use rv_text::{Address, Word};
use std::alloc::{AllocError, Global};

/// The line about an image that ends behind its half. An end of 2^64 has 17 digits.
fn outside_line(alloc: Global, high: u128, end: u64) -> Result<String, AllocError>
    requires { high ≤ 2 ^ 64 }
    ensures { IfOk result (λ text. string_bytes text ≡ outside_line high end) }
{
    let end = Address(end);
    if high < 1 << 64 {
        let high = Address(high as u64);
        format!(in alloc; "refused A11: image end {high}, half end {end}\n")
    } else {
        format!(in alloc; "refused A11: image end 0x10000000000000000, half end {end}\n")
    }
}

/// The line about an address at which no word of new code stands: N1.
pub fn no_word_text(alloc: Global, address: u64) -> Result<Bytes, AllocError>
    ensures { IfOk result (λ text. text ≡ no_word_line address) }
{
    Ok(Bytes::of(addressed(alloc, "refused N1: address ", address)?.into_bytes()))
}

/// The line about a test that is not admitted: A1 to A11, L2, L3 or L7. An end of 2^64 has 17
/// digits. For want of memory it fails.
pub fn admit_text(alloc: Global, error: &AdmitError) -> Result<Bytes, AllocError>
    requires { HasEnds error.now }
    ensures text { IfOk result (λ text. text ≡ admit_line error.now) }
    ensures memory { OnOk result (error.now ≢ AdmitError.Memory) }
{
    let line = match error {
        AdmitError::Compressed => String::from_str(alloc, "refused A1: compressed\n")?,
        AdmitError::Dynamic => String::from_str(alloc, "refused A2: dynamic\n")?,
        AdmitError::WritableCode(i) => numbered(alloc, "refused A3: segment ", *i)?,
        AdmitError::NoCode(entry) => addressed(alloc, "refused A4: entry ", *entry)?,
        AdmitError::CodeShape(i) => numbered(alloc, "refused A5: part ", *i)?,
        AdmitError::UnknownWord(at, word) => {
            let (at, word) = (Address(*at), Word(*word));
            format!(in alloc; "refused A6: address {at}, word {word}\n")?
        }
        AdmitError::RegisterHalf(at, register) => {
            let (at, register) = (Address(*at), register.number());
            format!(in alloc; "refused A7: address {at}, register {register}\n")?
        }
        AdmitError::Breakpoint(at) => addressed(alloc, "refused A8: address ", *at)?,
        AdmitError::FarConstant(at) => addressed(alloc, "refused A9: address ", *at)?,
        AdmitError::DataMixed(i) => numbered(alloc, "refused A10: segment ", *i)?,
        AdmitError::OutsideHalf(high, end) => outside_line(alloc, *high, *end as u64)?,
        AdmitError::ImageSpan(n) => limit_line(alloc, Limit::ImageSpan, *n)?,
        AdmitError::CodeWords(n) => limit_line(alloc, Limit::CodeWords, u128::from(*n))?,
        AdmitError::TopAddress(n) => limit_line(alloc, Limit::TopAddress, *n)?,
        AdmitError::Memory => return Err(AllocError),
    };
    Ok(Bytes::of(line.into_bytes()))
}
