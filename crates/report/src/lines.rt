//! Lines that end with a number or a name.
ghost use Rattle.std.specs.Prelude.{◌≡◌, IfOk, string_bytes};
ghost use Rattle.qed_words.specs.Text.Errors.{numbered as numbered_of};
ghost use Rattle.qed_words.specs.Text.Usage.{keyed as keyed_of};
ghost use Rattle.report.specs.Admission.{addressed as addressed_of};

use qed_words::Key;
use rv_text::Address;
use std::alloc::{AllocError, Global};

/// A line with a number at its end.
pub fn numbered(alloc: Global, front: &str, number: u64) -> Result<String, AllocError>
    ensures { IfOk result (λ text. string_bytes text ≡ numbered_of front.now number) }
{
    format!(in alloc; "{front}{number}\n")
}

/// A line with an address at its end.
pub fn addressed(alloc: Global, front: &str, address: u64) -> Result<String, AllocError>
    ensures { IfOk result (λ text. string_bytes text ≡ addressed_of front.now address) }
{
    format!(in alloc; "{front}{}\n", Address(address))
}

/// A line with the name of an option at its end, without its dashes.
pub fn keyed(alloc: Global, front: &str, key: Key) -> Result<String, AllocError>
    ensures { IfOk result (λ text. string_bytes text ≡ keyed_of front.now key) }
{
    format!(in alloc; "{front}{}\n", key.name())
}
