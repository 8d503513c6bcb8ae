//! What is printed if a limit is exceeded.
ghost use Rattle.std.specs.Prelude.{◌≡◌, IfOk, string_bytes};
ghost use Rattle.qed_words.specs.Text.Errors.{limit_line as limit_line_of};

use elf_types::Bytes;
use qed_model::Limit;
use std::alloc::{AllocError, Global};

/// The line about a limit that a number exceeds.
pub fn limit_line(alloc: Global, limit: Limit, count: u128) -> Result<String, AllocError>
    ensures { IfOk result (λ text. string_bytes text ≡ limit_line_of limit count) }
{
    let number = limit.number();
    let most = limit.most();
    if limit.is_counted() {
        format!(in alloc; "limit L{number}: {count} over {most}\n")
    } else {
        format!(in alloc; "limit L{number}: over {most}\n")
    }
}

/// The line about a limit that a number exceeds. Limits on a loaded file print no number, so any
/// may be passed.
pub fn limit_text(alloc: Global, limit: Limit, count: u128) -> Result<Bytes, AllocError>
    ensures { IfOk result (λ text. text ≡ limit_line_of limit count) }
{
    Ok(Bytes::of(limit_line(alloc, limit, count)?.into_bytes()))
}
