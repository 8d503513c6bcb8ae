//! What is printed about a text that is assembled.
ghost use Rattle.std.specs.Prelude.{◌≡◌, ◌≢◌, IfOk, OnOk};
ghost use Rattle.report.specs.Assembly.{asm_error_line, assembly_line, fault_number};

use elf_types::Bytes;
use rv_asm::{AsmError, Fault};
use std::alloc::{AllocError, Global};

/// The number of a fault's rule, S1 to S6.
fn fault_number(fault: Fault) -> u64
    ensures { result ≡ fault_number fault }
{
    fault as u64 + 1
}

/// The line about a text that is not assembled: the rule of the first fault, and the number of its
/// line, from 1. For want of memory it fails.
pub fn asm_error_text(alloc: Global, error: AsmError) -> Result<Bytes, AllocError>
    ensures text { IfOk result (λ text. text ≡ asm_error_line error) }
    ensures memory { OnOk result (error ≢ AsmError.Memory) }
{
    let text = match error {
        AsmError::Line(fault, line) => {
            format!(in alloc; "refused S{}: line {line}\n", fault_number(fault))?
        }
        AsmError::NoCode => String::from_str(alloc, "refused S7: no instruction\n")?,
        AsmError::Memory => return Err(AllocError),
    };
    Ok(Bytes::of(text.into_bytes()))
}

/// The line about a text that is assembled: how many words of code, and how many of data.
pub fn assembly_text(alloc: Global, code: u64, words: u64) -> Result<Bytes, AllocError>
    ensures { IfOk result (λ text. text ≡ assembly_line code words) }
{
    Ok(Bytes::of(format!(in alloc; "code {code} words, data {words} words\n")?.into_bytes()))
}
