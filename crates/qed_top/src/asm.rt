//! What `asm` answers.
ghost use Rattle.std.specs.Prelude.{◌≤◌, IfOk, length};
ghost use Rattle.qed_top.specs.Asm.{Assembles};

use crate::answer::{Answer, Stored, plain};
use crate::status::Status;
use qed_words::Name;
use report::{asm_error_text, assembly_text};
use rv_asm::assemble_counted;
use std::alloc::{AllocError, Global};

/// What `asm` answers over the bytes of its text.
pub fn answer_asm(alloc: Global, text: &[u8], output: Name) -> Result<Answer, AllocError>
    requires { length text.now ≤ 67108864 }
    ensures { IfOk result (Assembles text.now output) }
{
    match assemble_counted(alloc, text) {
        Ok(made) => {
            let line = assembly_text(alloc, made.code_words, made.data_words)?;
            Ok(Answer {
                status: Status::Done,
                text: line,
                stored: Some(Stored {
                    name: output,
                    bytes: made.file,
                }),
            })
        }
        Err(error) => {
            let line = asm_error_text(alloc, error)?;
            Ok(plain(Status::Refused, line))
        }
    }
}
