//! From text to a file.
ghost use Rattle.std.specs.Prelude.{◌≤◌, MatchResult, length};
ghost use Rattle.rv_asm.specs.Assembled.{Assembled, IsTextRefused};
ghost use Rattle.rv_asm.specs.Counted.{IsAssembly};
ghost use Rattle.rv_asm.specs.Exact.{IsExact, file_in};

use crate::error::AsmError;
use crate::program::program_of;
use elf_types::Bytes;
use elf_write::write_elf;
use std::alloc::Global;

/// A file that a text describes, and how much it gives.
#[derive(Debug, Drop)]
pub struct Assembly {
    pub file: Bytes,
    /// How many code words.
    pub code_words: u64,
    /// How many data words.
    pub data_words: u64,
}

/// The file and its numbers, or why there is none.
fn assembled(alloc: Global, text: &[u8]) -> Result<Assembly, AsmError>
    requires { length text.now ≤ 67108864 }
    ensures { MatchResult result (λ made. IsAssembly text.now made) (λ e. IsTextRefused text.now e) }
{
    let program = program_of(alloc, text)?;
    if program.code.is_empty() {
        return Err(AsmError::NoCode);
    }
    let code_words = program.code.len() as u64;
    let data_words = program.values.len() as u64;
    let file = program.into_file(alloc)?;
    let bytes = write_elf(alloc, &file)?;
    Ok(Assembly {
        file: bytes,
        code_words,
        data_words,
    })
}

/// The executable that a text describes, with the numbers of its words. Its code is at 0x10000 with the section
/// `.text`. Its data, if there is any, is at 0x20000 with the section `.data`, and its labels are local symbols. The
/// text has at most 67,108,864 bytes.
///
/// An error reports the first line at fault, a text without instructions, or want of memory.
pub fn assemble_counted(alloc: Global, text: &[u8]) -> Result<Assembly, AsmError>
    requires { length text.now ≤ 67108864 }
    ensures answer { MatchResult result (λ made. IsAssembly text.now made) (λ e. IsTextRefused text.now e) }

    // The only answer but for want of memory.
    ensures exact { IsExact text.now (file_in result) }
{
    assembled(alloc, text)
}

/// The executable that a text describes, alone.
///
/// Its errors are those of `assemble_counted`.
pub fn assemble(alloc: Global, text: &[u8]) -> Result<Bytes, AsmError>
    requires { length text.now ≤ 67108864 }
    ensures answer { MatchResult result (λ bytes. Assembled text.now bytes) (λ e. IsTextRefused text.now e) }
    ensures exact { IsExact text.now result }
{
    let made = assemble_counted(alloc, text)?;
    Ok(made.file)
}
