//! What `list` answers.
ghost use Rattle.std.specs.Prelude.{IfOk};
ghost use Rattle.machine.specs.Loading.{load_segments};
ghost use Rattle.machine.specs.Apart.{AllFitMemory, AreApart};
ghost use Rattle.qed_top.specs.List.{FileLists, Lists};

use crate::answer::{Answer, plain};
use crate::refusal::unread;
use crate::run::above_memory;
use crate::status::Status;
use elf_read::read_elf;
use elf_types::ElfFile;
use listing::list_text;
use std::alloc::{AllocError, Global};

/// What `list` answers for a file that was read.
fn answer_file(alloc: Global, file: &ElfFile) -> Result<Answer, AllocError>
    requires fit { AllFitMemory (load_segments file.now.segments) }
    requires apart { AreApart (load_segments file.now.segments) }
    ensures { IfOk result (FileLists file.now) }
{
    if let Some(answer) = above_memory(alloc, file)? {
        return Ok(answer);
    }
    let text = list_text(alloc, file)?;
    Ok(plain(Status::Done, text))
}

/// What `list` answers over the bytes of its file.
pub fn answer_list(alloc: Global, bytes: &[u8]) -> Result<Answer, AllocError>
    ensures { IfOk result (Lists bytes.now) }
{
    match read_elf(alloc, bytes) {
        Ok(file) => Ok(answer_file(alloc, &file)?),
        Err(error) => Ok(unread(alloc, error)?),
    }
}
