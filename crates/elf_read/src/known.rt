//! Reads bytes that are known to be a file.
ghost use Rattle.std.specs.Prelude.{IfOk};
ghost use Rattle.tests.specs.Files.File.{IsReadAs};
ghost use Rattle.machine.specs.Loading.{load_segments};
ghost use Rattle.machine.specs.Apart.{AllFitMemory, AreApart};
ghost use Rattle.elf_read.specs.Known.{IsReadable};

use crate::read::read_elf;
use elf_types::ElfFile;
use std::alloc::{AllocError, Global};

/// The file of bytes that no rule refuses, as `write_elf` writes them.
pub fn read_known(alloc: Global, bytes: &[u8]) -> Result<ElfFile, AllocError>
    requires { IsReadable bytes.now }
    ensures read { IfOk result (λ f. IsReadAs bytes.now f) }
    ensures fit { IfOk result (λ f. AllFitMemory (load_segments f.segments)) }
    ensures apart { IfOk result (λ f. AreApart (load_segments f.segments)) }
{
    match read_elf(alloc, bytes) {
        Ok(file) => Ok(file),
        // No rule refuses the bytes, so there was no memory.
        Err(_) => Err(AllocError),
    }
}
