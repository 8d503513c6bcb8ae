//! The whole file.
ghost use Rattle.std.specs.Prelude.{◌≡◌, IfOk, length};
ghost use Rattle.tests.specs.Files.File.{IsReadAs};
ghost use Rattle.tests.specs.Elf.FileRead.{file_read};
ghost use Rattle.tests.specs.Elf.Layout.{IsWritable, written};

use crate::layout::places_of;
use crate::parts::push_parts;
use elf_types::abi::SHDR_SIZE;
use elf_types::{Bytes, OutFile};
use std::alloc::{AllocError, Global};

/// How many bytes the file has that `write_elf` writes. Nothing is written, and no memory is taken. It takes any file;
/// `write_elf` can be called if the size is at most 1,073,741,824 and the other conditions hold.
pub fn file_size(file: &OutFile) -> u128
    ensures { result ≡ length (written file.now) }
{
    let headers = file.sections.as_slice().len() as u128 + 4;
    places_of(file).headers + SHDR_SIZE as u128 * headers
}

/// The bytes of a file (ELF gABI), with gaps of zeros. First come the header, the program headers, the segments, and
/// the bytes of the sections that are not in memory. Then come the symbol table with the null symbol first, the names
/// of symbols, the names of sections, and the section headers, with those of `.symtab`, `.strtab` and `.shstrtab` last.
///
/// `IsWritable` says which files it takes. In short: PT_LOAD segments in ascending order that share no byte; sections
/// in memory inside the file bytes of a segment, others with their own bytes; names without a zero byte; STB_LOCAL
/// symbols first; at most 4,000 segments, 4,000 sections and 1,073,741,824 bytes in all.
///
/// The only error is want of memory.
pub fn write_elf(alloc: Global, file: &OutFile) -> Result<Bytes, AllocError>
    requires { IsWritable file.now }
    ensures written { IfOk result (λ bytes. bytes ≡ written file.now) }
    ensures reads_back { IfOk result (λ bytes. IsReadAs bytes (file_read file.now)) }
{
    let places = places_of(file);
    let mut out = Vec::new(alloc);
    push_parts(&mut out, file, &places)?;
    Ok(Bytes::of(out))
}
