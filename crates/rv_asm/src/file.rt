//! The file.
ghost use Rattle.std.specs.Prelude.{◌≡◌, IfOk};
ghost use Rattle.machine.specs.Numbers.{bytes_of};
ghost use Rattle.rv_asm.specs.Assembled.{values_bytes, file_from, file_of_given as file_with_of};

use crate::place::{CODE, DATA};
use elf_types::abi::{PF_R, PF_W, PF_X, SHF_ALLOC, SHF_EXECINSTR, SHF_WRITE};
use elf_types::{Listed, OutFile, OutSection, Segment, Symbol};
use elf_write::{section, segment};
use std::alloc::{AllocError, Global};

/// The bytes of code words, each the lowest first.
#[tactic(auto, unfolding(machine::specs::Numbers::number_bytes))]
fn code_bytes(alloc: Global, code: &[u32]) -> Result<Vec<u8>, AllocError>
    ensures { IfOk result (λ bytes. bytes.items ≡ bytes_of code.now) }
{
    let mut bytes = Vec::new(alloc);
    for word in code {
        bytes.extend_from_slice(&word.to_le_bytes())?;
    }
    Ok(bytes)
}

/// The bytes of data words, each the lowest first.
#[tactic(auto, unfolding(machine::specs::Numbers::number_bytes))]
fn data_bytes(alloc: Global, values: &[u64]) -> Result<Vec<u8>, AllocError>
    ensures { IfOk result (λ bytes. bytes.items ≡ values_bytes values.now) }
{
    let mut bytes = Vec::new(alloc);
    for value in values {
        bytes.extend_from_slice(&value.to_le_bytes())?;
    }
    Ok(bytes)
}

/// A file that begins with the first code word.
fn file(segments: Vec<Segment>, sections: Vec<OutSection>, symbols: Vec<Symbol>) -> OutFile
    ensures { result ≡ file_from segments.items sections.items symbols.items }
{
    OutFile {
        entry: CODE,
        flags: 0,
        segments: Listed::of(segments),
        sections: Listed::of(sections),
        symbols: Listed::of(symbols),
    }
}

/// The file of code words, data words and labels.
#[tactic(auto, unfolding(crate::specs::Assembled::file_of_given))]
pub fn file_with(
    alloc: Global,
    code: &[u32],
    values: &[u64],
    symbols: Vec<Symbol>,
) -> Result<OutFile, AllocError>
    ensures { IfOk result (λ file. file ≡ file_with_of code.now values.now symbols.items) }
{
    let code = segment(PF_R | PF_X, CODE, code_bytes(alloc, code)?);
    let code_section = section(alloc, b".text", SHF_ALLOC | SHF_EXECINSTR, &code)?;
    if values.is_empty() {
        let segments = Vec::from_array(alloc, [code])?;
        let sections = Vec::from_array(alloc, [code_section])?;
        return Ok(file(segments, sections, symbols));
    }
    let words = segment(PF_R | PF_W, DATA, data_bytes(alloc, values)?);
    let words_section = section(alloc, b".data", SHF_ALLOC | SHF_WRITE, &words)?;
    let segments = Vec::from_array(alloc, [code, words])?;
    let sections = Vec::from_array(alloc, [code_section, words_section])?;
    Ok(file(segments, sections, symbols))
}
