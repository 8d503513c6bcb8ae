//! The file of a generated test.
ghost use Rattle.std.specs.Prelude.{◌≡◌, ◌<◌, ◌≤◌, IfOk, ℕ, List};
ghost use Rattle.elf_types.specs.declared.file.ElfFile.{ElfFile};
ghost use Rattle.tests.specs.Admission.Refusals.{IsAdmitted};
ghost use Rattle.tests.specs.Files.File.{IsReadAs};
ghost use Rattle.tests.specs.Elf.FileRead.{file_read};
ghost use Rattle.tests.specs.Elf.Layout.{written};
ghost use Rattle.machine.specs.Loading.{loaded_file};
ghost use Rattle.machine.specs.Program.{AreStartRegs, start};
ghost use Rattle.tests.specs.Options.{default_options};
ghost use Rattle.test_gen.specs.Ends.{EndsAfter, test_steps};
ghost use Rattle.test_gen.specs.Outputs.{IsWeavable};
ghost use Rattle.test_gen.specs.Generated.{generated_sections as sections_of, named_function as symbol_of, function_symbol as function_symbol_of};
ghost use Rattle.test_gen.specs.Generated.{symbols as symbols_of, generated_file_of as file_with_of, generated};

use crate::code::{code, function_count, words_bytes};
use crate::tables::{CODE, data_bytes, function_at, table_bytes};
use elf_types::abi::{
    PF_R, PF_W, PF_X, SHF_ALLOC, SHF_EXECINSTR, SHF_WRITE, SHN_ABS, STB_GLOBAL, STT_FUNC,
};
use elf_types::{Bytes, Listed, OutFile, OutSection, Segment, Symbol};
use elf_write::{section, segment, write_elf};
use std::alloc::{AllocError, Global};

/// Where the table of functions begins.
const TABLE: u64 = 0x80000;

/// Where the data begin.
const DATA: u64 = 0x90000;

/// The sections of the code, of the table of functions, and of the data.
fn sections(
    alloc: Global,
    code: &Segment,
    table: &Segment,
    words: &Segment,
) -> Result<Vec<OutSection>, AllocError>
    ensures { IfOk result (λ sections. sections.items ≡ sections_of code.now table.now words.now) }
{
    let mut sections = Vec::new(alloc);
    sections.push(section(alloc, b".text", SHF_ALLOC | SHF_EXECINSTR, code)?)?;
    sections.push(section(alloc, b".rodata", SHF_ALLOC, table)?)?;
    sections.push(section(alloc, b".data", SHF_ALLOC | SHF_WRITE, words)?)?;
    Ok(sections)
}

/// A symbol of a function.
fn symbol(name: Vec<u8>, address: u64) -> Symbol
    ensures { result ≡ symbol_of name.items address }
{
    Symbol {
        name: Bytes::of(name),
        value: address,
        size: 0,
        kind: STT_FUNC,
        binding: STB_GLOBAL,
        other: 0,
        index: SHN_ABS,
    }
}

/// The symbol of function `number`.
#[tactic(auto, unfolding(crate::specs::Generated::function_symbol))]
fn function_symbol(alloc: Global, number: u64) -> Result<Symbol, AllocError>
    requires { number < 1875 }
    ensures { IfOk result (λ symbol. symbol ≡ function_symbol_of number) }
{
    let name = format!(in alloc; "f{number}")?;
    Ok(symbol(name.into_bytes(), function_at(number)))
}

/// The symbols of `main` and of `functions` functions.
#[tactic(auto, using(machine::proofs::Lemmas::each_none, machine::proofs::Lemmas::push_after))]
fn symbols(alloc: Global, functions: u64) -> Result<Vec<Symbol>, AllocError>
    requires { functions ≤ 1875 }
    ensures { IfOk result (λ symbols. symbols.items ≡ symbols_of functions) }
{
    let mut symbols = Vec::new(alloc);
    symbols.push(symbol(Vec::from_slice(alloc, b"main")?, CODE))?;
    for number in 0..functions {
        symbols.push(function_symbol(alloc, number)?)?;
    }
    Ok(symbols)
}

/// The file of `functions` functions, before it is written.
#[tactic(auto, unfolding(crate::specs::Generated::generated_file_of, crate::specs::Generated::code_bytes))]
fn file_with(alloc: Global, seed: u64, functions: u64) -> Result<OutFile, AllocError>
    requires { functions ≤ 1875 }
    ensures { IfOk result (λ file. file ≡ file_with_of seed functions) }
{
    let code = code(alloc, seed, functions)?;
    let code = segment(PF_R | PF_X, CODE, words_bytes(alloc, &code)?);
    let table = segment(PF_R, TABLE, table_bytes(alloc, functions)?);
    let words = segment(PF_R | PF_W, DATA, data_bytes(alloc)?);
    let sections = sections(alloc, &code, &table, &words)?;
    Ok(OutFile {
        entry: CODE,
        flags: 0,
        segments: Listed::of(Vec::from_array(alloc, [code, table, words])?),
        sections: Listed::of(sections),
        symbols: Listed::of(symbols(alloc, functions)?),
    })
}

/// The test of a seed and a size, as an ELF64 executable for RISC-V. It has `size / 32` functions, rounded up, each of
/// 32 random instructions; `main` calls each three times. The random words are those of PCG XSL RR 128/64.
/// Its bytes are read as that file, which is admitted without options, and its run ends, from any
/// registers. If its new code is within the limit, so is its output, and the output's run ends too.
///
/// The only error is want of memory.
pub fn generate(alloc: Global, seed: u64, size: u64) -> Result<Bytes, AllocError>
    requires some { 1 ≤ size }
    requires most { size ≤ 60000 }
    ensures file { IfOk result (λ bytes. bytes ≡ written (generated seed size)) }
    ensures readable { IfOk result (λ bytes. IsReadAs bytes (file_read (generated seed size))) }
    ensures admitted { IfOk result (λ bytes. (f : ElfFile) → IsReadAs bytes f → IsAdmitted f default_options) }
    ensures ends { IfOk result (λ bytes. (f : ElfFile) → IsReadAs bytes f
        → (regs : List ℕ) → AreStartRegs regs → EndsAfter (start (loaded_file f) regs) (test_steps size)) }
    ensures weavable { IfOk result IsWeavable }
{
    let file = file_with(alloc, seed, function_count(size))?;
    let bytes = write_elf(alloc, &file)?;
    Ok(bytes)
}
