//! The file that bytes are.
ghost use Rattle.std.specs.Prelude.{◌≡◌, false, ◌<◌, ◌/◌, ◌⊎◌, slice_index, ℕ, Ok, Err, Some, IfOk, IfErr, OnOk};
ghost use Rattle.elf_types.specs.declared.error.ElfError.TheVariants as error;
ghost use Rattle.machine.specs.Below.{each};
ghost use Rattle.tests.specs.Files.Header.{e_phnum, e_shnum};
ghost use Rattle.tests.specs.Files.Rules.{is_section_outside, is_segment_outside, section_strings, strings_of, symbol_table, part_rules, verdict, read_verdict};
ghost use Rattle.tests.specs.Files.File.{File, load_bytes, segment_of, section_of, symbol_of, symbols_at, IsReadAs};
ghost use Rattle.tests.specs.Files.Refusals.{IsAccepted, IsFileRefused};
ghost use Rattle.tests.specs.Elf.Sound.{IsSound};
ghost use Rattle.machine.specs.Loading.{load_segments};
ghost use Rattle.machine.specs.Apart.{AllFitMemory, AreApart};
ghost use Rattle.elf_read.specs.Sound.{HasLinks};

use crate::below::list_of;
use crate::limits::{check_byte_count, check_section_count};
use crate::parts::Parts;
use crate::relas::{check_rela_shape, relas};
use crate::sections::{check_section_shape, section_strings};
use crate::segments::{check_segment_overlap, check_segment_shape};
use crate::strings::Names;
use crate::symbols::{check_symbol_shape, entry_at, symbol_strings, symbol_table};
use elf_types::abi::{SHT_SYMTAB, SYM_SIZE};
use elf_types::{
    Bytes, ElfError, ElfFile, Listed, ProgramHeader, Section, SectionHeader, Segment, Shared,
    Symbol,
};
use std::alloc::{AllocError, Global};

#[tactic(auto, unfolding(tests::specs::Files::File::section_of, tests::specs::Files::Rules::section_name))]
fn section(file: &Parts, names: &Names, i: u64) -> Result<Section, AllocError>
    requires below { i < e_shnum file.now }
    requires names { names.now ≡ section_strings file.now }
    ensures { IfOk result (λ x. x ≡ section_of file.now i) }
{
    let s = file.section(i);
    Ok(Section {
        name: names.name(s.name)?,
        kind: s.kind,
        flags: s.flags,
        address: s.addr,
        size: s.size,
    })
}

fn sections(file: &Parts, alloc: Global) -> Result<Vec<Section>, AllocError>
    ensures { IfOk result (λ v. v.items ≡ each (e_shnum file.now) (section_of file.now)) }
{
    let names = Names::new(alloc, section_strings(file, alloc))?;
    list_of(alloc, file.tables().shnum(), &|i| section(file, &names, i))
}

/// The bytes of a segment, as a part of those of the file; where it is not `PT_LOAD` there are none.
#[tactic(auto, unfolding(tests::specs::Files::File::load_bytes, tests::specs::Files::Rules::is_segment_outside))]
fn segment_bytes(shared: &Shared, p: ProgramHeader) -> Result<Bytes, AllocError>
    requires { is_segment_outside shared.now p ≡ false }
    ensures { IfOk result (λ bytes. bytes ≡ load_bytes shared.now p) }
{
    if !p.is_load() || p.filesz == 0 {
        let none = shared.part(0, 0)?;
        return Ok(none);
    }
    let bytes = shared.part(p.offset as usize, p.filesz as usize)?;
    Ok(bytes)
}

#[tactic(auto, unfolding(tests::specs::Files::File::segment_of))]
fn segment(file: &Parts, shared: &Shared, i: u64) -> Result<Segment, AllocError>
    requires below { i < e_phnum file.now }
    requires same { shared.now ≡ file.now }
    ensures { IfOk result (λ x. x ≡ segment_of file.now i) }
{
    let p = file.program(i);
    let bytes = segment_bytes(shared, p)?;
    Ok(Segment {
        kind: p.kind,
        flags: p.flags,
        address: p.vaddr,
        memory: p.memsz,
        bytes,
    })
}

#[tactic(auto, unfolding(tests::specs::Files::File::symbol_of, tests::specs::Files::Rules::symbol_name, tests::specs::Files::Rules::name_at))]
fn symbol(file: &Parts, names: &Names, s: SectionHeader, j: u64) -> Result<Symbol, AllocError>
    requires inside { is_section_outside file.now s ≡ false }
    requires kind { s.kind ≡ SHT_SYMTAB }
    requires names { names.now ≡ strings_of file.now s }
    requires entry { j < s.size / 24 }
    ensures { IfOk result (λ x. x ≡ symbol_of file.now s j) }
{
    let e = entry_at(file.section_bytes(s), j);
    Ok(Symbol {
        name: names.name(if j == 0 { 0 } else { e.name })?,
        value: e.value,
        size: e.size,
        kind: e.info % 16,
        binding: e.info / 16,
        other: e.other,
        index: e.index,
    })
}

/// The parts of the file, where no rule refuses it and it is within the limits.
#[tactic(auto, unfolding(tests::specs::Files::Rules::verdict, tests::specs::Files::Rules::read_verdict))]
fn sound<'a>(alloc: Global, bytes: &'a [u8]) -> Result<Parts<'a>, ElfError>
    ensures same { IfOk result (λ s. s ≡ bytes.now) }
    ensures links { IfOk result HasLinks }
    ensures rules { OnOk result (verdict bytes.now ≡ Ok tt) }
    ensures limits { OnOk result (read_verdict bytes.now ≡ Ok tt) }
    ensures small { OnOk result ((k : ℕ) → slice_index bytes.now k < 256) }
    ensures refused { IfErr result (λ e. read_verdict bytes.now ≡ Err e) }
{
    let parts = Parts::new(bytes)?;
    check_segment_shape(&parts)?;
    check_segment_overlap(&parts, alloc)?;
    check_section_shape(&parts, alloc)?;
    check_symbol_shape(&parts, alloc)?;
    check_rela_shape(&parts)?;
    check_section_count(&parts)?;
    check_byte_count(&parts, alloc)?;
    Ok(parts)
}

fn symbols(file: &Parts, alloc: Global) -> Result<Vec<Symbol>, AllocError>
    requires { HasLinks file.now }
    ensures { IfOk result (λ v. v.items ≡ symbols_at file.now (symbol_table file.now)) }
{
    match symbol_table(file) {
        None => Ok(Vec::new(alloc)),
        Some(i) => {
            let names = Names::new(alloc, symbol_strings(file, alloc, i))?;
            let s = file.section(i);
            list_of(alloc, s.size / SYM_SIZE, &|j| symbol(file, &names, s, j))
        }
    }
}

/// The file, with segments whose bytes are parts of those of the file.
fn elf_file(file: &Parts, alloc: Global, shared: &Shared) -> Result<ElfFile, AllocError>
    requires sound { verdict file.now ≡ Ok tt }
    requires links { HasLinks file.now }
    requires same { shared.now ≡ file.now }
    ensures { IfOk result (λ f. File file.now f) }
{
    let segments = list_of(alloc, file.tables().phnum(), &|i| segment(file, shared, i))?;
    Ok(ElfFile {
        entry: file.tables().entry(),
        flags: file.tables().flags(),
        segments: Listed::of(segments),
        sections: Listed::of(sections(file, alloc)?),
        symbols: Listed::of(symbols(file, alloc)?),
        relas: Listed::of(relas(file, alloc)?),
    })
}

/// The file that bytes are (ELF gABI, RISC-V ELF psABI), if it is within the limits of the reader; or the first rule
/// that refuses them, or else the first limit that they exceed. Rules and limits are those of `ElfError`, in its order,
/// each over the whole file before the next. A refusal needs no memory.
///
/// # Errors
///
/// `Memory` if no rule refuses the bytes, they are within the limits, and the memory is too small for the copy. Each
/// other error comes exactly if it is the first that holds.
#[tactic(auto, using(tests::proofs::RefusalLaws::refused, tests::proofs::AcceptanceLaws::accepted, tests::proofs::LoadsApart::file_fits))]
pub fn read_elf(alloc: Global, bytes: &[u8]) -> Result<ElfFile, ElfError>
    ensures read { IfOk result (λ f. IsReadAs bytes.now f) }
    ensures accepted { OnOk result (IsAccepted bytes.now) }
    ensures sound { IfOk result IsSound }
    ensures fit { IfOk result (λ f. AllFitMemory (load_segments f.segments)) }
    ensures apart { IfOk result (λ f. AreApart (load_segments f.segments)) }
    ensures refused { IfErr result (λ e. IsFileRefused bytes.now e ⊎ ((e ≡ error.Memory) × (read_verdict bytes.now ≡ Ok tt))) }
{
    let sound = sound(alloc, bytes)?;
    let shared = Shared::copied(alloc, bytes)?;
    Ok(elf_file(&sound, alloc, &shared)?)
}

/// As `read_elf`, where the bytes of the segments are parts of those of the file and not copies.
///
/// # Errors
///
/// As those of `read_elf`.
#[tactic(auto, using(tests::proofs::RefusalLaws::refused, tests::proofs::AcceptanceLaws::accepted, tests::proofs::LoadsApart::file_fits))]
pub fn read_shared(alloc: Global, file: &Shared) -> Result<ElfFile, ElfError>
    ensures read { IfOk result (λ f. IsReadAs file.now f) }
    ensures accepted { OnOk result (IsAccepted file.now) }
    ensures sound { IfOk result IsSound }
    ensures fit { IfOk result (λ f. AllFitMemory (load_segments f.segments)) }
    ensures apart { IfOk result (λ f. AreApart (load_segments f.segments)) }
    ensures refused { IfErr result (λ e. IsFileRefused file.now e ⊎ ((e ≡ error.Memory) × (read_verdict file.now ≡ Ok tt))) }
{
    let sound = sound(alloc, file.as_slice())?;
    Ok(elf_file(&sound, alloc, file)?)
}

/// The sections of the file that bytes are, if its parts lie in it as `read_elf` asks. The other rules and the limits
/// are not tested, and nothing else is read.
///
/// # Errors
///
/// The first rule on header, tables and parts that refuses the bytes; `Memory`.
pub fn read_sections(alloc: Global, bytes: &[u8]) -> Result<Vec<Section>, ElfError>
    ensures sections { IfOk result (λ v. v.items ≡ each (e_shnum bytes.now) (section_of bytes.now)) }
    ensures refused { IfErr result (λ e. (part_rules bytes.now ≡ Err e) ⊎ (e ≡ error.Memory)) }
{
    let parts = Parts::new(bytes)?;
    Ok(sections(&parts, alloc)?)
}
