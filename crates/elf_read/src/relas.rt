//! The rule on relocations, and the relocations.
ghost use Rattle.std.specs.Prelude.{◌≡◌, ◌<◌, ◌+◌, ◌*◌, ◌≤◌, ◌++◌, length, IfOk, OnOk};
ghost use Rattle.machine.specs.Below.{gather};
ghost use Rattle.tests.specs.Files.Header.{e_shnum};
ghost use Rattle.tests.specs.Files.Fields.{section_header, rela_entry};
ghost use Rattle.tests.specs.Files.Rules.{symbol_table, symbol_count, is_counted_section, rela_fault, rela_shape_rule};
ghost use Rattle.tests.specs.Files.File.{relas_of};

use crate::below::first_of;
use crate::fields::u64_at;
use crate::parts::Parts;
use crate::symbols::symbol_table;
use elf_types::abi::{RELA_SIZE, SYM_SIZE};
use elf_types::{ElfError, Rela, SectionHeader};
use std::alloc::{AllocError, Global};

#[tactic(auto, unfolding(tests::specs::Files::Fields::rela_entry))]
fn rela_at(table: &[u8], k: u64) -> Rela
    requires { 24 * k + 24 ≤ length table.now }
    ensures { result ≡ rela_entry table.now k }
{
    let at = RELA_SIZE as usize * k as usize;
    let info = u64_at(table, at + 8);
    Rela {
        place: u64_at(table, at),
        kind: (info % (1 << 32)) as u32,
        symbol: (info / (1 << 32)) as u32,
        addend: u64_at(table, at + 16).cast_signed(),
    }
}

// Whether the entries of a section are read: relocations of a section in memory, against the symbol table.
fn is_counted(file: &Parts, table: Option<u64>, s: SectionHeader) -> bool
    requires { table ≡ symbol_table file.now }
    ensures { result ≡ is_counted_section file.now s }
{
    if !s.is_rela_table() || u64::from(s.info) >= file.tables().shnum() {
        return false;
    }
    if !file.section(u64::from(s.info)).is_allocated() {
        return false;
    }
    match table {
        Some(i) => i == u64::from(s.link),
        None => false,
    }
}

#[tactic(auto, unfolding(tests::specs::Files::Rules::rela_fault))]
fn rela_fault(file: &Parts, table: Option<u64>, count: u64, i: u64) -> Option<u64>
    requires below { i < e_shnum file.now }
    requires symbols { table ≡ symbol_table file.now }
    requires count { count ≡ symbol_count file.now }
    ensures { result ≡ rela_fault file.now (section_header file.now i) }
{
    let s = file.section(i);
    if !is_counted(file, table, s) {
        return None;
    }
    if s.entsize != RELA_SIZE || s.size % RELA_SIZE != 0 {
        return Some(0);
    }
    let entries = file.section_bytes(s);
    first_of(
        s.size / RELA_SIZE,
        &|k| u64::from(rela_at(entries, k).symbol) >= count,
    )
}

/// Whether each counted section of relocations has entries, and each of these a symbol.
#[tactic(auto, unfolding(tests::specs::Files::Rules::rela_shape_rule, tests::specs::Files::Rules::symbol_count))]
pub fn check_rela_shape(file: &Parts) -> Result<(), ElfError>
    ensures { result ≡ rela_shape_rule file.now }
{
    let table = symbol_table(file);
    let count = match table {
        Some(i) => file.section(i).size / SYM_SIZE,
        None => 0,
    };
    match first_of(
        file.tables().shnum(),
        &|i| rela_fault(file, table, count, i).is_some(),
    ) {
        Some(i) => match rela_fault(file, table, count, i) {
            Some(k) => Err(ElfError::RelaShape(i, k)),
            None => Ok(()),
        },
        None => Ok(()),
    }
}

#[tactic(auto, unfolding(tests::specs::Files::File::relas_of), using(machine::proofs::BelowLaws::each_front, machine::proofs::BelowLaws::push_after))]
fn append_relas(
    file: &Parts,
    table: Option<u64>,
    out: &mut Vec<Rela>,
    i: u64,
) -> Result<(), AllocError>
    requires below { i < e_shnum file.now }
    requires symbols { table ≡ symbol_table file.now }
    ensures { OnOk result (out.new.items ≡ out.old.items ++ relas_of file.now (section_header file.now i)) }
{
    let s = file.section(i);
    if is_counted(file, table, s) {
        let entries = file.section_bytes(s);
        for k in 0..s.size / RELA_SIZE {
            out.push(rela_at(entries, k))?;
        }
    }
    Ok(())
}

/// The relocations of the counted sections, in order.
#[tactic(auto, using(machine::proofs::BelowLaws::gather_none, machine::proofs::BelowLaws::gather_more))]
pub fn relas(file: &Parts, alloc: Global) -> Result<Vec<Rela>, AllocError>
    ensures { IfOk result (λ v. v.items ≡ gather (e_shnum file.now) (λ i. relas_of file.now (section_header file.now i))) }
{
    let table = symbol_table(file);
    let mut out = Vec::new(alloc);
    for i in 0..file.tables().shnum() {
        append_relas(file, table, &mut out, i)?;
    }
    Ok(out)
}
