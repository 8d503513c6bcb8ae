//! The rule on symbols, and their table.
ghost use Rattle.std.specs.Prelude.{◌≡◌, false, ◌<◌, ◌+◌, ◌*◌, ◌/◌, ◌≤◌, length, IfSome, OnOk};
ghost use Rattle.tests.specs.Files.Header.{e_shnum};
ghost use Rattle.tests.specs.Files.Fields.{section_header, symbol_entry};
ghost use Rattle.tests.specs.Files.Rules.{is_section_outside, symbol_table, section_bytes, strings_of, symbols_rule, symbol_shape_rule, symbol_name};

use crate::below::first_of;
use crate::fields::{u16_at, u32_at, u64_at};
use crate::parts::Parts;
use crate::strings::Strings;
use elf_types::abi::{SHT_SYMTAB, SYM_SIZE};
use elf_types::{ElfError, SectionHeader, SymbolEntry};
use std::alloc::Global;

/// An entry of a symbol table.
#[tactic(auto, unfolding(tests::specs::Files::Fields::symbol_entry))]
pub fn entry_at(table: &[u8], j: u64) -> SymbolEntry
    requires { 24 * j + 24 ≤ length table.now }
    ensures { result ≡ symbol_entry table.now j }
{
    let at = SYM_SIZE as usize * j as usize;
    SymbolEntry {
        name: u32_at(table, at),
        info: table[at + 4],
        other: table[at + 5],
        index: u16_at(table, at + 6),
        value: u64_at(table, at + 8),
        size: u64_at(table, at + 16),
    }
}

/// Where the name of a symbol begins. Its other fields are not read.
#[tactic(auto, unfolding(tests::specs::Files::Fields::symbol_entry))]
fn name_at(table: &[u8], j: u64) -> u32
    requires { 24 * j + 24 ≤ length table.now }
    ensures { result ≡ (symbol_entry table.now j).name }
{
    u32_at(table, SYM_SIZE as usize * j as usize)
}

/// The number of the first symbol table.
#[tactic(auto, unfolding(tests::specs::Files::Rules::symbol_table))]
pub fn symbol_table(file: &Parts) -> Option<u64>
    ensures found { result ≡ symbol_table file.now }
    ensures below { IfSome result (λ i. i < e_shnum file.now) }
    ensures kind { IfSome result (λ i. (section_header file.now i).kind ≡ SHT_SYMTAB) }
{
    first_of(
        file.tables().shnum(),
        &|i| file.section(i).is_symbol_table(),
    )
}

/// Whether the first symbol table has entries and a string table, and each symbol a name.
#[tactic(auto, unfolding(tests::specs::Files::Rules::symbol_shape_rule, tests::specs::Files::Rules::symbols_rule, tests::specs::Files::Rules::is_misnamed, tests::specs::Files::Rules::strings_of))]
pub fn check_symbol_shape(file: &Parts, alloc: Global) -> Result<(), ElfError>
    ensures gives { result ≡ symbol_shape_rule file.now }
    ensures links { OnOk result (IfSome (symbol_table file.now) (λ i. (section_header file.now i).link < e_shnum file.now)) }
{
    let i = match symbol_table(file) {
        Some(i) => i,
        None => return Ok(()),
    };
    let s = file.section(i);
    if s.entsize != SYM_SIZE
        || s.size % SYM_SIZE != 0
        || u64::from(s.link) >= file.tables().shnum()
    {
        return Err(ElfError::SymbolShape(0));
    }
    let linked = file.section(u64::from(s.link));
    if !linked.is_string_table() {
        return Err(ElfError::SymbolShape(0));
    }
    let strings = Strings::new(alloc, file.section_bytes(linked));
    let table = file.section_bytes(s);
    match first_of(
        s.size / SYM_SIZE,
        &|j| j > 0 && strings.is_unended(name_at(table, j)),
    ) {
        Some(j) => Err(ElfError::SymbolShape(j)),
        None => Ok(()),
    }
}

/// The string table of the symbol table at a number.
#[tactic(auto, unfolding(tests::specs::Files::Rules::strings_of))]
pub fn symbol_strings<'a>(file: &Parts<'a>, alloc: Global, i: u64) -> Strings<'a>
    requires below { i < e_shnum file.now }
    requires link { (section_header file.now i).link < e_shnum file.now }
    ensures { result ≡ strings_of file.now (section_header file.now i) }
{
    let s = file.section(i);
    Strings::new(alloc, file.section_bytes(file.section(u64::from(s.link))))
}

/// The name of a symbol of a table; that of the null symbol is empty.
#[tactic(auto, unfolding(tests::specs::Files::Rules::symbol_name))]
pub fn symbol_name<'a>(
    file: &Parts<'a>,
    strings: &Strings<'a>,
    s: SectionHeader,
    j: u64,
) -> &'a [u8]
    requires inside { is_section_outside file.now s ≡ false }
    requires kind { s.kind ≡ SHT_SYMTAB }
    requires names { strings.now ≡ strings_of file.now s }
    requires entry { j < s.size / 24 }
    ensures { result.now ≡ symbol_name file.now s j }
{
    if j == 0 {
        return &[];
    }
    strings.name(name_at(file.section_bytes(s), j))
}
