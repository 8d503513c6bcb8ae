//! The rule on sections, and their names.
ghost use Rattle.std.specs.Prelude.{◌≡◌, ◌<◌};
ghost use Rattle.tests.specs.Files.Header.{e_shnum};
ghost use Rattle.tests.specs.Files.Rules.{section_strings, section_name, is_section_misshapen, section_shape_rule};

use crate::below::first_of;
use crate::parts::Parts;
use crate::strings::Strings;
use elf_types::ElfError;
use std::alloc::Global;

/// The string table of the sections.
#[tactic(auto, unfolding(tests::specs::Files::Rules::section_strings))]
pub fn section_strings<'a>(file: &Parts<'a>, alloc: Global) -> Strings<'a>
    ensures { 0 < e_shnum file.now → result ≡ section_strings file.now }
{
    let at = file.tables().shstrndx();
    if file.tables().shnum() == 0 || at == 0 {
        return Strings::new(alloc, &[]);
    }
    Strings::new(alloc, file.section_bytes(file.section(at)))
}

#[tactic(auto, unfolding(tests::specs::Files::Rules::is_section_misshapen, tests::specs::Files::Rules::section_strings))]
fn is_section_misshapen(file: &Parts, strings: &Strings, i: u64) -> bool
    requires below { i < e_shnum file.now }
    requires names { strings.now ≡ section_strings file.now }
    ensures { result ≡ is_section_misshapen file.now i }
{
    let s = file.section(i);
    if s.is_allocated() && u128::from(s.addr) + u128::from(s.size) > 1 << 64 {
        return true;
    }
    let at = file.tables().shstrndx();
    if at == 0 {
        return false;
    }
    if !file.section(at).is_string_table() {
        return i == at;
    }
    strings.is_unended(s.name)
}

/// Whether each section ends at 2^64 or before and has a name, where the file names sections.
#[tactic(auto, unfolding(tests::specs::Files::Rules::section_shape_rule))]
pub fn check_section_shape(file: &Parts, alloc: Global) -> Result<(), ElfError>
    ensures { result ≡ section_shape_rule file.now }
{
    let strings = section_strings(file, alloc);
    match first_of(
        file.tables().shnum(),
        &|i| is_section_misshapen(file, &strings, i),
    ) {
        Some(i) => Err(ElfError::SectionShape(i)),
        None => Ok(()),
    }
}

/// The name of a section; where the file names no sections it is empty.
#[tactic(auto, unfolding(tests::specs::Files::Rules::section_name))]
pub fn section_name<'a>(file: &Parts<'a>, strings: &Strings<'a>, i: u64) -> &'a [u8]
    requires below { i < e_shnum file.now }
    requires names { strings.now ≡ section_strings file.now }
    ensures { result.now ≡ section_name file.now i }
{
    strings.name(file.section(i).name)
}
