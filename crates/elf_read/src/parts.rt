//! A file whose parts lie in it.
ghost use Rattle.std.specs.Prelude.{◌≡◌, ◌<◌, false, true, length, List, ℕ, Ok, Err, IfOk, IfErr, OnOk};
ghost use Rattle.elf_types.specs.Section.{has_bytes};
ghost use Rattle.tests.specs.Files.Header.{e_phnum, e_shnum};
ghost use Rattle.tests.specs.Files.Fields.{program_header, section_header};
ghost use Rattle.tests.specs.Files.Rules.{HasParts, part_rules, is_segment_outside, is_section_outside, section_bytes};

use crate::tables::Tables;
use elf_types::{ElfError, ProgramHeader, SectionHeader};
use std::marker::Model;

/// The bytes of a file whose parts lie in it.
#[derive(Drop)]
pub struct Parts<'a> {
    tables: Tables<'a>,
}

impl<'a> Model for Parts<'a> {
    ghost Value = { List ℕ };

    ghost view = { λ p. p.tables };

    ghost invariant = { λ p. HasParts p.tables };
}

impl<'a> Parts<'a> {
    /// The file, where header, tables, segments and sections lie in it.
    #[tactic(auto, unfolding(tests::specs::Files::Rules::part_rules), using(tests::proofs::RefusalLaws::are_inside))]
    pub fn new(bytes: &'a [u8]) -> Result<Parts<'a>, ElfError>
        ensures same { IfOk result (λ p. p ≡ bytes.now) }
        ensures accepted { OnOk result (part_rules bytes.now ≡ Ok tt) }
        ensures refused { IfErr result (λ e. part_rules bytes.now ≡ Err e) }
    {
        let tables = Tables::new(bytes)?;
        tables.check_segments()?;
        tables.check_sections()?;
        Ok(Parts { tables })
    }

    /// The header and the tables.
    pub fn tables(&self) -> &Tables<'a>
        ensures { result.now ≡ self.now }
    {
        &self.tables
    }

    /// A program header, whose segment lies in the file.
    pub fn program(&self, i: u64) -> ProgramHeader
        requires { i < e_phnum self.now }
        ensures gives { result ≡ program_header self.now i }
        ensures inside { is_segment_outside self.now result ≡ false }
    {
        self.tables.program(i)
    }

    /// A section header, whose section lies in the file.
    pub fn section(&self, i: u64) -> SectionHeader
        requires { i < e_shnum self.now }
        ensures gives { result ≡ section_header self.now i }
        ensures inside { is_section_outside self.now result ≡ false }
    {
        self.tables.section(i)
    }

    /// The bytes of a section; where its type is `SHT_NULL` or `SHT_NOBITS` there are none.
    #[tactic(auto, unfolding(tests::specs::Files::Rules::section_bytes, tests::specs::Files::Rules::is_section_outside))]
    pub fn section_bytes(&self, s: SectionHeader) -> &'a [u8]
        requires { is_section_outside self.now s ≡ false }
        ensures gives { result.now ≡ section_bytes self.now s }
        ensures whole { has_bytes s ≡ true → length result.now ≡ s.size }
    {
        if !s.has_bytes() {
            return &[];
        }
        let start = s.offset as usize;
        let bytes = self.tables.bytes();
        &bytes[start..start + s.size as usize]
    }
}
