//! A file whose header and tables lie in it.
ghost use Rattle.std.specs.Prelude.{◌≡◌, ◌<◌, List, ℕ, Ok, Err, IfOk, IfErr, OnOk};
ghost use Rattle.tests.specs.Files.Header.{e_entry, e_flags, e_phnum, e_shnum};
ghost use Rattle.tests.specs.Files.Fields.{e_shstrndx, program_header, section_header, HasTables};
ghost use Rattle.tests.specs.Files.Rules.{table_rules, is_past, is_segment_outside, segment_place_rule, is_section_outside, section_place_rule};

use crate::below::first_of;
use crate::fields::{u16_at, u32_at, u64_at};
use crate::header::check_header;
use elf_types::abi::{PHDR_SIZE, SHDR_SIZE};
use elf_types::{ElfError, Part, ProgramHeader, SectionHeader};
use std::marker::Model;

/// The bytes of a file whose header and tables lie in it.
#[derive(Drop)]
pub struct Tables<'a> {
    bytes: &'a [u8],
}

impl<'a> Model for Tables<'a> {
    ghost Value = { List ℕ };

    ghost view = { λ t. t.bytes.now };

    ghost invariant = { λ t. HasTables t.bytes.now };
}

impl<'a> Tables<'a> {
    /// The file, where its header and tables are as they should.
    #[tactic(auto, unfolding(tests::specs::Files::Rules::table_rules, tests::specs::Files::Rules::program_table_rule, tests::specs::Files::Rules::section_table_rule))]
    pub fn new(bytes: &'a [u8]) -> Result<Tables<'a>, ElfError>
        ensures same { IfOk result (λ t. t ≡ bytes.now) }
        ensures accepted { OnOk result (table_rules bytes.now ≡ Ok tt) }
        ensures refused { IfErr result (λ e. table_rules bytes.now ≡ Err e) }
    {
        check_header(bytes)?;
        let len = bytes.len() as u128;
        let phnum = u128::from(u16_at(bytes, 56));
        if phnum > 0 && u128::from(u64_at(bytes, 32)) + u128::from(PHDR_SIZE) * phnum > len {
            return Err(ElfError::OutOfFile(Part::ProgramTable));
        }
        let shnum = u128::from(u16_at(bytes, 60));
        if shnum > 0 && u128::from(u64_at(bytes, 40)) + u128::from(SHDR_SIZE) * shnum > len {
            return Err(ElfError::OutOfFile(Part::SectionTable));
        }
        Ok(Tables { bytes })
    }

    pub fn bytes(&self) -> &'a [u8]
        ensures { result.now ≡ self.now }
    {
        self.bytes
    }

    pub fn entry(&self) -> u64
        ensures { result ≡ e_entry self.now }
    {
        u64_at(self.bytes, 24)
    }

    pub fn flags(&self) -> u32
        ensures { result ≡ e_flags self.now }
    {
        u32_at(self.bytes, 48)
    }

    /// The number of program headers.
    pub fn phnum(&self) -> u64
        ensures gives { result ≡ e_phnum self.now }
        ensures small { result < 65536 }
    {
        u64::from(u16_at(self.bytes, 56))
    }

    /// The number of section headers.
    pub fn shnum(&self) -> u64
        ensures gives { result ≡ e_shnum self.now }
        ensures small { result < 65536 }
    {
        u64::from(u16_at(self.bytes, 60))
    }

    /// The number of the section with the names of the sections, or 0.
    pub fn shstrndx(&self) -> u64
        ensures gives { result ≡ e_shstrndx self.now }
        ensures below { 0 < e_shnum self.now → result < e_shnum self.now }
    {
        u64::from(u16_at(self.bytes, 62))
    }

    /// A program header.
    #[tactic(auto, unfolding(tests::specs::Files::Fields::program_header))]
    pub fn program(&self, i: u64) -> ProgramHeader
        requires { i < e_phnum self.now }
        ensures { result ≡ program_header self.now i }
    {
        let at = u64_at(self.bytes, 32) as usize + usize::from(PHDR_SIZE) * i as usize;
        ProgramHeader {
            kind: u32_at(self.bytes, at),
            flags: u32_at(self.bytes, at + 4),
            offset: u64_at(self.bytes, at + 8),
            vaddr: u64_at(self.bytes, at + 16),
            filesz: u64_at(self.bytes, at + 32),
            memsz: u64_at(self.bytes, at + 40),
        }
    }

    /// A section header.
    #[tactic(auto, unfolding(tests::specs::Files::Fields::section_header))]
    pub fn section(&self, i: u64) -> SectionHeader
        requires { i < e_shnum self.now }
        ensures { result ≡ section_header self.now i }
    {
        let at = u64_at(self.bytes, 40) as usize + usize::from(SHDR_SIZE) * i as usize;
        SectionHeader {
            name: u32_at(self.bytes, at),
            kind: u32_at(self.bytes, at + 4),
            flags: u64_at(self.bytes, at + 8),
            addr: u64_at(self.bytes, at + 16),
            offset: u64_at(self.bytes, at + 24),
            size: u64_at(self.bytes, at + 32),
            link: u32_at(self.bytes, at + 40),
            info: u32_at(self.bytes, at + 44),
            entsize: u64_at(self.bytes, at + 56),
        }
    }

    fn is_past(&self, place: u64, size: u64) -> bool
        ensures { result ≡ is_past self.now place size }
    {
        u128::from(place) + u128::from(size) > self.bytes.len() as u128
    }

    /// Whether the segments lie in the file.
    #[tactic(auto, unfolding(tests::specs::Files::Rules::segment_place_rule, tests::specs::Files::Rules::is_segment_outside))]
    pub fn check_segments(&self) -> Result<(), ElfError>
        ensures { result ≡ segment_place_rule self.now }
    {
        match first_of(
            self.phnum(),
            &|i| {
                let p = self.program(i);
                p.is_load() && p.filesz > 0 && self.is_past(p.offset, p.filesz)
            },
        ) {
            Some(i) => Err(ElfError::OutOfFile(Part::Segment(i))),
            None => Ok(()),
        }
    }

    /// Whether the sections lie in the file.
    #[tactic(auto, unfolding(tests::specs::Files::Rules::section_place_rule, tests::specs::Files::Rules::is_section_outside))]
    pub fn check_sections(&self) -> Result<(), ElfError>
        ensures { result ≡ section_place_rule self.now }
    {
        match first_of(
            self.shnum(),
            &|i| {
                let s = self.section(i);
                s.has_bytes() && self.is_past(s.offset, s.size)
            },
        ) {
            Some(i) => Err(ElfError::OutOfFile(Part::Section(i))),
            None => Ok(()),
        }
    }
}
