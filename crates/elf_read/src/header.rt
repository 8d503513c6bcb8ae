//! The rules on the header.
ghost use Rattle.std.specs.Prelude.{◌≡◌, ◌≤◌, ◌<◌, false, length, OnOk};
ghost use Rattle.tests.specs.Files.Header.{e_shnum};
ghost use Rattle.tests.specs.Files.Fields.{e_shstrndx};
ghost use Rattle.tests.specs.Files.Rules.{refuse, header_shape_rule, header_rules};

use crate::fields::{u16_at, u32_at, u64_at};
use elf_types::abi::{
    EHDR_SIZE, ELFCLASS64, ELFDATA2LSB, ELFMAG, EM_RISCV, ET_EXEC, EV_CURRENT, PHDR_SIZE, PN_XNUM,
    SHDR_SIZE,
};
use elf_types::{ElfError, Part};

/// A refusal where a test passes.
pub fn refuse(error: ElfError, test: bool) -> Result<(), ElfError>
    ensures gives { result ≡ refuse error test }
    ensures passed { OnOk result (test ≡ false) }
{
    if test {
        return Err(error);
    }
    Ok(())
}

#[tactic(auto, unfolding(tests::specs::Files::Rules::header_shape_rule))]
fn check_shape(bytes: &[u8]) -> Result<(), ElfError>
    requires { 64 ≤ length bytes.now }
    ensures gives { result ≡ header_shape_rule bytes.now }
    ensures names { OnOk result (0 < e_shnum bytes.now → e_shstrndx bytes.now < e_shnum bytes.now) }
{
    let phnum = u16_at(bytes, 56);
    let shnum = u16_at(bytes, 60);
    let holds = u16_at(bytes, 52) == EHDR_SIZE
        && (phnum == 0 || u16_at(bytes, 54) == PHDR_SIZE)
        && (shnum == 0 || u16_at(bytes, 58) == SHDR_SIZE)
        && phnum != PN_XNUM
        && (shnum > 0 || u64_at(bytes, 40) == 0)
        && (shnum == 0 || u16_at(bytes, 62) < shnum);
    refuse(ElfError::HeaderShape, !holds)
}

/// All rules on the header, in order.
#[tactic(auto, unfolding(tests::specs::Files::Rules::header_rules, tests::specs::Files::Rules::magic_rule, tests::specs::Files::Rules::header_rule, tests::specs::Files::Rules::class_rule, tests::specs::Files::Rules::encoding_rule, tests::specs::Files::Rules::version_rule, tests::specs::Files::Rules::file_type_rule, tests::specs::Files::Rules::machine_rule))]
pub fn check_header(bytes: &[u8]) -> Result<(), ElfError>
    ensures gives { result ≡ header_rules bytes.now }
    ensures room { OnOk result (64 ≤ length bytes.now) }
    ensures names { OnOk result (0 < e_shnum bytes.now → e_shstrndx bytes.now < e_shnum bytes.now) }
{
    refuse(
        ElfError::Magic,
        bytes.len() < 4 || u32_at(bytes, 0) != ELFMAG,
    )?;
    refuse(ElfError::OutOfFile(Part::Header), bytes.len() < 64)?;
    refuse(ElfError::Class(bytes[4]), bytes[4] != ELFCLASS64)?;
    refuse(ElfError::Encoding(bytes[5]), bytes[5] != ELFDATA2LSB)?;
    let ident = bytes[6];
    refuse(ElfError::Version(u32::from(ident)), ident != EV_CURRENT)?;
    let version = u32_at(bytes, 20);
    refuse(ElfError::Version(version), version != u32::from(EV_CURRENT))?;
    let kind = u16_at(bytes, 16);
    refuse(ElfError::FileType(kind), kind != ET_EXEC)?;
    let machine = u16_at(bytes, 18);
    refuse(ElfError::Machine(machine), machine != EM_RISCV)?;
    check_shape(bytes)?;
    Ok(())
}
