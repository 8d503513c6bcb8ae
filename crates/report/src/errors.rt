//! What is printed if a file is refused, or could not be read.
ghost use Rattle.std.specs.Prelude.{◌≡◌, ◌≢◌, Some, IfOk, OnOk, string_bytes};
ghost use Rattle.qed_words.specs.Text.Errors.{part_line, error_line};
ghost use Rattle.qed_words.specs.Text.Plan.{read_fault_line};

use crate::limits::limit_line;
use crate::lines::numbered;
use elf_types::{Bytes, ElfError, Part};
use qed_model::Limit;
use std::alloc::{AllocError, Global};

/// The line about a part that ends past the end of its file.
fn part_text(alloc: Global, part: Part) -> Result<String, AllocError>
    ensures { IfOk result (λ text. string_bytes text ≡ part_line part) }
{
    match part {
        Part::Header => String::from_str(alloc, "refused E8: header\n"),
        Part::ProgramTable => String::from_str(alloc, "refused E8: program table\n"),
        Part::SectionTable => String::from_str(alloc, "refused E8: section table\n"),
        Part::Segment(i) => numbered(alloc, "refused E8: segment ", i),
        Part::Section(i) => numbered(alloc, "refused E8: section ", i),
    }
}

/// The line about a file that is not read. For want of memory it fails.
pub fn error_text(alloc: Global, error: ElfError) -> Result<Bytes, AllocError>
    ensures text { IfOk result (λ text. text ≡ error_line error) }
    ensures memory { OnOk result (error ≢ ElfError.Memory) }
{
    let line = match error {
        ElfError::Magic => String::from_str(alloc, "refused E1: magic\n")?,
        ElfError::Class(n) => numbered(alloc, "refused E2: class ", u64::from(n))?,
        ElfError::Encoding(n) => numbered(alloc, "refused E3: encoding ", u64::from(n))?,
        ElfError::Version(n) => numbered(alloc, "refused E4: version ", u64::from(n))?,
        ElfError::FileType(n) => numbered(alloc, "refused E5: type ", u64::from(n))?,
        ElfError::Machine(n) => numbered(alloc, "refused E6: machine ", u64::from(n))?,
        ElfError::HeaderShape => String::from_str(alloc, "refused E7: header shape\n")?,
        ElfError::OutOfFile(part) => part_text(alloc, part)?,
        ElfError::SegmentShape(i) => numbered(alloc, "refused E9: segment ", i)?,
        ElfError::SegmentOverlap(i, j) => {
            format!(in alloc; "refused E10: segments {i} and {j}\n")?
        }
        ElfError::SectionShape(i) => numbered(alloc, "refused E11: section ", i)?,
        ElfError::SymbolShape(j) => numbered(alloc, "refused E12: symbol ", j)?,
        ElfError::RelaShape(i, j) => format!(in alloc; "refused E13: section {i}, entry {j}\n")?,
        ElfError::TooManySections(n) => limit_line(alloc, Limit::Sections, u128::from(n))?,
        ElfError::TooManyBytes(n) => limit_line(alloc, Limit::CountedBytes, u128::from(n))?,
        ElfError::Memory => return Err(AllocError),
    };
    Ok(Bytes::of(line.into_bytes()))
}

/// The line about a file that could not be read.
pub fn read_fault_text(alloc: Global) -> Result<Bytes, AllocError>
    ensures { IfOk result (λ text. text ≡ read_fault_line) }
{
    Bytes::copied(alloc, b"read fault\n")
}
