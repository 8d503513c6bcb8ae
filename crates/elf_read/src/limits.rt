//! The limits on a file.
ghost use Rattle.std.specs.Prelude.{◌≡◌, ◌<◌, ◌^◌, IfSome};
ghost use Rattle.tests.specs.Files.Header.{e_shnum};
ghost use Rattle.tests.specs.Files.Fields.{section_header};
ghost use Rattle.tests.specs.Files.Rules.{symbol_table, section_count_rule, symbol_name_bytes, byte_count_rule};

use crate::below::sum_of;
use crate::header::refuse;
use crate::parts::Parts;
use crate::sections::{section_name, section_strings};
use crate::segments::file_size;
use crate::symbols::{symbol_name, symbol_strings, symbol_table};
use elf_types::ElfError;
use elf_types::abi::SYM_SIZE;
use machine::limits::{MAX_COUNTED_BYTES, MAX_SECTIONS};
use std::alloc::Global;

/// Whether there are few enough sections.
#[tactic(auto, unfolding(tests::specs::Files::Rules::section_count_rule))]
pub fn check_section_count(file: &Parts) -> Result<(), ElfError>
    ensures { result ≡ section_count_rule file.now }
{
    let count = file.tables().shnum();
    refuse(ElfError::TooManySections(count), count > MAX_SECTIONS)
}

// The bytes of the symbols' names.
fn symbol_name_bytes(file: &Parts, alloc: Global) -> u128
    requires { IfSome (symbol_table file.now) (λ i. (section_header file.now i).link < e_shnum file.now) }
    ensures gives { result ≡ symbol_name_bytes file.now (symbol_table file.now) }
    ensures small { result < 2 ^ 126 }
{
    match symbol_table(file) {
        None => 0,
        Some(i) => {
            let strings = symbol_strings(file, alloc, i);
            let s = file.section(i);
            sum_of(
                s.size / SYM_SIZE,
                &|j| symbol_name(file, &strings, s, j).len() as u64,
            )
        }
    }
}

/// Whether there are few enough bytes of segments and names.
#[tactic(auto, unfolding(tests::specs::Files::Rules::byte_count_rule, tests::specs::Files::Rules::counted_bytes))]
pub fn check_byte_count(file: &Parts, alloc: Global) -> Result<(), ElfError>
    requires { IfSome (symbol_table file.now) (λ i. (section_header file.now i).link < e_shnum file.now) }
    ensures { result ≡ byte_count_rule file.now }
{
    let strings = section_strings(file, alloc);
    let segments = sum_of(file.tables().phnum(), &|i| file_size(file.program(i)));
    let sections = sum_of(
        file.tables().shnum(),
        &|i| section_name(file, &strings, i).len() as u64,
    );
    let count = segments + sections + symbol_name_bytes(file, alloc);
    let told = count.min(u128::from(u64::MAX)) as u64;
    refuse(
        ElfError::TooManyBytes(told),
        count > u128::from(MAX_COUNTED_BYTES),
    )
}
