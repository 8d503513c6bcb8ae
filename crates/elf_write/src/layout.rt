//! Where the parts of the file stand.
ghost use Rattle.std.specs.Prelude.{◌≡◌, ◌+◌, ◌^◌, ◌<◌};
ghost use Rattle.tests.specs.Elf.Layout.{aligned as aligned_to_8};
ghost use Rattle.elf_write.specs.Places.{ArePlaces};

use crate::segments::end_from;
use crate::{sections, symbols};
use elf_types::OutFile;
use elf_types::abi::{EHDR_SIZE, PHDR_SIZE, SYM_SIZE};

/// The bytes of the names ".symtab", ".strtab" and ".shstrtab" with their zero bytes.
pub const TABLE_NAMES_SIZE: u128 = 26;

/// Where the parts behind the header stand, in bytes from the file's first.
#[derive(Clone, Copy)]
pub struct Places {
    /// The end of the program headers, from which on the bytes of segments are sought.
    pub start: u128,
    /// The own bytes of sections.
    pub own: u128,
    /// The end of those bytes.
    pub own_end: u128,
    /// The symbol table.
    pub symbols: u128,
    /// The names of symbols.
    pub strings: u128,
    /// The names of sections.
    pub names: u128,
    /// The end of those names.
    pub names_end: u128,
    /// The section headers.
    pub headers: u128,
}

/// The next multiple of 8.
fn aligned(at: u128) -> u128
    requires { at < 2 ^ 127 }
    ensures value { result ≡ aligned_to_8 at }
    ensures bound { result < at + 8 }
{
    (at + 7) / 8 * 8
}

/// The places of a file's parts.
#[tactic(auto, unfolding(tests::specs::Elf::Layout::own_place, tests::specs::Elf::Layout::symbols_place, tests::specs::Elf::Layout::strings_place, tests::specs::Elf::Layout::names_place, tests::specs::Elf::Layout::headers_place))]
pub fn places_of(file: &OutFile) -> Places
    ensures places { ArePlaces file.now result }
    ensures bound { result.headers < 2 ^ 127 }
{
    let sections = file.sections.as_slice();
    let symbols = file.symbols.as_slice();
    let segments = file.segments.as_slice();
    let start = EHDR_SIZE as u128 + PHDR_SIZE as u128 * segments.len() as u128;
    let own = end_from(start, segments);
    let own_end = own + sections::own_size(sections);
    let table = aligned(own_end);
    let strings = table + SYM_SIZE as u128 * (1 + symbols.len() as u128);
    let names = strings + 1 + symbols::names_size(symbols);
    let names_end = names + 1 + sections::names_size(sections) + TABLE_NAMES_SIZE;
    let headers = aligned(names_end);
    Places {
        start,
        own,
        own_end,
        symbols: table,
        strings,
        names,
        names_end,
        headers,
    }
}
