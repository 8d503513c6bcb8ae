//! The symbol table and its string table.
ghost use Rattle.std.specs.Prelude.{◌≡◌, ◌+◌, ◌^◌, ◌<◌, ◌≤◌, ◌++◌, OnOk, All, length, [], ◌∷◌};
ghost use Rattle.machine.specs.declared.limits.Limit.TheVariants as limit;
ghost use Rattle.machine.specs.Limits.{limit_of};
ghost use Rattle.tests.specs.Elf.Layout.{names_bytes, symbol_names, symbols_bytes, symbol_entries, first_global as first_global_from, IsSymbol};
ghost use Rattle.elf_write.specs.Widths.{SymbolFits};

use crate::records::symbol_bytes;
use elf_types::{Symbol, SymbolEntry};
use std::alloc::AllocError;

/// The entry of the null symbol.
const NULL: SymbolEntry = SymbolEntry {
    name: 0,
    info: 0,
    other: 0,
    index: 0,
    value: 0,
    size: 0,
};

/// The bytes of the symbols' names, each with its zero byte.
pub fn names_size(symbols: &[Symbol]) -> u128
    ensures value { result ≡ length (names_bytes (symbol_names symbols.now)) }
    ensures bound { result < 2 ^ 122 }
{
    let mut size: u128 = 0;
    for symbol in symbols {
        size += symbol.name.as_slice().len() as u128 + 1;
    }
    size
}

/// Appends the entries of the null symbol and of the given ones, whose names stand from the offset 1 of the string
/// table on.
pub fn push_symbols(out: &mut Vec<u8>, symbols: &[Symbol]) -> Result<(), AllocError>
    requires symbols { All IsSymbol symbols.now }
    requires size { length (names_bytes (symbol_names symbols.now)) ≤ limit_of limit.CountedBytes }
    ensures bytes { OnOk result (out.new.items ≡ out.old.items ++ symbols_bytes (symbol_entries symbols.now)) }
    ensures fits { OnOk result (All SymbolFits symbols.now) }
{
    out.extend_from_slice(&symbol_bytes(NULL))?;
    let mut name: u32 = 1;
    for symbol in symbols {
        let (value, size, other, index) = (symbol.value, symbol.size, symbol.other, symbol.index);
        let info = 16 * symbol.binding + symbol.kind;
        out.extend_from_slice(&symbol_bytes(SymbolEntry {
            name,
            info,
            other,
            index,
            value,
            size,
        }))?;
        name += symbol.name.as_slice().len() as u32 + 1;
    }
    Ok(())
}

/// Appends the names of the symbols, each with a zero byte.
pub fn push_symbol_names(out: &mut Vec<u8>, symbols: &[Symbol]) -> Result<(), AllocError>
    ensures { OnOk result (out.new.items ≡ out.old.items ++ names_bytes (symbol_names symbols.now)) }
{
    for symbol in symbols {
        push_name(out, symbol.name.as_slice())?;
    }
    Ok(())
}

/// Appends a name with a zero byte.
pub fn push_name(out: &mut Vec<u8>, name: &[u8]) -> Result<(), AllocError>
    ensures { OnOk result (out.new.items ≡ out.old.items ++ names_bytes (name.now ∷ [])) }
{
    out.extend_from_slice(name)?;
    out.push(0)?;
    Ok(())
}

/// The number of the first symbol that is not STB_LOCAL, or the number of symbols; the null symbol counts.
pub fn first_global(symbols: &[Symbol]) -> u64
    ensures value { result ≡ first_global_from 1 symbols.now }
    ensures bound { result ≤ length symbols.now + 1 }
{
    let mut number = 1;
    for symbol in symbols {
        if !symbol.is_local() {
            return number;
        }
        number += 1;
    }
    number
}
