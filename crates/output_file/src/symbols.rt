//! The symbols of the output.
ghost use Rattle.std.specs.Prelude.{◌≡◌, List, ◌++◌, ◌&&◌, not, filter, if◌then◌else◌, OnOk, IfOk};
ghost use Rattle.qed_model.specs.declared.plan.EntryRow.{EntryRow};
ghost use Rattle.qed_model.specs.Weave.OutputParts.{is_kept as is_kept_of, is_local as is_local_of, valued as valued_of, out_symbol as out_symbol_of};
ghost use Rattle.qed_model.specs.Weave.OutputParts.{symbol_group, out_symbols};
ghost use Rattle.qed_model.specs.Weave.Placed.{entry_at as entry_at_of, EntriesAscend};
ghost use Rattle.output_file.specs.Sizes.{symbols_room};

use elf_types::Symbol;
use elf_types::abi::{SHN_ABS, STT_FUNC};
use qed_model::EntryRow;
use std::alloc::{AllocError, Global};

/// Whether a symbol is named and defined, and its type is `STT_NOTYPE`, `STT_OBJECT` or `STT_FUNC`:
/// at most the last of them.
fn is_kept(symbol: &Symbol) -> bool
    ensures { result ≡ is_kept_of symbol.now }
{
    symbol.name.as_slice().len() > 0 && symbol.is_defined() && symbol.kind <= STT_FUNC
}

/// The bytes that an output's symbols take in its file, with their names; `symbols` are those of its input.
#[tactic(auto, using(crate::proofs::Rooms::out_room))]
pub fn symbols_size(symbols: &[Symbol]) -> u128
    ensures { (rows : List EntryRow) → result ≡ symbols_room (out_symbols rows symbols.now) }
{
    kept_size(symbols)
}

/// The bytes that the kept symbols take, with their names.
fn kept_size(symbols: &[Symbol]) -> u128
    ensures { result ≡ symbols_room (filter is_kept_of symbols.now) }
{
    let mut size: u128 = 0;
    for symbol in symbols {
        if is_kept(symbol) {
            size += 25 + symbol.name.as_slice().len() as u128;
        }
    }
    size
}

/// Whether a symbol is kept, and is local if `local` is set, else not.
fn is_in_group(local: bool, symbol: &Symbol) -> bool
    ensures { result ≡ (is_kept_of symbol.now && (if local then is_local_of symbol.now else not (is_local_of symbol.now))) }
{
    is_kept(symbol) && symbol.is_local() == local
}

/// The new address of an input address that has an entry. The row behind the last find comes first,
/// since symbols often stand in the order of their addresses. Nothing depends on that.
#[tactic(auto, using(crate::proofs::Finding::rows_ascend, crate::proofs::Finding::entry_near, crate::proofs::Finding::entry_here, crate::proofs::Finding::entry_past, crate::proofs::Finding::entry_other))]
fn entry_at(entries: &[EntryRow], next: &mut usize, address: u64) -> Option<u64>
    ensures { EntriesAscend entries.now → result ≡ entry_at_of entries.now address }
{
    let near = *next;
    if near < entries.len() && entries[near].input == address {
        *next = near + 1;
        return Some(entries[near].output);
    }
    let place = entries.partition_point(|row| row.input < address);
    if place < entries.len() && entries[place].input == address {
        *next = place + 1;
        return Some(entries[place].output);
    }
    None
}

/// The symbol with a value and a size, and no section.
fn valued(symbol: &Symbol, value: u64, size: u64) -> Result<Symbol, AllocError>
    ensures { IfOk result (λ s. s ≡ valued_of symbol.now value size) }
{
    Ok(Symbol {
        name: symbol.name.clone()?,
        value,
        size,
        kind: symbol.kind,
        binding: symbol.binding,
        other: symbol.other,
        index: SHN_ABS,
    })
}

/// The symbol at its new address, if it has one.
fn out_symbol(entries: &[EntryRow], next: &mut usize, symbol: &Symbol) -> Result<Symbol, AllocError>
    ensures { IfOk result (λ s. EntriesAscend entries.now → s ≡ out_symbol_of entries.now symbol.now) }
{
    let entry = if symbol.may_name_code() {
        entry_at(entries, next, symbol.value)
    } else {
        None
    };
    match entry {
        Some(address) => valued(symbol, address, 0),
        None => valued(symbol, symbol.value, symbol.size),
    }
}

/// Appends the local symbols, or the others.
fn push_group(
    out: &mut Vec<Symbol>,
    local: bool,
    entries: &[EntryRow],
    symbols: &[Symbol],
) -> Result<(), AllocError>
    ensures { OnOk result (EntriesAscend entries.now → out.new.items ≡ out.old.items ++ symbol_group local entries.now symbols.now) }
{
    let mut next = 0;
    for symbol in symbols {
        if is_in_group(local, symbol) {
            out.push(out_symbol(entries, &mut next, symbol)?)?;
        }
    }
    Ok(())
}

/// The symbols: the local ones first.
pub fn symbols(
    alloc: Global,
    entries: &[EntryRow],
    symbols: &[Symbol],
) -> Result<Vec<Symbol>, AllocError>
    ensures { IfOk result (λ out. EntriesAscend entries.now → out.items ≡ out_symbols entries.now symbols.now) }
{
    let mut out = Vec::new(alloc);
    push_group(&mut out, true, entries, symbols)?;
    push_group(&mut out, false, entries, symbols)?;
    Ok(out)
}
