//! The addresses that symbols and relocations name.
ghost use Rattle.std.specs.Prelude.{◌≡◌, ◌==◌, ◌&&◌, OnOk};
ghost use Rattle.std.specs.List.{list_any};
ghost use Rattle.tests.specs.Admission.Terms.{is_code_symbol, is_code_relocation, relocated, is_named, is_relocated};
ghost use Rattle.machine.specs.Numbers.{is_at};
ghost use Rattle.flow_recovery.specs.Sets.{Adds};

use crate::sets::add;
use elf_types::{Rela, Symbol};
use std::alloc::AllocError;

/// Adds the value of a symbol of code.
fn add_symbol(list: &mut Vec<u64>, symbol: &Symbol) -> Result<(), AllocError>
    ensures { OnOk result (Adds list.old.items list.new.items (λ a. is_code_symbol symbol.now && symbol.now.value == a)) }
{
    if symbol.is_code() {
        add(list, symbol.value)?;
    }
    Ok(())
}

/// Adds the values of the symbols of code.
pub fn add_symbols(list: &mut Vec<u64>, symbols: &[Symbol]) -> Result<(), AllocError>
    ensures { OnOk result (Adds list.old.items list.new.items (is_named symbols.now)) }
{
    for symbol in symbols {
        add_symbol(list, symbol)?;
    }
    Ok(())
}

/// Whether a relocation may hold a code address, by its type: R_RISCV_32, 64, BRANCH, JAL, CALL, CALL_PLT, PCREL_HI20,
/// HI20, LO12_I and LO12_S (RISC-V psABI, relocations).
fn is_code_relocation(rela: &Rela) -> bool
    ensures { result ≡ is_code_relocation rela.now }
{
    matches!(rela.kind, 1 | 2 | 16 | 17 | 18 | 19 | 23 | 26 | 27 | 28)
}

/// The value of the relocation's symbol plus its addend, modulo 2^64, if it has a symbol.
fn relocated(symbols: &[Symbol], rela: &Rela) -> Option<u64>
    ensures { result ≡ relocated symbols.now rela.now }
{
    let symbol = symbols.get(rela.symbol as usize)?;
    Some(symbol.value.wrapping_add(rela.addend.cast_unsigned()))
}

/// Adds the value of a relocation of code.
fn add_relocation(list: &mut Vec<u64>, symbols: &[Symbol], rela: &Rela) -> Result<(), AllocError>
    ensures { OnOk result (Adds list.old.items list.new.items (λ a. is_code_relocation rela.now && is_at (relocated symbols.now rela.now) a)) }
{
    if !is_code_relocation(rela) {
        return Ok(());
    }
    if let Some(address) = relocated(symbols, rela) {
        add(list, address)?;
    }
    Ok(())
}

/// Adds the values of the relocations of code.
pub fn add_relocations(
    list: &mut Vec<u64>,
    symbols: &[Symbol],
    relas: &[Rela],
) -> Result<(), AllocError>
    ensures { OnOk result (Adds list.old.items list.new.items (is_relocated symbols.now relas.now)) }
{
    for rela in relas {
        add_relocation(list, symbols, rela)?;
    }
    Ok(())
}
