//! One word of new code: its line, its symbol, and if it is a check that fired what differed.
ghost use Rattle.std.specs.Prelude.{◌≡◌, ◌<◌, ◌++◌, None, IfOk, IsSome, OnOk};
ghost use Rattle.std.specs.Option.{option_copied};
ghost use Rattle.std.specs.Str.{is_utf8};
ghost use Rattle.listing.specs.Roles.{role_at as role_at_of, rows_bytes, input_address as input_address_of, is_telling as is_telling_of};
ghost use Rattle.listing.specs.Roles.{is_before as is_before_of, is_nearer as is_nearer_of, nearer as nearer_of, nearest as nearest_of, symbol_line};
ghost use Rattle.listing.specs.Roles.{symbol_text, fired_text, word_line as word_text_of};

use crate::Found;
use crate::roles::push_role_line;
use elf_types::{Bytes, Symbol};
use qed_model::{Role, RoleRow};
use std::alloc::{AllocError, Global};
use std::str;
use texts::{MOST_OF_NAME, printable};

/// EBREAK: a check that fires runs it.
const EBREAK: u32 = 0x0010_0073;

/// The role of the byte at an offset into rows; None behind their last byte.
pub fn role_at(rows: &[RoleRow], offset: u64) -> Option<Role>
    ensures role { result ≡ role_at_of rows.now offset }
    ensures some { offset < rows_bytes rows.now → IsSome result }
{
    let mut rest = offset;
    for row in rows {
        if rest < row.bytes {
            return Some(row.role);
        }
        rest -= row.bytes;
    }
    None
}

/// The input address that a role names; of a piece its first.
fn input_address(role: Role) -> Option<u64>
    ensures { result ≡ input_address_of role }
{
    match role {
        Role::Entry(at) | Role::Original(at) | Role::Mirror(at) | Role::Leave(at) => Some(at),
        Role::Guard(_, at) | Role::LeaveGuard(_, at) | Role::Tick(at) | Role::Sign(at) => Some(at),
        Role::Compare(_, first, _) | Role::Visit(first, _) => Some(first),
        _ => None,
    }
}

/// Whether a name is useful: not empty, and not that of a mapping symbol.
fn is_telling(name: &[u8]) -> bool
    ensures { result ≡ is_telling_of name.now }
{
    name.first().is_some_and(|first| *first != b'$')
}

/// Whether a symbol names code, has a useful name, and stands at an address or before it.
fn is_before(address: u64, symbol: &Symbol) -> bool
    ensures { result ≡ is_before_of address symbol.now }
{
    symbol.is_code() && symbol.value <= address && is_telling(symbol.name.as_slice())
}

/// Whether the bytes of a name are UTF-8.
fn is_text(name: &[u8]) -> bool
    ensures { result ≡ is_utf8 name.now }
{
    match str::from_utf8(name) {
        Ok(_) => true,
        Err(_) => false,
    }
}

/// Whether a symbol names an address better than another symbol before the address: it is nearer,
/// or both are at one address and only the other's name is not UTF-8.
fn is_nearer(other: &Symbol, symbol: &Symbol) -> bool
    ensures { result ≡ is_nearer_of other.now symbol.now }
{
    other.value < symbol.value
        || (other.value == symbol.value
            && !is_text(other.name.as_slice())
            && is_text(symbol.name.as_slice()))
}

/// The nearer of the nearest symbol so far and another; the first if both are.
fn nearer<'a>(address: u64, found: Option<&'a Symbol>, symbol: &'a Symbol) -> Option<&'a Symbol>
    ensures { option_copied result ≡ nearer_of address (option_copied found.entry) symbol.now }
{
    let is_one = is_before(address, symbol);
    match found {
        None => is_one.then_some(symbol),
        Some(other) => {
            if is_one && is_nearer(other, symbol) {
                Some(symbol)
            } else {
                Some(other)
            }
        }
    }
}

/// The nearest code symbol at an address or before it. Of several, the first with a UTF-8 name, or else the first.
pub fn nearest(address: u64, symbols: &[Symbol]) -> Option<&Symbol>
    ensures { option_copied result ≡ nearest_of address None symbols.now }
{
    let mut found = None;
    for symbol in symbols {
        found = nearer(address, found, symbol);
    }
    found
}

/// Appends the line of the symbol at the input address of a role or before it, if there is one.
fn push_symbol(
    alloc: Global,
    text: &mut Vec<u8>,
    role: Role,
    symbols: &[Symbol],
) -> Result<(), AllocError>
    ensures { OnOk result (text.new.items ≡ text.old.items ++ symbol_text (input_address_of role) symbols.now) }
{
    let Some(address) = input_address(role) else {
        return Ok(());
    };
    let Some(symbol) = nearest(address, symbols) else {
        return Ok(());
    };
    let name = printable(alloc, symbol.name.as_slice(), MOST_OF_NAME)?;
    let digits = format!(in alloc; "+0x{:01x}\n", address.saturating_sub(symbol.value))?;
    text.extend_from_slice(b"symbol ")?;
    text.extend_from_slice(name.as_bytes())?;
    text.extend_from_slice(digits.as_bytes())?;
    Ok(())
}

/// If the word is the EBREAK of a check, appends what the check has found if it fires.
fn push_fired(alloc: Global, text: &mut Vec<u8>, role: Role, word: u32) -> Result<(), AllocError>
    ensures { OnOk result (text.new.items ≡ text.old.items ++ fired_text role word) }
{
    if word != EBREAK {
        return Ok(());
    }
    if let Some(found) = Found::by(role) {
        text.extend_from_slice(format!(in alloc; "fired: {found}\n")?.as_bytes())?;
    }
    Ok(())
}

/// The line of a word of new code at an address, with its symbol, from the symbols of the input.
/// For a check it adds what differed if it fires.
pub fn word_text(
    alloc: Global,
    role: Role,
    address: u64,
    word: u32,
    symbols: &[Symbol],
) -> Result<Bytes, AllocError>
    ensures { IfOk result (λ text. text ≡ word_text_of role address word symbols.now) }
{
    let mut text = Vec::new(alloc);
    push_role_line(alloc, &mut text, &role, address, word)?;
    push_symbol(alloc, &mut text, role, symbols)?;
    push_fired(alloc, &mut text, role, word)?;
    Ok(Bytes::of(text))
}
