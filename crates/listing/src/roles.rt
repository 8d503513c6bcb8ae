//! The words of new code with their roles.
ghost use Rattle.std.specs.Prelude.{◌≡◌, ◌+◌, ◌*◌, ◌^◌, ◌<◌, ◌++◌, Some, IfOk, OnOk, length};
ghost use Rattle.listing.specs.Roles.{role_text as role_text_of, role_line, words_lines, role_lines, rows_bytes};

use elf_types::Bytes;
use qed_model::{Role, RoleRow};
use rv_text::{Address, text_of};
use std::alloc::{AllocError, Global};
use std::fmt;

/// The role of a word, as text.
#[derive(Clone, Copy)]
struct RoleText(Role);

impl fmt::Display for RoleText {
    ghost output = { λ r. Some (role_text_of r.0) };

    fn fmt<W: fmt::Write>(&self, f: &mut fmt::Formatter<W>) -> fmt::Result {
        match self.0 {
            Role::Start => write!(f, "start"),
            Role::Entry(at) => write!(f, "entry {}", Address(at)),
            Role::Original(at) => write!(f, "original {}", Address(at)),
            Role::Mirror(at) => write!(f, "mirror {}", Address(at)),
            Role::Guard(r, at) => write!(f, "guard x{} {}", r.number(), Address(at)),
            Role::Compare(r, first, last) => {
                let (first, last) = (Address(first), Address(last));
                write!(f, "compare x{} {first}..{last}", r.number())
            }
            Role::Visit(first, last) => { write!(f, "visit {}..{}", Address(first), Address(last)) }
            Role::Leave(at) => write!(f, "leave {}", Address(at)),
            Role::LeaveGuard(r, at) => write!(f, "leave guard x{} {}", r.number(), Address(at)),
            Role::Sweep => write!(f, "sweep"),
            Role::End(r) => write!(f, "compare x{} end", r.number()),
            Role::Stub => write!(f, "stub"),
            Role::Tick(at) => write!(f, "tick {}", Address(at)),
            Role::Check => write!(f, "check"),
            Role::CheckCompare(r) => write!(f, "compare x{} check", r.number()),
            Role::CheckVisit => write!(f, "visit check"),
            Role::LookUp => write!(f, "look-up"),
            Role::Sign(at) => write!(f, "signature {}", Address(at)),
        }
    }
}

/// Appends the line of a word.
#[tactic(auto, unfolding(crate::specs::Roles::role_line))]
pub(crate) fn push_role_line(
    alloc: Global,
    text: &mut Vec<u8>,
    role: &Role,
    address: u64,
    word: u32,
) -> Result<(), AllocError>
    ensures { OnOk result (text.new.items ≡ text.old.items ++ role_line role.now address word) }
{
    let instruction = text_of(alloc, word)?;
    let place = format!(in alloc; " # {} {}\n", Address(address), RoleText(*role))?;
    text.extend_from_slice(instruction.as_slice())?;
    text.extend_from_slice(place.as_bytes())?;
    Ok(())
}

/// Appends the lines of words of one role, the first at address `first`.
fn push_role_words(
    alloc: Global,
    text: &mut Vec<u8>,
    role: &Role,
    words: &[u32],
    first: u64,
) -> Result<(), AllocError>
    requires { first + 4 * length words.now < 2 ^ 64 }
    ensures { OnOk result (text.new.items ≡ text.old.items ++ words_lines role.now words.now first) }
{
    let mut at = first;
    for word in words {
        push_role_line(alloc, text, role, at, *word)?;
        at += 4;
    }
    Ok(())
}

/// The words of new code from an address on, a line each, with their roles, from rows of words of one role.
pub fn role_text(
    alloc: Global,
    rows: &[RoleRow],
    words: &[u32],
    base: u64,
) -> Result<Bytes, AllocError>
    requires { base + rows_bytes rows.now < 2 ^ 64 }
    ensures { IfOk result (λ text. text ≡ role_lines rows.now words.now base) }
{
    let mut text = Vec::new(alloc);
    let mut rest = words;
    let mut at = base;
    for row in rows {
        let count = (row.bytes / 4).min(rest.len() as u64);
        let (list, more) = rest.split_at(count as usize);
        push_role_words(alloc, &mut text, &row.role, list, at)?;
        rest = more;
        at += row.bytes;
    }
    Ok(Bytes::of(text))
}
