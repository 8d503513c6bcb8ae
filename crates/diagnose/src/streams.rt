//! What the program prints on standard error.

use crate::answers::{EndedCall, advice, path, push_reason};
use qed_io::{DirShelf, MemoryShelf};
use qed_words::{Name, Order, order};
use std::alloc::{AllocError, Global};
use std::fs;
use std::io::{Eprint, Error, IsTerminal};
use std::process::ExitCode;
use std::rt::Files;

/// The file that an order stores.
fn stored(order: &Order) -> Option<&Name> {
    match order {
        Order::Transform(_, name, _) | Order::Gen(name, _, _) | Order::Asm(_, name) => Some(name),
        _ => None,
    }
}

/// That a file or a text could not be written, and the machine's reason.
fn unwritten(
    alloc: Global,
    call: &EndedCall<'_>,
    print: Option<Error>,
) -> Result<String, AllocError> {
    let Ok(asked) = order(alloc, call.words) else {
        return Ok(String::new(alloc));
    };
    let (what, reason) = match stored(&asked) {
        Some(name) if call.reason.is_some() => (path(alloc, name.as_str())?, call.reason),
        _ => (String::from_str(alloc, "standard output")?, print),
    };
    let mut text = format!(in alloc; "qed: {what} could not be written")?;
    push_reason(alloc, &mut text, reason)?;
    Ok(text)
}

/// Whether a word names a pipe or a device, which must not be read again.
fn has_pipe<R: Files>(rt: &R, words: &[String]) -> bool {
    for word in words {
        if let Ok(found) = fs::metadata(rt, word.as_str()) {
            if !found.is_file() && !found.is_dir() {
                return true;
            }
        }
    }
    false
}

/// The text about a call.
fn text_of_call<R: Files + Alloc<A = Global>>(
    rt: &R,
    call: &EndedCall<'_>,
    on_terminal: bool,
) -> Result<String, AllocError> {
    let alloc = rt.alloc();
    if has_pipe(rt, call.words) {
        let mut none = MemoryShelf::new(alloc);
        return advice(alloc, call, on_terminal, &mut none);
    }
    let mut files = DirShelf::new(alloc, rt);
    advice(alloc, call, on_terminal, &mut files)
}

/// Prints on standard error why a call that ended with this code failed, by what it printed and the
/// machine's reasons for files and standard output. If printing fails, nothing changes.
pub fn complain<R: Files + Alloc<A = Global>, E: Eprint + IsTerminal>(
    rt: &R,
    err: &E,
    call: &EndedCall<'_>,
    code: &ExitCode,
    print: Option<Error>,
) {
    let alloc = rt.alloc();
    let text = if *code == ExitCode::from(6) {
        unwritten(alloc, call, print)
    } else if *code == ExitCode::from(7) {
        String::from_str(alloc, "qed: there was no memory\n")
    } else {
        text_of_call(rt, call, err.is_terminal())
    };
    if let Ok(text) = text {
        let _ = err.eprint(text);
    }
}
