//! Lines that make a call.

use crate::asked::words;
use crate::bench::Bench;
use crate::digest::digest_of;
use campaign::Silent;
use diagnose::{EndedCall, advice};
use qed_io::{Shelf, Sink};
use qed_top::{exit_code, qed};
use qed_words::order;
use std::alloc::{AllocError, Global};
use std::env::Args;
use std::io;
use std::io::{Error, ErrorKind};
use std::process::ExitCode;

/// What was printed, and an exit code.
pub(crate) fn printed(alloc: Global, out: &[u8], code: u8) -> Result<String, AllocError> {
    let text = str::from_utf8(out).unwrap_or("no text\n");
    format!(in alloc; "{text}= {code}\n")
}

/// Makes a call, and returns the exit code.
pub(crate) fn made<S: Shelf, K: Sink>(
    alloc: Global,
    words: &[String],
    shelf: &mut S,
    out: &mut K,
) -> u8 {
    qed(alloc, words, shelf, out, &mut Silent::new()).code()
}

/// Makes a call, and returns what a line asks for, with the exit code: the text on a terminal's
/// standard error, or the size and the digest of what the call prints, or all that it prints.
pub(crate) fn call(
    alloc: Global,
    bench: &mut Bench,
    what: &str,
    words: &[String],
) -> Result<String, AllocError> {
    let mut out = bench.sink(alloc)?;
    let code = made(alloc, words, &mut bench.shelf, &mut out);
    match what {
        "advice" => {
            let call = EndedCall {
                words,
                printed: str::from_utf8(out.bytes()).unwrap_or(""),
                reason: None,
            };
            advice(alloc, &call, true, &mut bench.shelf)
        }
        "digest" => {
            let text = digest_of(alloc, out.bytes())?;
            format!(in alloc; "{text}\n= {code}\n")
        }
        _ => printed(alloc, out.bytes(), code),
    }
}

/// What words ask for, as text.
fn ask(alloc: Global, words: &[String]) -> Result<String, AllocError> {
    let answer = order(alloc, words);
    format!(in alloc; "{answer:?}\n")
}

/// The answer to a line whose rest is the words of a call.
pub(crate) fn tell_call(
    alloc: Global,
    bench: &mut Bench,
    what: &str,
    rest: &str,
) -> Result<String, AllocError> {
    let words = words(alloc, rest)?;
    match what {
        "order" => ask(alloc, &words),
        _ => call(alloc, bench, what, &words),
    }
}

/// The number of an exit code from 0 to 7; else 255.
fn number_of(code: ExitCode) -> u8 {
    for number in 0..=7 {
        if code == ExitCode::from(number) {
            return number;
        }
    }
    u8::MAX
}

/// What the program prints and its exit code, if the machine passes it these arguments.
fn hand_over(
    alloc: Global,
    bench: &mut Bench,
    arguments: io::Result<Args>,
) -> Result<String, AllocError> {
    let mut out = bench.sink(alloc)?;
    let code = exit_code(
        alloc,
        arguments,
        &mut bench.shelf,
        &mut out,
        &mut Silent::new(),
    );
    printed(alloc, out.bytes(), number_of(code))
}

/// As `hand_over`, for the arguments of a line; the first is the program's name. `unreadable`
/// stands for arguments that cannot be read, `starved` for want of memory for them.
pub(crate) fn start(
    alloc: Global,
    bench: &mut Bench,
    what: &str,
    rest: &str,
) -> Result<String, AllocError> {
    let arguments = match what {
        "unreadable" => Err(Error::from(ErrorKind::InvalidData)),
        "starved" => Err(Error::from(ErrorKind::OutOfMemory)),
        _ if rest.is_empty() => Ok(Vec::new(alloc).into_iter()),
        _ => Ok(words(alloc, rest)?.into_iter()),
    };
    hand_over(alloc, bench, arguments)
}
