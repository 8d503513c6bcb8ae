//! A line, and its answer.

use crate::bench::Bench;
use crate::calls::{call, start, tell_call};
use crate::devices::tell_machine;
use crate::digest::digest_of;
use crate::files::{first, with};
use crate::layer::tell_layer;
use crate::numbers::{bytes_of, records_of};
use std::alloc::{AllocError, Global};
use texts::number;

/// A file's size and digest.
fn show(alloc: Global, bench: &Bench, name: &str) -> Result<String, AllocError> {
    let Some(bytes) = bench.shelf.file(name) else {
        return String::from_str(alloc, "no file\n");
    };
    let digest = digest_of(alloc, bytes)?;
    format!(in alloc; "{digest}\n")
}

/// Appends bytes to a file, and makes the file if it is missing.
fn append(alloc: Global, bench: &mut Bench, name: &str, new: &[u8]) -> Result<bool, AllocError> {
    let old = bench.shelf.file(name).unwrap_or(&[]);
    let all = with(alloc, old, old.len(), new)?;
    bench.shelf.put_file(name, &all)?;
    Ok(true)
}

/// Appends numbers to a file, `width` bytes each.
fn put(
    alloc: Global,
    bench: &mut Bench,
    name: &str,
    width: usize,
    text: &str,
) -> Result<bool, AllocError> {
    match bytes_of(alloc, width, text)? {
        Some(new) => append(alloc, bench, name, &new),
        None => Ok(false),
    }
}

/// Appends a newline and a text to a file.
fn put_line(alloc: Global, bench: &mut Bench, name: &str, text: &str) -> Result<bool, AllocError> {
    append(alloc, bench, name, b"\n")?;
    append(alloc, bench, name, text.as_bytes())
}

/// Appends a number of records to a file.
fn put_records(
    alloc: Global,
    bench: &mut Bench,
    name: &str,
    rest: &str,
) -> Result<bool, AllocError> {
    let (count, text) = rest.split_once(' ').unwrap_or((rest, ""));
    let Some(count) = number(count.as_bytes()) else {
        return Ok(false);
    };
    match records_of(alloc, count, text)? {
        Some(new) => append(alloc, bench, name, &new),
        None => Ok(false),
    }
}

/// Sets bytes of a file from a place on.
fn set(alloc: Global, bench: &mut Bench, name: &str, rest: &str) -> Result<bool, AllocError> {
    let Some((at, text)) = rest.split_once(' ') else {
        return Ok(false);
    };
    let (Some(at), Some(new)) = (number(at.as_bytes()), bytes_of(alloc, 1, text)?) else {
        return Ok(false);
    };
    let Some(old) = bench.shelf.file(name) else {
        return Ok(false);
    };
    let all = with(alloc, old, at as usize, &new)?;
    bench.shelf.put_file(name, &all)?;
    Ok(true)
}

/// Keeps the first bytes of another file.
fn cut(alloc: Global, bench: &mut Bench, name: &str, rest: &str) -> Result<bool, AllocError> {
    let Some((from, count)) = rest.split_once(' ') else {
        return Ok(false);
    };
    let (Some(count), Some(old)) = (number(count.as_bytes()), bench.shelf.file(from)) else {
        return Ok(false);
    };
    let all = with(alloc, first(old, count as usize), usize::MAX, &[])?;
    bench.shelf.put_file(name, &all)?;
    Ok(true)
}

/// Plans a fault: `load N` or `store N KEEP` of the shelf, `write N` of the sink; or `most N`: a write's bytes.
fn plan(bench: &mut Bench, kind: &str, rest: &str) -> Result<bool, AllocError> {
    let (call, keep) = rest.split_once(' ').unwrap_or((rest, ""));
    let Some(call) = number(call.as_bytes()) else {
        return Ok(false);
    };
    match kind {
        "shelf" => bench.shelf.fail_call(call, number(keep.as_bytes()))?,
        "write" => bench.failing = Some(call),
        "most" => bench.most = Some(call),
        _ => return Ok(false),
    }
    Ok(true)
}

/// Does what a line of two words and a rest says. Returns whether the line could be read.
fn change(
    alloc: Global,
    bench: &mut Bench,
    what: &str,
    name: &str,
    rest: &str,
) -> Result<bool, AllocError> {
    match what {
        "bytes" => put(alloc, bench, name, 1, rest),
        "words" => put(alloc, bench, name, 4, rest),
        "longs" => put(alloc, bench, name, 8, rest),
        "records" => put_records(alloc, bench, name, rest),
        "set" => set(alloc, bench, name, rest),
        "cut" => cut(alloc, bench, name, rest),
        "text" => {
            bench.shelf.put_file(name, rest.as_bytes())?;
            Ok(true)
        }
        "line" => put_line(alloc, bench, name, rest),
        "fail" => plan(bench, name, rest),
        _ => Ok(false),
    }
}

/// The answer to a line about a file: nothing if it only changes the file.
fn tell_file(
    rt: &HostRuntime,
    bench: &mut Bench,
    what: &str,
    rest: &str,
) -> Result<String, AllocError> {
    let alloc = rt.alloc();
    if let Some(text) = tell_layer(alloc, bench, what, rest)? {
        return Ok(text);
    }
    if let Some(text) = tell_machine(rt, bench, what, rest)? {
        return Ok(text);
    }
    let (name, rest) = rest.split_once(' ').unwrap_or((rest, ""));
    if change(alloc, bench, what, name, rest)? {
        return Ok(String::new(alloc));
    }
    String::from_str(alloc, "cannot be read\n")
}

/// The answer to a line: nothing if it only changes files, else a text that ends in a newline.
pub(crate) fn tell(rt: &HostRuntime, bench: &mut Bench, line: &str) -> Result<String, AllocError> {
    let alloc = rt.alloc();
    if line.is_empty() || line.starts_with('#') {
        return Ok(String::new(alloc));
    }
    let (what, rest) = line.split_once(' ').unwrap_or((line, ""));
    match what {
        "shelf" => {
            *bench = Bench::new(alloc);
            Ok(String::new(alloc))
        }
        "qed" | "advice" | "digest" | "order" => tell_call(alloc, bench, what, rest),
        "alone" => call(alloc, bench, what, &[]),
        "arguments" | "unreadable" | "starved" => start(alloc, bench, what, rest),
        "show" => show(alloc, bench, rest),
        _ => tell_file(rt, bench, what, rest),
    }
}
