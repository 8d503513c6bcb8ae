//! Lines over the machine's own files, and over shelves and sinks of other kinds.

use crate::asked::words;
use crate::bench::Bench;
use crate::calls::{made, printed};
use qed_io::{DirShelf, NeverShelf, NeverSink, WriterSink};
use std::alloc::{AllocError, Global};
use std::io::{Error, ErrorKind, Write};
use std::os::unix::fs::symlink;
use std::{fs, io};
use texts::number;

/// A writer that takes at most two bytes at once, says once that a signal came, and has room for a number of bytes.
#[derive(Drop)]
struct Narrow {
    taken: Vec<u8>,
    room: usize,
    is_interrupted: bool,
}

impl Write for Narrow {
    fn write(&mut self, buf: &[u8]) -> io::Result<usize> {
        if self.is_interrupted {
            self.is_interrupted = false;
            return Err(Error::from(ErrorKind::Interrupted));
        }
        if self.taken.len() >= self.room {
            return Err(Error::from(ErrorKind::StorageFull));
        }
        let count = buf.len().min(2);
        self.taken.extend_from_slice(&buf[..count])?;
        Ok(count)
    }

    fn flush(&mut self) -> io::Result<()> {
        Ok(())
    }
}

/// Does what the words behind a number ask for, and prints it to a narrow writer with room for that many bytes.
fn print_narrow(alloc: Global, bench: &mut Bench, line: &str) -> Result<String, AllocError> {
    let (room, rest) = line.split_once(' ').unwrap_or((line, ""));
    let mut out = WriterSink::over(Narrow {
        taken: Vec::new(alloc),
        room: number(room.as_bytes()).unwrap_or(0) as usize,
        is_interrupted: true,
    });
    let words = words(alloc, rest)?;
    let code = made(alloc, &words, &mut bench.shelf, &mut out);
    printed(alloc, &out.writer.taken, code)
}

/// Does what words ask for over a shelf and a sink that never fail, with the files of the bench that the words name.
fn never(alloc: Global, bench: &Bench, line: &str) -> Result<String, AllocError> {
    let words = words(alloc, line)?;
    let mut shelf = NeverShelf::new(alloc);
    for word in &words {
        if let Some(bytes) = bench.shelf.file(word.as_str()) {
            shelf.put_file(word.as_str(), bytes)?;
        }
    }
    let mut out = NeverSink::new(alloc);
    let code = made(alloc, &words, &mut shelf, &mut out);
    printed(alloc, out.bytes(), code)
}

/// Does what words ask for over the machine's files.
fn disk(rt: &HostRuntime, bench: &Bench, line: &str) -> Result<String, AllocError> {
    let alloc = rt.alloc();
    let mut out = bench.sink(alloc)?;
    let mut shelf = DirShelf::new(alloc, rt);
    let words = words(alloc, line)?;
    let code = made(alloc, &words, &mut shelf, &mut out);
    printed(alloc, out.bytes(), code)
}

/// Moves a file between the bench and the machine, or links one of its names to another. Returns whether it did.
fn place(rt: &HostRuntime, bench: &mut Bench, what: &str, rest: &str) -> Result<bool, AllocError> {
    match what {
        "put" => match bench.shelf.file(rest) {
            Some(bytes) => Ok(fs::write(rt, rest, bytes).is_ok()),
            None => Ok(false),
        },
        "take" => match fs::read(rt, rest) {
            Ok(bytes) => {
                bench.shelf.put_file(rest, &bytes)?;
                Ok(true)
            }
            Err(_) => Ok(false),
        },
        _ => match rest.split_once(' ') {
            Some((name, target)) => Ok(symlink(rt, target, name).is_ok()),
            None => Ok(false),
        },
    }
}

/// What is printed about a file that is moved or linked.
fn move_file(
    rt: &HostRuntime,
    bench: &mut Bench,
    what: &str,
    rest: &str,
) -> Result<String, AllocError> {
    let answer = if place(rt, bench, what, rest)? {
        ""
    } else {
        "not done\n"
    };
    String::from_str(rt.alloc(), answer)
}

/// What stands under one of the machine's names.
fn kind(rt: &HostRuntime, name: &str) -> &'static str {
    match fs::symlink_metadata(rt, name) {
        Ok(found) if found.is_symlink() => "link\n",
        Ok(_) => "file\n",
        Err(_) => "nothing\n",
    }
}

/// The answer to a line about the machine's files, or about other shelves and sinks; None for any other line.
pub(crate) fn tell_machine(
    rt: &HostRuntime,
    bench: &mut Bench,
    what: &str,
    rest: &str,
) -> Result<Option<String>, AllocError> {
    let alloc = rt.alloc();
    let text = match what {
        "disk" => disk(rt, bench, rest)?,
        "never" => never(alloc, bench, rest)?,
        "narrow" => print_narrow(alloc, bench, rest)?,
        "kind" => String::from_str(alloc, kind(rt, rest))?,
        "put" | "take" | "link" => move_file(rt, bench, what, rest)?,
        _ => return Ok(None),
    };
    Ok(Some(text))
}
