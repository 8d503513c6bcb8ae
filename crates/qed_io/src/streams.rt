//! Whole files through std's readers and writers, whose bytes contracts can name. The shelf over the machine's files
//! is made of these steps.
ghost use Rattle.std.specs.Prelude.{◌≡◌, ◌≢◌, ◌≤◌, IfOk, IfSome, OnOk, OnErr, IfErr, IsErrOf, length, take};
ghost use Rattle.std.specs.IoError.{error_kind};
ghost use Rattle.std.specs.Io.KnownBytes.{Appends, Keeps};
ghost use Rattle.qed_io.specs.Counts.{counted_up};
ghost use Rattle.qed_io.specs.Streams.{load_error_of, within_limit, LoadsHeld, StoresHeld, StoresHeldPart};

use crate::{LoadError, Sink, StoreError, put_all};
use elf_types::Bytes;
use std::alloc::Global;
use std::io;
use std::io::{Error, ErrorKind, Read, Write};

/// What a load answers for an error of the machine, which is kept: `Memory` exactly for want of memory, else `Failed`.
fn load_error(error: Error, last_error: &mut Option<Error>) -> LoadError
    ensures { result ≡ load_error_of (error_kind error) }
{
    *last_error = Some(error);
    match error.kind() {
        ErrorKind::OutOfMemory => LoadError::Memory,
        _ => LoadError::Failed,
    }
}

/// The first bytes that a reader has left, at most `most`.
fn read_start<R: Read + Drop>(reader: R, alloc: Global, most: u64) -> io::Result<Vec<u8>>
    ensures { IfOk result (λ bytes. IfSome (R.remaining reader) (λ held. bytes.items ≡ take most held)) }
{
    let mut bytes = Vec::new(alloc);
    reader.take(most).read_to_end(&mut bytes)?;
    Ok(bytes)
}

/// What a load answers where it read on to one byte behind the limit.
fn within(
    read: io::Result<Vec<u8>>,
    limit: u64,
    last_error: &mut Option<Error>,
) -> Result<Bytes, LoadError>
    ensures { result ≡ within_limit limit read }
{
    match read {
        Ok(bytes) => {
            if bytes.len() as u64 > limit {
                return Err(LoadError::TooLong);
            }
            Ok(Bytes::of(bytes))
        }
        Err(error) => Err(load_error(error, last_error)),
    }
}

/// Loads a file that was opened, and counts a fault exactly if it answers `Failed`. The machine's error is kept. It
/// reads one byte past the limit, which shows a longer file, and no more of it.
///
/// Errors: `TooLong` only if the file has more bytes than the limit, and `Failed` or `Memory` as the machine says.
pub(crate) fn load_opened<R: Read + Drop>(
    opened: io::Result<R>,
    alloc: Global,
    limit: u64,
    faults: &mut u64,
    last_error: &mut Option<Error>,
) -> Result<Bytes, LoadError>
    ensures held { LoadsHeld R.remaining opened limit result }
    ensures unopened { IfErr opened (λ error. result ≡ Err (load_error_of (error_kind error))) }
    ensures failed { IsErrOf result LoadError.Failed → faults.new ≡ counted_up faults.old }
    ensures steady { result ≢ Err LoadError.Failed → faults.new ≡ faults.old }
    ensures not_fell { faults.old ≤ faults.new }
{
    let loaded = match opened {
        Ok(file) => within(
            read_start(file, alloc, limit.saturating_add(1)),
            limit,
            last_error,
        ),
        Err(error) => Err(load_error(error, last_error)),
    };
    if let Err(LoadError::Failed) = &loaded {
        *faults = faults.saturating_add(1);
    }
    loaded
}

/// One write, made again where a signal interrupts it.
pub(crate) fn write_once<W: Write>(out: &mut W, piece: &[u8]) -> io::Result<usize>
    ensures bound { IfOk result (λ n. n ≤ length piece.now) }
    ensures took { IfOk result (λ n. Appends (W.contents out.old) (W.contents out.new) (take n piece.now)) }
    ensures nothing { OnErr result (Keeps (W.contents out.old) (W.contents out.new)) }
{
    for _ in 0..u64::MAX {
        match out.write(piece) {
            Ok(taken) => return Ok(taken),
            Err(error) => {
                if error.kind() != ErrorKind::Interrupted {
                    return Err(error);
                }
            }
        }
    }
    Err(Error::from(ErrorKind::TimedOut))
}

/// Stores bytes in a file that was made or emptied, and counts a fault exactly where it answers `Failed`. The file is a
/// sink, as any writer of std is one.
///
/// Errors: `Failed` alone, where the file could not be opened or not be written to its end. A part of it may be
/// written by then, which `Memory` would deny, whatever the machine's error was.
pub(crate) fn store_opened<K: Sink>(
    opened: &mut io::Result<K>,
    bytes: &[u8],
    faults: &mut u64,
) -> Result<(), StoreError>
    ensures stored { OnOk result (StoresHeld K.written opened.old opened.new bytes.now) }
    ensures part { OnErr result (StoresHeldPart K.written opened.old opened.new bytes.now) }
    ensures failed { OnErr result ((result ≡ Err StoreError.Failed) × (faults.new ≡ counted_up faults.old)) }
    ensures steady { OnOk result (faults.new ≡ faults.old) }
    ensures not_fell { faults.old ≤ faults.new }
{
    let written = match opened {
        Ok(file) => put_all(file, bytes).is_ok(),
        Err(_) => false,
    };
    if written {
        return Ok(());
    }
    *faults = faults.saturating_add(1);
    Err(StoreError::Failed)
}
