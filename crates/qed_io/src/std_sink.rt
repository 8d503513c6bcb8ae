//! Standard output, and any other writer of std as a sink.
ghost use Rattle.std.specs.Prelude.{◌≡◌, ◌≢◌, IsErrOf};
ghost use Rattle.qed_io.specs.Counts.{counted_up};
ghost use Rattle.qed_io.specs.Sink.{Writes};

use crate::streams::write_once;
use crate::{Sink, WriteError};
use std::io;
use std::io::{Printer, Write};

/// The bytes of a writer of std, which contracts see where the writer tells them.
///
/// Its count of faults goes up exactly where a write fails, or takes nothing of a piece that is not empty.
#[derive(Drop)]
pub struct WriterSink<W: Write + Drop> {
    pub writer: W,
    pub faults: u64,
    /// Why the last write that failed did, as the machine says.
    pub last_error: Option<io::Error>,
}

/// Standard output. Contracts do not see what was written: that the bytes of a write come out is trusted.
pub type StdSink<'a, P> = WriterSink<Printer<'a, P>>;

impl<'a, P: Print> WriterSink<Printer<'a, P>> {
    /// A sink with no faults over what the program is given for output.
    pub fn new(output: &'a P) -> Self
        ensures { result.faults ≡ 0 }
    {
        WriterSink::over(io::writer(output))
    }
}

impl<W: Write + Drop> WriterSink<W> {
    /// A sink with no faults over a writer.
    pub fn over(writer: W) -> Self
        ensures writer { result.writer ≡ writer }
        ensures faults { result.faults ≡ 0 }
    {
        WriterSink {
            writer,
            faults: 0,
            last_error: None,
        }
    }
}

impl<W: Write + Drop> Sink for WriterSink<W> {
    ghost written = { λ s. W.contents s.writer };

    ghost faults = { λ s. s.faults };

    ghost calls = { λ _. 0 };

    fn write(&mut self, piece: &[u8]) -> Result<usize, WriteError>
        ensures writes { Writes (W.contents self.old.writer) (W.contents self.new.writer) self.old.faults self.new.faults 0 0 piece.now result }
        // An error is a fault, and the only one.
        ensures failed { IsErrOf result WriteError.Failed → self.new.faults ≡ counted_up self.old.faults }
        ensures memory { result ≢ Err WriteError.Memory }
    {
        match write_once(&mut self.writer, piece) {
            Ok(taken) => {
                if taken == 0 && !piece.is_empty() {
                    self.faults = self.faults.saturating_add(1);
                }
                Ok(taken)
            }
            Err(error) => {
                self.last_error = Some(error);
                self.faults = self.faults.saturating_add(1);
                Err(WriteError::Failed)
            }
        }
    }
}
