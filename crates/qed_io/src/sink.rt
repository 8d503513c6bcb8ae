//! A sink takes bytes in their order.
ghost use Rattle.std.specs.Prelude.{◌≡◌, ◌≢◌, ◌≤◌, List, ℕ, Option, OnOk, OnErr, IsErrOf, length};
ghost use Rattle.std.specs.Io.KnownBytes.{Appends};
ghost use Rattle.qed_io.specs.declared.sink.WriteError.TheVariants.{Memory};
ghost use Rattle.qed_io.specs.Counts.{Rose};
ghost use Rattle.qed_io.specs.Sink.{Writes, RoseByAtMost, AppendsPrefix};

use std::alloc::AllocError;
use thiserror::Error;

/// Why bytes were not written.
#[derive(Clone, Copy, Debug, Error)]
pub enum WriteError {
    /// The bytes could not be written. The sink's count of faults rose in the call.
    #[error("the bytes could not be written")]
    Failed,
    /// Memory ran out.
    #[error("out of memory")]
    Memory,
}

impl From<AllocError> for WriteError {
    ghost from_gives = { λ _ e. e ≡ Memory };

    fn from(_: AllocError) -> Self {
        WriteError::Memory
    }
}

/// What takes bytes in their order, as a terminal does.
///
/// Its count of faults never falls, a write that is a fault raises it, unless it stands at 2^64 - 1 already, and every
/// other write leaves it as it was.
pub trait Sink {
    /// The bytes that were written, where the sink tells them. One that tells them once tells them after each call.
    ghost written: { Self → Option (List ℕ) };

    /// How often a write has failed, or has taken nothing of a piece that is not empty.
    ghost faults: { Self → ℕ };

    /// How many writes were made, where the sink tells it. One that does not keeps it as it is.
    ghost calls: { Self → ℕ };

    /// Appends the first bytes of the piece, and answers how many, from 0 to its length. None of a piece that is
    /// not empty is a fault.
    ///
    /// Errors: `Failed` only with a fault of this write, and `Memory`. After either nothing was appended.
    fn write(&mut self, piece: &[u8]) -> Result<usize, WriteError>
        ensures { Writes (written self.old) (written self.new) (faults self.old) (faults self.new) (calls self.old) (calls self.new) piece.now result };
}

/// Appends all the bytes, in at most as many writes as there are bytes.
///
/// Errors: `Failed` only where the sink's count of faults rose in this call, and `Memory`, where it stays as it was.
/// After either a prefix of the bytes was appended, and not all of them.
pub fn put_all<K: Sink>(out: &mut K, bytes: &[u8]) -> Result<(), WriteError>
    ensures all { OnOk result (Appends (K.written out.old) (K.written out.new) bytes.now) }
    ensures part { OnErr result (AppendsPrefix (K.written out.old) (K.written out.new) bytes.now) }
    ensures failed { IsErrOf result WriteError.Failed → Rose (K.faults out.old) (K.faults out.new) }
    ensures steady { result ≢ Err WriteError.Failed → K.faults out.new ≡ K.faults out.old }
    ensures none_fell { K.faults out.old ≤ K.faults out.new }
    ensures calls { RoseByAtMost (length bytes.now) (K.calls out.old) (K.calls out.new) }
{
    let mut rest = bytes;
    for _ in 0..bytes.len() {
        if rest.is_empty() {
            break;
        }
        let taken = out.write(rest)?;
        if taken == 0 {
            return Err(WriteError::Failed);
        }
        rest = rest.split_at(taken).1;
    }
    Ok(())
}
