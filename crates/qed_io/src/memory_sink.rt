//! A sink in memory whose calls fail as planned.
ghost use Rattle.std.specs.Prelude.{◌≡◌, ◌<◌, ◌↔◌, ℕ, [], ◌∷◌, ◌++◌, Some, None, OnOk, OnErr, IfOk, IsErrOf, length, take, Contains};
ghost use Rattle.qed_io.specs.Counts.{counted_up};
ghost use Rattle.qed_io.specs.Memory.{bytes_taken};
ghost use Rattle.qed_io.specs.Sink.{Writes};

use crate::memory_shelf::first_bytes;
use crate::{Sink, WriteError};
use std::alloc::{AllocError, Global};
use std::marker::Model;

/// Bytes in memory. The writes that `fail_call` names fail, and `take_most` bounds what each of the others takes.
///
/// Writes are counted from 0. The number stays at 2^64 - 1 once it is there.
#[derive(Drop)]
pub struct MemorySink {
    taken: Vec<u8>,
    failing: Vec<u64>,
    most: Option<u64>,
    calls: u64,
    faults: u64,
}

impl Model for MemorySink {
    ghost use Rattle.qed_io.specs.Memory.{SinkState};

    ghost Value = { SinkState };

    ghost view = { λ s. record { bytes = s.taken.items; failing = s.failing.items; most = s.most; calls = s.calls; faults = s.faults } };
}

impl MemorySink {
    /// Nothing written, no faults, no call that is to fail, and no bound on what a write takes.
    pub fn new(alloc: Global) -> Self
        ensures { result ≡ record { bytes = []; failing = []; most = None; calls = 0; faults = 0 } }
    {
        MemorySink {
            taken: Vec::new(alloc),
            failing: Vec::new(alloc),
            most: None,
            calls: 0,
            faults: 0,
        }
    }

    /// Lets the write with this number fail.
    pub fn fail_call(&mut self, call: u64) -> Result<(), AllocError>
        ensures ok { OnOk result (self.new ≡ record self.old { failing = self.old.failing ++ call ∷ [] }) }
        ensures err { OnErr result (self.new ≡ self.old) }
    {
        self.failing.push(call)?;
        Ok(())
    }

    /// Lets each later write take at most n bytes. With 0 a write of a piece that is not empty takes nothing, which
    /// is a fault. This takes no memory.
    pub fn take_most(&mut self, n: u64)
        ensures { self.new ≡ record self.old { most = Some n } }
    {
        self.most = Some(n);
    }

    /// The bytes that were written.
    pub fn bytes(&self) -> &[u8]
        ensures { result.now ≡ self.now.bytes }
    {
        &self.taken
    }
}

// What a write takes of a piece.
fn front(piece: &[u8], most: Option<u64>) -> &[u8]
    ensures { result.now ≡ take (bytes_taken most (length piece.now)) piece.now }
{
    match most {
        Some(most) => first_bytes(piece, most),
        None => piece,
    }
}

impl Sink for MemorySink {
    ghost written = { λ s. Some s.bytes };

    ghost faults = { λ s. s.faults };

    ghost calls = { λ s. s.calls };

    fn write(&mut self, piece: &[u8]) -> Result<usize, WriteError>
        ensures writes { Writes (Some self.old.bytes) (Some self.new.bytes) self.old.faults self.new.faults self.old.calls self.new.calls piece.now result }

        // It fails exactly where the call was planned to, and else takes the whole piece, or as much as it may.
        ensures fails { IsErrOf result WriteError.Failed ↔ Contains self.old.failing self.old.calls }
        ensures taken { IfOk result (λ n. n ≡ bytes_taken self.old.most (length piece.now)) }

        // Either fault counts one. Every other call counts none, by what a write of any sink does.
        ensures counted { IsErrOf result WriteError.Failed → self.new.faults ≡ counted_up self.old.faults }
        ensures stuck { IfOk result (λ n. n ≡ 0 → 0 < length piece.now → self.new.faults ≡ counted_up self.old.faults) }

        ensures calls { self.new.calls ≡ counted_up self.old.calls }
        ensures plans { self.new.failing ≡ self.old.failing }
        ensures bound { self.new.most ≡ self.old.most }
    {
        let call = self.calls;
        self.calls = call.saturating_add(1);
        if self.failing.contains(&call) {
            self.faults = self.faults.saturating_add(1);
            return Err(WriteError::Failed);
        }
        let front = front(piece, self.most);
        if front.is_empty() && !piece.is_empty() {
            self.faults = self.faults.saturating_add(1);
            return Ok(0);
        }
        self.taken.extend_from_slice(front)?;
        Ok(front.len())
    }
}
