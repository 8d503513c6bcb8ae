//! A sink that keeps the first bytes that it hands on.
ghost use Rattle.std.specs.Prelude.{◌≡◌, ◌≤◌, length};

use qed_io::{Sink, WriteError};
use std::alloc::Global;

/// How many bytes are kept: more than `run` prints about its end and its registers.
const MOST_KEPT: usize = 1024;

/// A sink that hands its bytes on to another, and keeps the first of them.
#[derive(Drop)]
pub struct Heard<K: Sink + Drop> {
    pub sink: K,
    kept: Vec<u8>,
}

// Keeps as many of the bytes as there is room for.
fn keep(kept: &mut Vec<u8>, bytes: &[u8]) {
    for byte in bytes {
        if kept.len() >= MOST_KEPT || kept.push(*byte).is_err() {
            break;
        }
    }
}

impl<K: Sink + Drop> Heard<K> {
    /// A sink over another; it has kept nothing yet.
    pub fn over(alloc: Global, sink: K) -> Self
        ensures { result.sink ≡ sink }
    {
        Heard {
            sink,
            kept: Vec::new(alloc),
        }
    }

    /// The first bytes as a text; empty if they are none, or if memory ran out.
    pub fn text(&self) -> &str
        ensures { length result.now ≤ MOST_KEPT }
    {
        let front = self.kept.get(..MOST_KEPT).unwrap_or(&self.kept);
        str::from_utf8(front).unwrap_or("")
    }
}

impl<K: Sink + Drop> Sink for Heard<K> {
    ghost written = { λ s. K.written s.sink };

    ghost faults = { λ s. K.faults s.sink };

    ghost calls = { λ s. K.calls s.sink };

    fn write(&mut self, piece: &[u8]) -> Result<usize, WriteError> {
        let answer = self.sink.write(piece);
        if let Ok(taken) = &answer {
            if let Some(front) = piece.get(..*taken) {
                keep(&mut self.kept, front);
            }
        }
        answer
    }
}
