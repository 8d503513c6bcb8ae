//! What the lines of a file of rows share.

use qed_io::{MemoryShelf, MemorySink};
use std::alloc::{AllocError, Global};

/// A shelf, and how the sink of each call fails.
#[derive(Drop)]
pub struct Bench {
    pub shelf: MemoryShelf,
    /// The write that fails.
    pub failing: Option<u64>,
    /// How many bytes a write takes at most.
    pub most: Option<u64>,
}

impl Bench {
    /// An empty shelf, and sinks that do not fail.
    pub(crate) fn new(alloc: Global) -> Bench {
        Bench {
            shelf: MemoryShelf::new(alloc),
            failing: None,
            most: None,
        }
    }

    /// The sink of a call.
    pub(crate) fn sink(&self, alloc: Global) -> Result<MemorySink, AllocError> {
        let mut out = MemorySink::new(alloc);
        if let Some(call) = self.failing {
            out.fail_call(call)?;
        }
        if let Some(most) = self.most {
            out.take_most(most);
        }
        Ok(out)
    }
}
