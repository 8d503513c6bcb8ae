//! Why a world cannot start.
ghost use Rattle.std.specs.Prelude.{◌≡◌};
ghost use Rattle.harts.specs.declared.error.HartsError.TheVariants as error;

use std::alloc::AllocError;
use thiserror::Error;

/// Why harts do not start.
#[derive(Clone, Copy, Debug, PartialEq, Eq, Error)]
pub enum HartsError {
    /// PT_LOAD segments of two files share a byte: the files' numbers in the list, from 0, the lower one first.
    #[error("files {0} and {1}")]
    Shared(u64, u64),
    /// Memory ran out.
    #[error("out of memory")]
    Memory,
}

impl From<AllocError> for HartsError {
    ghost from_gives = { λ _ e. e ≡ error.Memory };

    fn from(_: AllocError) -> Self {
        HartsError::Memory
    }
}
