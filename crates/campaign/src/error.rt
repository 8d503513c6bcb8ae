//! Why a strike has no verdict.
ghost use Rattle.std.specs.Prelude.{◌≡◌};
ghost use Rattle.campaign.specs.declared.error.StrikeError.TheVariants as error;

use std::alloc::AllocError;
use thiserror::Error;

/// Why a strike has no verdict.
#[derive(Clone, Copy, Debug, Error, PartialEq, Eq)]
pub enum StrikeError {
    /// The input's own run traps before the bound is over: its pc.
    #[error("the input traps at {0}")]
    Trapped(u64),
    /// Memory ran out.
    #[error("out of memory")]
    Memory,
}

impl From<AllocError> for StrikeError {
    ghost from_gives = { λ _ e. e ≡ error.Memory };

    fn from(_: AllocError) -> Self {
        StrikeError::Memory
    }
}
