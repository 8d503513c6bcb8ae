//! Why words give no order.
ghost use Rattle.std.specs.Prelude.{◌≡◌};
ghost use Rattle.qed_words.specs.declared.error.WordsError.TheVariants as error;

use crate::Reason;
use std::alloc::AllocError;
use thiserror::Error;

/// Why words give no order.
#[derive(Clone, Copy, Debug, Error)]
pub enum WordsError {
    /// The words ask for nothing: the first reason.
    #[error("the words ask for nothing: {0:?}")]
    Usage(Reason),
    /// Memory ran out.
    #[error("out of memory")]
    Memory,
}

impl From<AllocError> for WordsError {
    ghost from_gives = { λ _ e. e ≡ error.Memory };

    fn from(_: AllocError) -> Self {
        WordsError::Memory
    }
}
