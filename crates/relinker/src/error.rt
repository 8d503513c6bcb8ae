//! Why items are not laid out.
ghost use Rattle.std.specs.Prelude.{◌≡◌};
ghost use Rattle.relinker.specs.declared.error.LinkError.TheVariants as error;

use std::alloc::AllocError;
use thiserror::Error;

/// Why items are not laid out.
#[derive(Clone, Copy, Debug, Error, PartialEq, Eq)]
pub enum LinkError {
    /// The code has more than 1,048,576 bytes in the near form, or more than 67,108,864 in the far
    /// form: its bytes, with the stub.
    #[error("{0} bytes")]
    TooLarge(u64),
    /// Memory ran out.
    #[error("out of memory")]
    Memory,
}

impl From<AllocError> for LinkError {
    ghost from_gives = { λ _ e. e ≡ error.Memory };

    fn from(_: AllocError) -> Self {
        LinkError::Memory
    }
}
