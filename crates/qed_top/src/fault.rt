//! What stops an answer while it is carried out.
ghost use Rattle.std.specs.Prelude.{◌≡◌};
ghost use Rattle.qed_top.specs.Fault.{fault_of_write, fault_of_store};
ghost use Rattle.qed_top.specs.declared.fault.Fault.TheVariants.{Memory};

use qed_io::{StoreError, WriteError};
use std::alloc::AllocError;

/// Why an answer was not carried out whole.
#[derive(Clone, Copy, Debug, PartialEq, Eq)]
pub enum Fault {
    /// The print failed.
    Print,
    /// The store failed.
    Store,
    /// Memory ran out.
    Memory,
}

impl From<WriteError> for Fault {
    ghost from_gives = { λ error fault. fault ≡ fault_of_write error };

    fn from(error: WriteError) -> Self {
        match error {
            WriteError::Failed => Fault::Print,
            WriteError::Memory => Fault::Memory,
        }
    }
}

impl From<StoreError> for Fault {
    ghost from_gives = { λ error fault. fault ≡ fault_of_store error };

    fn from(error: StoreError) -> Self {
        match error {
            StoreError::Failed => Fault::Store,
            StoreError::Memory => Fault::Memory,
        }
    }
}

impl From<AllocError> for Fault {
    ghost from_gives = { λ _ fault. fault ≡ Memory };

    fn from(_: AllocError) -> Self {
        Fault::Memory
    }
}
