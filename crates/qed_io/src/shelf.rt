//! A shelf keeps files by their names.
ghost use Rattle.std.specs.Prelude.{◌≡◌, List, ℕ, Option, IsErrOf};
ghost use Rattle.qed_io.specs.declared.shelf.LoadError.TheVariants as load;
ghost use Rattle.qed_io.specs.declared.shelf.StoreError.TheVariants as store;
ghost use Rattle.qed_io.specs.Files.{Files};
ghost use Rattle.qed_io.specs.Counts.{CountsFaults};
ghost use Rattle.qed_io.specs.Shelf.{Loads, Stores};

use elf_types::Bytes;
use std::alloc::{AllocError, Global};
use thiserror::Error;

/// Why a file was not loaded.
#[derive(Clone, Copy, Debug, Error)]
pub enum LoadError {
    /// The file could not be read. The count of its loads' faults rose in the call.
    #[error("the file could not be read")]
    Failed,
    /// The file has more bytes than the limit.
    #[error("the file has more bytes than the limit")]
    TooLong,
    /// Memory ran out.
    #[error("out of memory")]
    Memory,
}

/// Why a file was not stored.
#[derive(Clone, Copy, Debug, Error, PartialEq, Eq)]
pub enum StoreError {
    /// The file could not be written, or not to its end. The count of its stores' faults rose in the call.
    #[error("the file could not be written")]
    Failed,
    /// Memory ran out, and no file has changed.
    #[error("out of memory")]
    Memory,
}

impl From<AllocError> for LoadError {
    ghost from_gives = { λ _ e. e ≡ load.Memory };

    fn from(_: AllocError) -> Self {
        LoadError::Memory
    }
}

impl From<AllocError> for StoreError {
    ghost from_gives = { λ _ e. e ≡ store.Memory };

    fn from(_: AllocError) -> Self {
        StoreError::Memory
    }
}

/// Files by their names. A name is any text, and a file is a list of bytes.
///
/// Counts of faults say when a call may fail. They never fall. A call that answers `Failed` raises its own name's count
/// for that kind of call, unless the count stands at 2^64 - 1 already. A call that does not answer `Failed` leaves all
/// counts. So a fault at one name does not allow one at another, and want of memory is not called a fault.
pub trait Shelf {
    /// The files, where the shelf tells them. One that tells them once tells them after each call.
    ghost files: { Self → Option Files };

    /// How often a load of the name has failed.
    ghost load_faults: { Self → List ℕ → ℕ };

    /// How often a store of the name has failed.
    ghost store_faults: { Self → List ℕ → ℕ };

    /// The file's bytes, at most `limit` of them, or none if the shelf reports that the file does not exist. No file
    /// changes.
    ///
    /// Errors: `TooLong` only if the file has more than `limit` bytes, `Failed` only with a fault of this load, and
    /// `Memory`.
    fn load(&mut self, alloc: Global, name: &str, limit: u64) -> Result<Bytes, LoadError>
        ensures loads { Loads (files self.old) (load_faults self.old) (load_faults self.new) name.now limit result }
        ensures files { files self.new ≡ files self.old }
        ensures stores { CountsFaults (IsErrOf result LoadError.Failed) (store_faults self.old) (store_faults self.new) };

    /// Sets the file to the bytes, or makes it. No other file changes.
    ///
    /// Errors: `Failed` only with a fault of this store, and then the name has its old bytes, or is absent as
    /// before, or has a prefix of the new bytes. `Memory`, and then no file has changed.
    fn store(&mut self, name: &str, bytes: &[u8]) -> Result<(), StoreError>
        ensures stores { Stores (files self.old) (files self.new) (store_faults self.old) (store_faults self.new) name.now bytes.now result }
        ensures loads { CountsFaults (IsErrOf result StoreError.Failed) (load_faults self.old) (load_faults self.new) };
}
