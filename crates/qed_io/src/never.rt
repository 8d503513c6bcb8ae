//! A shelf and a sink in memory that never fail.
ghost use Rattle.std.specs.Prelude.{◌≡◌, [], Some, IfOk, OnOk, OnErr, length};
ghost use Rattle.std.specs.Option.{option_map};
ghost use Rattle.std.specs.FinMap as map;
ghost use Rattle.qed_io.specs.Files.{Files};
ghost use Rattle.qed_io.specs.Sink.{Writes};

use crate::stored_files::StoredFiles;
use crate::{LoadError, Shelf, Sink, StoreError, WriteError};
use elf_types::Bytes;
use std::alloc::{AllocError, Global};
use std::marker::Model;

/// Files in memory, with no fault. A name that is not there loads as no bytes.
///
/// Its counts of faults are the constant 0, so by the trait's clauses no call of it is `Failed`.
#[derive(Drop)]
pub struct NeverShelf {
    stored: StoredFiles,
}

impl Model for NeverShelf {
    ghost use Rattle.std.specs.FinMap as map;
    ghost use Rattle.std.specs.Coded.{coded_list, coded_ℕ};
    ghost use Rattle.qed_io.specs.Files.{Files};

    ghost Value = { Files };

    ghost coded = { map.code (coded_list coded_ℕ) (coded_list coded_ℕ) };

    ghost view = { λ s. s.stored };
}

impl NeverShelf {
    /// No files.
    pub fn new(alloc: Global) -> Self
        ensures { result ≡ map.empty }
    {
        NeverShelf {
            stored: StoredFiles::new(alloc),
        }
    }

    /// Sets a file. Only memory can fail it.
    pub fn put_file(&mut self, name: &str, bytes: &[u8]) -> Result<(), AllocError>
        ensures ok { OnOk result (self.new ≡ map.insert self.old name.now bytes.now) }
        ensures err { OnErr result (self.new ≡ self.old) }
    {
        self.stored.set(name, bytes)
    }

    /// A file's bytes, if it is there.
    pub fn file(&self, name: &str) -> Option<&[u8]>
        ensures { option_map (λ bytes. bytes.now) result ≡ map.get self.now name.now }
    {
        self.stored.get(name)
    }
}

impl Shelf for NeverShelf {
    ghost files = { λ s. Some s };

    ghost load_faults = { λ _ _. 0 };

    ghost store_faults = { λ _ _. 0 };

    fn load(&mut self, alloc: Global, name: &str, limit: u64) -> Result<Bytes, LoadError> {
        match self.stored.get(name) {
            Some(bytes) => {
                if bytes.len() as u64 > limit {
                    return Err(LoadError::TooLong);
                }
                Ok(Bytes::copied(alloc, bytes)?)
            }
            None => Ok(Bytes::of(Vec::new(alloc))),
        }
    }

    fn store(&mut self, name: &str, bytes: &[u8]) -> Result<(), StoreError> {
        Ok(self.stored.set(name, bytes)?)
    }
}

/// Bytes in memory, with no fault. Its count of faults is the constant 0.
#[derive(Drop)]
pub struct NeverSink {
    taken: Vec<u8>,
}

impl Model for NeverSink {
    ghost use Rattle.std.specs.Prelude.{List, ℕ};

    ghost Value = { List ℕ };

    ghost view = { λ s. s.taken.items };
}

impl NeverSink {
    /// Nothing written.
    pub fn new(alloc: Global) -> Self
        ensures { result ≡ [] }
    {
        NeverSink {
            taken: Vec::new(alloc),
        }
    }

    /// The bytes that were written.
    pub fn bytes(&self) -> &[u8]
        ensures { result.now ≡ self.now }
    {
        &self.taken
    }
}

impl Sink for NeverSink {
    ghost written = { λ s. Some s };

    ghost faults = { λ _. 0 };

    ghost calls = { λ _. 0 };

    fn write(&mut self, piece: &[u8]) -> Result<usize, WriteError>
        ensures writes { Writes (Some self.old) (Some self.new) 0 0 0 0 piece.now result }
        ensures whole { IfOk result (λ n. n ≡ length piece.now) }
    {
        self.taken.extend_from_slice(piece)?;
        Ok(piece.len())
    }
}
