//! The machine's files.
ghost use Rattle.std.specs.Prelude.{◌≡◌, ◌≢◌, ◌≤◌, ℕ, None, IsErrOf};
ghost use Rattle.qed_io.specs.Counts.{CountsFaults, counted_up};
ghost use Rattle.qed_io.specs.Shelf.{Loads, Stores};

use crate::new_file::NewFile;
use crate::streams::{load_opened, store_opened};
use crate::{LoadError, Shelf, StoreError, WriterSink, replace};
use elf_types::Bytes;
use std::alloc::Global;
use std::fs;
use std::fs::OpenOptions;
use std::io::{Error, ErrorKind};
use std::marker::Model;
use std::rt::Files;

/// The files of the machine, by their paths.
///
/// A store writes a new file beside the old one and renames it over, so that a disk that is full, or a cut, leaves the
/// old bytes. A path that is a link, a pipe or a device is written as it is, and so is a file if the machine lets no
/// new one take its place. A cut may leave a file whose name ends in `.new`.
///
/// Contracts see its count of faults, which serves as all of a shelf's counts, and which a call raises exactly if it
/// answers `Failed`. They do not see what the files hold: that a path that is opened is the file of that name is
/// trusted. A load of a path without a file fails.
#[derive(Drop)]
pub struct DirShelf<R: Files + Drop> {
    machine: R,
    alloc: Global,
    faults: u64,
    /// Why the last call that failed did, as the machine says.
    pub last_error: Option<Error>,
}

// Whether a new file may take the name: there is none, or a plain one that may be written.
fn is_replaceable<R: Files>(machine: &R, name: &str) -> bool {
    match fs::symlink_metadata(machine, name) {
        Ok(found) => {
            found.is_file() && OpenOptions::new().write(true).open(machine, name).is_ok()
        }
        Err(error) => error.kind() == ErrorKind::NotFound,
    }
}

impl<R: Files + Drop> Model for DirShelf<R> {
    ghost use Rattle.std.specs.Prelude.{ℕ};

    ghost Value = { ℕ };

    ghost view = { λ s. s.faults };
}

impl<R: Files + Drop> DirShelf<R> {
    /// A shelf with no faults over what the program is given for files.
    pub fn new(alloc: Global, machine: R) -> Self
        ensures { result ≡ 0 }
    {
        DirShelf {
            machine,
            alloc,
            faults: 0,
            last_error: None,
        }
    }

    // Replaces the file of the name, or leaves all as it was, where the machine does not let it.
    fn replace(&mut self, name: &str, bytes: &[u8]) -> Result<bool, StoreError>
        ensures failed { IsErrOf result StoreError.Failed → self.new ≡ counted_up self.old }
        ensures steady { result ≢ Err StoreError.Failed → self.new ≡ self.old }
        ensures not_fell { self.old ≤ self.new }
    {
        let mut folder = NewFile::beside(&self.machine, self.alloc, name);
        let replaced = replace(&mut folder, bytes, &mut self.faults);
        self.last_error = folder.last_error;
        replaced
    }
}

impl<R: Files + Drop> Shelf for DirShelf<R> {
    ghost files = { λ _. None };

    ghost load_faults = { λ s _. s };

    ghost store_faults = { λ s _. s };

    fn load(&mut self, alloc: Global, name: &str, limit: u64) -> Result<Bytes, LoadError>
        ensures loads { Loads None (λ _. self.old) (λ _. self.new) name.now limit result }
        ensures stores { CountsFaults (IsErrOf result LoadError.Failed) (λ _. self.old) (λ _. self.new) }

        ensures failed { IsErrOf result LoadError.Failed → self.new ≡ counted_up self.old }
        ensures steady { result ≢ Err LoadError.Failed → self.new ≡ self.old }
    {
        let opened = fs::open(&self.machine, name);
        load_opened(opened, alloc, limit, &mut self.faults, &mut self.last_error)
    }

    fn store(&mut self, name: &str, bytes: &[u8]) -> Result<(), StoreError>
        ensures stores { Stores None None (λ _. self.old) (λ _. self.new) name.now bytes.now result }
        ensures loads { CountsFaults (IsErrOf result StoreError.Failed) (λ _. self.old) (λ _. self.new) }

        ensures failed { IsErrOf result StoreError.Failed → self.new ≡ counted_up self.old }
        ensures steady { result ≢ Err StoreError.Failed → self.new ≡ self.old }
    {
        if is_replaceable(&self.machine, name) {
            match self.replace(name, bytes) {
                Ok(true) => return Ok(()),
                Ok(false) => {}
                Err(error) => return Err(error),
            }
        }
        let mut opened = fs::create(&self.machine, name).map(WriterSink::over);
        let stored = store_opened(&mut opened, bytes, &mut self.faults);
        self.last_error = match &opened {
            Ok(file) => file.last_error,
            Err(error) => Some(*error),
        };
        stored
    }
}
