//! A new file of the machine beside an old one.
ghost use Rattle.std.specs.Prelude.{None};

use crate::{Folder, WriterSink, put_all};
use std::alloc::Global;
use std::fs::{File, OpenFile};
use std::io::{Error, ErrorKind};
use std::rt::Files;
use std::{fs, io};

// How many names are tried for a new file.
const NAMES_TRIED: u32 = 100;

/// The folder of one of the machine's files. It tells nothing.
#[derive(Drop)]
pub struct NewFile<'a, R: Files> {
    machine: &'a R,
    alloc: Global,
    name: &'a str,
    /// The name of the new file, and that file, once it is made.
    beside: String,
    made: Option<WriterSink<R::File>>,
    /// Why the last call that failed did, as the machine says.
    pub(crate) last_error: Option<Error>,
}

// A file of a name that no file had; None where one has it.
fn made<R: Files>(machine: &R, name: &str) -> io::Result<Option<R::File>> {
    match File::create_new(machine, name) {
        Ok(file) => Ok(Some(file)),
        Err(error) => {
            if error.kind() == ErrorKind::AlreadyExists {
                return Ok(None);
            }
            Err(error)
        }
    }
}

impl<'a, R: Files> NewFile<'a, R> {
    /// Beside the file of a name no new one is made yet.
    pub(crate) fn beside(machine: &'a R, alloc: Global, name: &'a str) -> NewFile<'a, R> {
        NewFile {
            machine,
            alloc,
            name,
            beside: String::new(alloc),
            made: None,
            last_error: None,
        }
    }

    // Keeps the error of a call.
    fn noted(&mut self, done: io::Result<()>) -> io::Result<()> {
        if let Err(error) = &done {
            self.last_error = Some(*error);
        }
        done
    }

    // Makes a new file of the first name that no file has.
    fn make_beside(&mut self) -> io::Result<()> {
        for n in 0..NAMES_TRIED {
            let name = self.name;
            let beside = format!(in self.alloc; "{name}.{n}.new")?;
            if self.make(beside)? {
                return Ok(());
            }
        }
        Err(Error::from(ErrorKind::AlreadyExists))
    }

    // Makes a file of that name, and tells whether it did: not where another has the name.
    fn make(&mut self, beside: String) -> io::Result<bool> {
        match made(self.machine, beside.as_str())? {
            Some(file) => {
                self.beside = beside;
                self.made = Some(WriterSink::over(file));
                Ok(true)
            }
            None => Ok(false),
        }
    }
}

impl<'a, R: Files> Folder for NewFile<'a, R> {
    ghost held = { λ _. None };

    fn create(&mut self) -> io::Result<()> {
        let done = self.make_beside();
        self.noted(done)
    }

    fn take_rights(&mut self) {
        if let Ok(old) = fs::symlink_metadata(self.machine, self.name) {
            if let Some(file) = &self.made {
                let _ = file.writer.set_permissions(old.permissions());
            }
        }
    }

    fn append(&mut self, bytes: &[u8]) -> io::Result<()> {
        let done = match &mut self.made {
            Some(file) => match put_all(file, bytes) {
                Ok(()) => Ok(()),
                Err(_) => Err(file.last_error.unwrap_or(Error::from(ErrorKind::Other))),
            },
            None => Err(Error::from(ErrorKind::NotFound)),
        };
        self.noted(done)
    }

    fn sync(&mut self) -> io::Result<()> {
        let done = match &self.made {
            Some(file) => file.writer.sync_all(),
            None => Err(Error::from(ErrorKind::NotFound)),
        };
        self.noted(done)
    }

    fn rename(&mut self) -> io::Result<()> {
        let done = fs::rename(self.machine, self.beside.as_str(), self.name);
        self.noted(done)
    }

    fn remove(&mut self) {
        let _ = fs::remove_file(self.machine, self.beside.as_str());
    }
}
