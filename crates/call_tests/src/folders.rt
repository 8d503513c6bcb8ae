//! Replaces a file in a folder; each call fails in turn.
ghost use Rattle.std.specs.Prelude.{Some};
ghost use Rattle.std.specs.Option.{option_map};

use qed_io::{Folder, StoreError, replace};
use std::alloc::{AllocError, Global};
use std::io;
use std::io::{Error, ErrorKind};
use std::process::Abort;
use std::test::Fail;

/// A folder in memory.
#[derive(Drop)]
struct InMemory {
    alloc: Global,
    old: Option<Vec<u8>>,
    beside: Option<Vec<u8>>,
    is_synced: bool,
    has_rights: bool,
    stuck: u64,
    /// How many calls are made before the one that fails, and the kind of its fault.
    before: u64,
    kind: ErrorKind,
    /// Nothing can be removed.
    keeps_all: bool,
}

impl InMemory {
    /// A folder with a file.
    fn with(
        alloc: Global,
        old: &[u8],
        before: u64,
        kind: ErrorKind,
    ) -> Result<InMemory, AllocError> {
        Ok(InMemory {
            alloc,
            old: Some(old.to_vec(alloc)?),
            beside: None,
            is_synced: false,
            has_rights: false,
            stuck: 0,
            before,
            kind,
            keeps_all: false,
        })
    }
}

/// Makes one more call, or fails.
fn passes(before: &mut u64, kind: ErrorKind) -> io::Result<()> {
    if *before == 0 {
        *before = u64::MAX;
        return Err(Error::from(kind));
    }
    *before -= 1;
    Ok(())
}

impl Folder for InMemory {
    ghost held = { λ s. Some (record {
      old = option_map (λ v. v.items) s.old;
      beside = option_map (λ v. v.items) s.beside;
      is_synced = s.is_synced;
      has_rights = s.has_rights;
      stuck = s.stuck;
    }) };

    fn create(&mut self) -> io::Result<()> {
        passes(&mut self.before, self.kind)?;
        self.beside = Some(Vec::new(self.alloc));
        self.is_synced = false;
        self.has_rights = false;
        Ok(())
    }

    fn take_rights(&mut self) {
        self.has_rights = true;
    }

    fn append(&mut self, bytes: &[u8]) -> io::Result<()> {
        let Some(held) = &mut self.beside else {
            return Err(Error::from(ErrorKind::NotFound));
        };
        self.is_synced = false;
        if let Err(error) = passes(&mut self.before, self.kind) {
            held.extend_from_slice(&bytes[..bytes.len() / 2])?;
            return Err(error);
        }
        held.extend_from_slice(bytes)?;
        Ok(())
    }

    fn sync(&mut self) -> io::Result<()> {
        passes(&mut self.before, self.kind)?;
        self.is_synced = true;
        Ok(())
    }

    fn rename(&mut self) -> io::Result<()> {
        passes(&mut self.before, self.kind)?;
        self.old = self.beside.take();
        Ok(())
    }

    fn remove(&mut self) {
        if self.keeps_all {
            self.stuck = self.stuck.saturating_add(1);
        } else {
            self.beside = None;
        }
    }
}

/// Replaces the file by `new`, and tests the answer and what the file holds then.
fn replaced(
    rt: &impl Abort,
    folder: &mut InMemory,
    answer: Result<bool, StoreError>,
    holds: &[u8],
) {
    folder.beside = None;
    let mut faults = 0;
    let got = replace(folder, b"new", &mut faults);
    assert!(rt; got == answer);
    let is_fault = answer == Err(StoreError::Failed);
    assert!(rt; faults == u64::from(is_fault));
    if let Some(old) = &folder.old {
        assert!(rt; old.as_slice() == holds);
    }
}

#[test]
fn each_call_fails(rt: HostRuntime) -> Result<(), Fail> {
    let alloc = rt.alloc();
    let full = ErrorKind::StorageFull;
    let failed = Err(StoreError::Failed);
    for (before, answer, holds) in [
        (0, failed, b"old"),
        (1, failed, b"old"),
        (2, failed, b"old"),
        (3, Ok(false), b"old"),
        (4, Ok(true), b"new"),
    ] {
        let mut folder = InMemory::with(alloc, b"old", before, full)?;
        replaced(&rt, &mut folder, answer, holds);
        assert!(rt; folder.beside.is_none());
    }
    Ok(())
}

#[test]
fn no_file_is_made(rt: HostRuntime) -> Result<(), Fail> {
    let alloc = rt.alloc();
    let mut folder = InMemory::with(alloc, b"old", 0, ErrorKind::PermissionDenied)?;
    replaced(&rt, &mut folder, Ok(false), b"old");
    let mut folder = InMemory::with(alloc, b"old", 0, ErrorKind::OutOfMemory)?;
    replaced(&rt, &mut folder, Err(StoreError::Memory), b"old");
    Ok(())
}

#[test]
fn a_file_is_left(rt: HostRuntime) -> Result<(), Fail> {
    let alloc = rt.alloc();
    let mut folder = InMemory::with(alloc, b"old", 1, ErrorKind::StorageFull)?;
    folder.keeps_all = true;
    replaced(&rt, &mut folder, Err(StoreError::Failed), b"old");
    assert!(rt; folder.beside.is_some());
    Ok(())
}
