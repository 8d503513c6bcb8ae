//! A file is replaced whole: by a new one beside it, which takes its name once all its bytes are on the disk.
ghost use Rattle.std.specs.Prelude.{◌≡◌, ◌≢◌, ◌≤◌, true, Option, OnOk, OnErr, IfSome, IsErrOf};
ghost use Rattle.std.specs.IoError.{error_kind};
ghost use Rattle.qed_io.specs.Counts.{counted_up};
ghost use Rattle.qed_io.specs.Folder.{FolderState, LeadsTold, Stays, IsEmptyFile, HasRights, Appends, IsSynced, Renames, Removes, KeepsOld, HasNone, HasNew};
ghost use Rattle.qed_io.specs.Folder.{IsEmpty, IsReady, IsWritten, Places, Replaces, unmade_of};

use crate::StoreError;
use std::io;
use std::io::{Error, ErrorKind};

/// The folder of a file, in which a new file may be made beside it.
pub trait Folder {
    /// What the folder has, if it is known. One that reports it does so after each call, any other one never.
    ghost held: { Self → Option FolderState };

    /// Makes a new file without bytes, under a name that no file had.
    fn create(&mut self) -> io::Result<()>
        ensures made { OnOk result (LeadsTold IsEmptyFile (held self.old) (held self.new)) }
        ensures none { OnErr result (LeadsTold Stays (held self.old) (held self.new)) };

    /// Gives the new file the rights of the old one, if the machine lets it.
    fn take_rights(&mut self)
        ensures { LeadsTold HasRights (held self.old) (held self.new) };

    /// Appends the bytes to the new file. Where it fails a part of them may be there.
    fn append(&mut self, bytes: &[u8]) -> io::Result<()>
        requires { HasNew (held self.old) }
        ensures all { OnOk result (LeadsTold (Appends bytes.now) (held self.old) (held self.new)) }
        ensures part { OnErr result (LeadsTold KeepsOld (held self.old) (held self.new)) };

    /// Returns once all bytes of the new file are on the disk.
    fn sync(&mut self) -> io::Result<()>
        ensures synced { OnOk result (LeadsTold IsSynced (held self.old) (held self.new)) }
        ensures kept { OnErr result (LeadsTold KeepsOld (held self.old) (held self.new)) };

    /// Gives the new file the name of the old one, which is gone then.
    fn rename(&mut self) -> io::Result<()>
        requires { IfSome (held self.old) IsReady }
        ensures renamed { OnOk result (LeadsTold Renames (held self.old) (held self.new)) }
        ensures kept { OnErr result (LeadsTold KeepsOld (held self.old) (held self.new)) };

    /// Removes the new file, if the machine lets it.
    fn remove(&mut self)
        ensures { LeadsTold Removes (held self.old) (held self.new) };
}

/// What a store answers where no new file could be made: false where the machine lets none be made beside another.
fn unmade(error: &Error) -> Result<bool, StoreError>
    ensures value { result ≡ unmade_of (error_kind error.now) }
    ensures not_placed { result ≢ Ok true }
{
    match error.kind() {
        ErrorKind::PermissionDenied => Ok(false),
        ErrorKind::InvalidFilename => Ok(false),
        ErrorKind::OutOfMemory => Err(StoreError::Memory),
        _ => Err(StoreError::Failed),
    }
}

/// Writes the new file to its end, and lets the machine put it on the disk.
fn written<F: Folder>(folder: &mut F, bytes: &[u8]) -> io::Result<()>
    requires { IfSome (F.held folder.old) IsEmpty }
    ensures written { OnOk result (LeadsTold (IsWritten bytes.now) (F.held folder.old) (F.held folder.new)) }
    ensures kept { OnErr result (LeadsTold KeepsOld (F.held folder.old) (F.held folder.new)) }
{
    folder.take_rights();
    folder.append(bytes)?;
    folder.sync()?;
    Ok(())
}

/// Gives the new file the name, or removes it.
fn placed<F: Folder>(folder: &mut F) -> Result<bool, StoreError>
    requires { IfSome (F.held folder.old) IsReady }
    ensures { LeadsTold (Places result) (F.held folder.old) (F.held folder.new) }
{
    match folder.rename() {
        Ok(()) => Ok(true),
        Err(_) => {
            folder.remove();
            Ok(false)
        }
    }
}

/// Fills the new file, and gives it the name.
fn filled<F: Folder>(folder: &mut F, bytes: &[u8]) -> Result<bool, StoreError>
    requires { IfSome (F.held folder.old) IsEmpty }
    ensures { LeadsTold (Replaces (Some bytes.now) result) (F.held folder.old) (F.held folder.new) }
{
    match written(folder, bytes) {
        Ok(()) => placed(folder),
        Err(_) => {
            folder.remove();
            Err(StoreError::Failed)
        }
    }
}

/// Replaces the file, and tells no count of it.
fn replaced<F: Folder>(folder: &mut F, bytes: &[u8]) -> Result<bool, StoreError>
    requires { HasNone (F.held folder.old) }
    ensures { LeadsTold (Replaces (Some bytes.now) result) (F.held folder.old) (F.held folder.new) }
{
    match folder.create() {
        Ok(()) => filled(folder, bytes),
        Err(error) => unmade(&error),
    }
}

/// Replaces the file by the bytes, or makes it: true where that is done, false where the machine lets no new file take
/// the name. It has all the bytes or what it had before, and no new file is left, but where that could not be removed.
///
/// Errors: `Failed`, which counts a fault, where the bytes could not be written to the disk, and `Memory`.
pub fn replace<F: Folder>(
    folder: &mut F,
    bytes: &[u8],
    faults: &mut u64,
) -> Result<bool, StoreError>
    requires { HasNone (F.held folder.old) }
    ensures replaces { LeadsTold (Replaces (Some bytes.now) result) (F.held folder.old) (F.held folder.new) }
    ensures failed { IsErrOf result StoreError.Failed → faults.new ≡ counted_up faults.old }
    ensures steady { result ≢ Err StoreError.Failed → faults.new ≡ faults.old }
    ensures not_fell { faults.old ≤ faults.new }
{
    let answer = replaced(folder, bytes);
    if let Err(StoreError::Failed) = &answer {
        *faults = faults.saturating_add(1);
    }
    answer
}
