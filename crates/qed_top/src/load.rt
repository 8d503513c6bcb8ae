//! The file that a command reads.
ghost use Rattle.std.specs.Prelude.{◌≡◌, ◌≤◌, IfOk, IfErr, IfSome, OnOk, OnErr, length};
ghost use Rattle.qed_io.specs.Counts.{NoneFell};
ghost use Rattle.qed_io.specs.Files.{file_bytes};
ghost use Rattle.machine.specs.Limits.{limit_of};
ghost use Rattle.qed_words.specs.Text.Plan.{read_fault_line};
ghost use Rattle.qed_top.specs.Answer.{CallsFor, PrintsOnly, IsFaultless, LoadRose, SteadyOrReadFault};
ghost use Rattle.qed_top.specs.Loads.{OverFiles};

use crate::answer::{Answer, above_limit, plain};
use crate::status::Status;
use elf_types::Bytes;
use qed_io::{LoadError, Shelf};
use qed_model::Limit;
use report::read_fault_text;
use std::alloc::{AllocError, Global};

/// The answer for a file that could not be read.
fn read_fault(alloc: Global) -> Result<Answer, AllocError>
    ensures { IfOk result (PrintsOnly Status.ReadFault read_fault_line) }
{
    let text = read_fault_text(alloc)?;
    Ok(plain(Status::ReadFault, text))
}

/// The bytes of the file that a command reads, or the answer without them: a read fault, or above the limit.
pub fn read_file<S: Shelf>(
    alloc: Global,
    name: &str,
    limit: Limit,
    shelf: &mut S,
) -> Result<Result<Bytes, Answer>, AllocError>
    ensures bytes { IfOk result (λ read. IfOk read (λ bytes. IfSome (S.files shelf.old) (λ files. bytes ≡ file_bytes files name.now))) }
    ensures within { IfOk result (λ read. IfOk read (λ bytes. length bytes ≤ limit_of limit)) }
    ensures loaded { IfOk result (λ read. OnOk read (IsFaultless S.Shelf shelf.old shelf.new)) }
    ensures other { IfOk result (λ read. IfErr read (λ answer. OverFiles (S.files shelf.old) (λ files.
        CallsFor limit (file_bytes files name.now) (LoadRose S.Shelf shelf.old shelf.new name.now) ⊥ answer))) }
    ensures files { S.files shelf.new ≡ S.files shelf.old }
    ensures stores { NoneFell (S.store_faults shelf.old) (S.store_faults shelf.new) }
    ensures steady { IfOk result (λ read. IfErr read (SteadyOrReadFault (IsFaultless S.Shelf shelf.old shelf.new))) }
    ensures memory { OnErr result (IsFaultless S.Shelf shelf.old shelf.new) }
{
    // Made before the load, so that want of memory shows before a fault, not instead of it.
    let fault = read_fault(alloc)?;
    match shelf.load(alloc, name, limit.most()) {
        Ok(bytes) => Ok(Ok(bytes)),
        Err(LoadError::Failed) => Ok(Err(fault)),
        Err(LoadError::TooLong) => {
            // The load has not counted the bytes, and the line of this limit has no count.
            Ok(Err(above_limit(alloc, limit, 0)?))
        }
        Err(LoadError::Memory) => Err(AllocError),
    }
}
