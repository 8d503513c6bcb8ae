//! Answers: what is stored and printed, with the status.
ghost use Rattle.std.specs.Prelude.{◌≡◌, ◌≢◌, ◌⊎◌, IfOk, OnOk, IsSome, IsErrOf};
ghost use Rattle.std.specs.Io.KnownBytes.{Appends};
ghost use Rattle.qed_io.specs.Counts.{Rose, RoseAt, NoneFell};
ghost use Rattle.qed_io.specs.Sink.{AppendsPrefix};
ghost use Rattle.qed_words.specs.Text.Errors.{limit_line};
ghost use Rattle.qed_top.specs.Answer.{PrintsOnly, FilesAfter, FilesInPart, StoreRose, IsFaultless};

use crate::fault::Fault;
use crate::status::Status;
use elf_types::Bytes;
use qed_io::{Shelf, Sink, put_all};
use qed_model::Limit;
use qed_words::Name;
use report::limit_text;
use std::alloc::{AllocError, Global};

/// A file to be stored.
#[derive(Debug, Drop)]
pub struct Stored {
    pub name: Name,
    pub bytes: Bytes,
}

/// What a command answers.
#[derive(Debug, Drop)]
pub struct Answer {
    pub status: Status,
    pub text: Bytes,
    pub stored: Option<Stored>,
}

/// An answer that stores nothing.
pub fn plain(status: Status, text: Bytes) -> Answer
    ensures { PrintsOnly status text result }
{
    Answer {
        status,
        text,
        stored: None,
    }
}

/// The answer if a number exceeds a limit.
pub fn above_limit(alloc: Global, limit: Limit, count: u128) -> Result<Answer, AllocError>
    ensures { IfOk result (PrintsOnly Status.Limit (limit_line limit count)) }
{
    let text = limit_text(alloc, limit, count)?;
    Ok(plain(Status::Limit, text))
}

/// Stores the file of an answer, if it has one.
fn store_file<S: Shelf>(stored: &Option<Stored>, shelf: &mut S) -> Result<(), Fault>
    ensures ok { OnOk result (FilesAfter stored.now (S.files shelf.old) (S.files shelf.new)) }
    ensures store { IsErrOf result Fault.Store → StoreRose stored.now (RoseAt (S.store_faults shelf.old) (S.store_faults shelf.new)) }
    ensures part { IsErrOf result Fault.Store → FilesInPart stored.now (S.files shelf.old) (S.files shelf.new) }
    ensures memory { IsErrOf result Fault.Memory → IsSome stored.now × (S.files shelf.new ≡ S.files shelf.old) }
    ensures steady { result ≢ Err Fault.Store → IsFaultless S.Shelf shelf.old shelf.new }
    ensures print { IsErrOf result Fault.Print → ⊥ }
    ensures loads { NoneFell (S.load_faults shelf.old) (S.load_faults shelf.new) }
{
    if let Some(file) = stored {
        shelf.store(file.name.as_str(), file.bytes.as_slice())?;
    }
    Ok(())
}

/// Stores and prints an answer.
pub fn carry_out<S: Shelf, K: Sink>(
    answer: &Answer,
    shelf: &mut S,
    out: &mut K,
) -> Result<(), Fault>
    ensures files { OnOk result (FilesAfter answer.now.stored (S.files shelf.old) (S.files shelf.new)) }
    ensures text { OnOk result (Appends (K.written out.old) (K.written out.new) answer.now.text) }
    ensures print { IsErrOf result Fault.Print → Rose (K.faults out.old) (K.faults out.new) }
    ensures print_files { IsErrOf result Fault.Print → FilesAfter answer.now.stored (S.files shelf.old) (S.files shelf.new) }
    ensures print_text { IsErrOf result Fault.Print → AppendsPrefix (K.written out.old) (K.written out.new) answer.now.text }
    ensures store { IsErrOf result Fault.Store → StoreRose answer.now.stored (RoseAt (S.store_faults shelf.old) (S.store_faults shelf.new)) }
    ensures store_files { IsErrOf result Fault.Store → FilesInPart answer.now.stored (S.files shelf.old) (S.files shelf.new) }
    ensures store_text { IsErrOf result Fault.Store → K.written out.new ≡ K.written out.old }
    ensures memory { IsErrOf result Fault.Memory →
        (IsSome answer.now.stored × (S.files shelf.new ≡ S.files shelf.old) × (K.written out.new ≡ K.written out.old))
        ⊎ (FilesAfter answer.now.stored (S.files shelf.old) (S.files shelf.new) × AppendsPrefix (K.written out.old) (K.written out.new) answer.now.text) }
    ensures memory_shelf { IsErrOf result Fault.Memory → IsFaultless S.Shelf shelf.old shelf.new }
    ensures memory_sink { IsErrOf result Fault.Memory → K.faults out.new ≡ K.faults out.old }
    ensures loads { NoneFell (S.load_faults shelf.old) (S.load_faults shelf.new) }
{
    store_file(&answer.stored, shelf)?;
    put_all(out, answer.text.as_slice())?;
    Ok(())
}
