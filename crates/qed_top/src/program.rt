//! The program over what the machine passes it.
ghost use Rattle.std.specs.Prelude.{◌≡◌, ◌↔◌, IfOk, IsErr, IfErr};
ghost use Rattle.std.specs.IoError.{error_kind};
ghost use Rattle.std.specs.Vec.Iter.{into_iter_items};
ghost use Rattle.std.specs.Process.{exit_status};
ghost use Rattle.qed_top.specs.Codes.{status_code};
ghost use Rattle.qed_words.specs.Words.{texts};
ghost use Rattle.qed_top.specs.Ends.{call_on};
ghost use Rattle.qed_top.specs.Program.{words_after, Exits, ExitsUntold};

use crate::status::Status;
use crate::ticker::Ticker;
use crate::top::qed;
use campaign::Progress;
use diagnose::{EndedCall, Heard, complain};
use qed_io::{DirShelf, Shelf, Sink, StdSink};
use std::alloc::{AllocError, Global};
use std::env::Args;
use std::io::ErrorKind;
use std::process::ExitCode;
use std::{env, io};

/// The remaining words.
fn collected(alloc: Global, rest: Args) -> Result<Vec<String>, AllocError>
    ensures { IfOk result (λ words. words.items ≡ into_iter_items rest) }
{
    let mut words = Vec::new(alloc);
    for word in rest {
        words.push(word)?;
    }
    Ok(words)
}

/// The words after the program's name. Unreadable arguments are no words; no command has these.
///
/// Errors: want of memory, if the machine had none for the arguments, or if there is none for the words.
fn words_of(alloc: Global, arguments: io::Result<Args>) -> Result<Vec<String>, AllocError>
    ensures words { IfOk result (λ words. texts words.items ≡ words_after arguments) }
    ensures unread { IfErr arguments (λ error. IsErr result ↔ (error_kind error ≡ ErrorKind.OutOfMemory)) }
{
    match arguments {
        Ok(mut all) => {
            // The program's name is not a word of a command.
            let _ = all.next();
            let words = collected(alloc, all)?;
            Ok(words)
        }
        Err(error) => match error.kind() {
            ErrorKind::OutOfMemory => Err(AllocError),
            _ => Ok(Vec::new(alloc)),
        },
    }
}

/// Does what the arguments ask for, and returns the code of the status with which that ends.
pub fn exit_code<S: Shelf, K: Sink>(
    alloc: Global,
    arguments: io::Result<Args>,
    shelf: &mut S,
    out: &mut K,
    progress: &mut dyn Progress,
) -> ExitCode
    ensures exits { Exits (call_on S.Shelf K.Sink (words_after arguments) shelf.old shelf.new out.old out.new) result }
    // If the machine had no memory for the arguments, no call was made.
    ensures no_memory { IfErr arguments (λ error. error_kind error ≡ ErrorKind.OutOfMemory → exit_status result ≡ status_code Status.Memory) }
    ensures not_made { IfErr arguments (λ error. error_kind error ≡ ErrorKind.OutOfMemory → (shelf.new ≡ shelf.old) × (out.new ≡ out.old)) }
{
    match words_of(alloc, arguments) {
        Ok(words) => {
            let status = qed(alloc, &words, shelf, out, progress);
            ExitCode::from(status.code())
        }
        Err(_) => ExitCode::from(Status::Memory.code()),
    }
}

/// The whole program: over the machine's arguments, its files and its standard output. After a
/// failure it prints the reason on standard error, which affects nothing else.
///
/// No contract can say what the machine's arguments are, nor what its files hold: `exit_code` says
/// what is done with them.
pub fn run_program(rt: &HostRuntime) -> ExitCode
    ensures { ExitsUntold result }
{
    let alloc = rt.alloc();
    let mut shelf = DirShelf::new(alloc, rt);
    let mut out = Heard::over(alloc, StdSink::new(rt));
    let code = exit_code(
        alloc,
        env::args(rt),
        &mut shelf,
        &mut out,
        &mut Ticker::of(rt),
    );
    if let Ok(words) = words_of(alloc, env::args(rt)) {
        let call = EndedCall {
            words: &words,
            printed: out.text(),
            reason: shelf.last_error,
        };
        complain(rt, &rt.stderr(), &call, &code, out.sink.last_error);
    }
    code
}
