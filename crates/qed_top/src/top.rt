//! The top call.
ghost use Rattle.qed_words.specs.Words.{texts};
ghost use Rattle.qed_top.specs.Ends.{call_on};
ghost use Rattle.qed_top.specs.Headline.{Answers};

use crate::answer::carry_out;
use crate::decide::decide;
use crate::fault::Fault;
use crate::status::Status;
use campaign::Progress;
use qed_io::{Shelf, Sink};
use std::alloc::Global;

/// Does what the words after the program's name ask for: decides the answer, stores its file, and
/// prints its text. Reports the progress of a campaign and of a run.
pub fn qed<S: Shelf, K: Sink>(
    alloc: Global,
    words: &[String],
    shelf: &mut S,
    out: &mut K,
    progress: &mut dyn Progress,
) -> Status
    // The headline: after `transform IN OUT` with Done, IN is a test and OUT a program whose runs keep its values and
    // catch changes. Then: why each status comes, what was stored and printed, and which status comes without faults.
    ensures { Answers (call_on S.Shelf K.Sink (texts words.now) shelf.old shelf.new out.old out.new) result }
{
    match decide(alloc, words, shelf, progress) {
        Ok(answer) => match carry_out(&answer, shelf, out) {
            Ok(()) => answer.status,
            Err(Fault::Print) => Status::WriteFault,
            Err(Fault::Store) => Status::WriteFault,
            Err(Fault::Memory) => Status::Memory,
        },
        Err(_) => Status::Memory,
    }
}
