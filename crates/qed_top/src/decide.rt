//! What the words and the files call for.
ghost use Rattle.std.specs.Prelude.{◌≡◌, false, IfOk, OnErr};
ghost use Rattle.qed_io.specs.Counts.{NoneFell};
ghost use Rattle.qed_words.specs.Words.{texts};
ghost use Rattle.qed_words.specs.Sound.{IsSoundOrder};
ghost use Rattle.qed_top.specs.Answer.{IsFaultless, LoadRose, SteadyOrReadFault};
ghost use Rattle.qed_top.specs.Loads.{OverFiles, OverLoads};
ghost use Rattle.qed_top.specs.Orders.{OrderCallsFor, SourceCallsFor, WordsCallFor, reads_several};

use crate::answer::Answer;
use crate::load::read_file;
use crate::orders::{answer_order, source_limit, source_name, usage};
use crate::world::answer_harts;
use campaign::Progress;
use elf_types::Bytes;
use qed_io::Shelf;
use qed_words::{Order, WordsError, order};
use std::alloc::{AllocError, Global};

/// What an order that reads at most one file calls for.
fn decide_source<S: Shelf>(
    alloc: Global,
    order: Order,
    shelf: &mut S,
    progress: &mut dyn Progress,
) -> Result<Answer, AllocError>
    requires sound { IsSoundOrder order }
    requires one { reads_several order ≡ false }
    ensures meant { IfOk result (λ answer. OverFiles (S.files shelf.old) (λ files. SourceCallsFor order files (LoadRose S.Shelf shelf.old shelf.new) answer)) }
    ensures files { S.files shelf.new ≡ S.files shelf.old }
    ensures stores { NoneFell (S.store_faults shelf.old) (S.store_faults shelf.new) }
    ensures steady { IfOk result (SteadyOrReadFault (IsFaultless S.Shelf shelf.old shelf.new)) }
    ensures memory { OnErr result (IsFaultless S.Shelf shelf.old shelf.new) }
{
    match source_name(&order) {
        Some(name) => {
            let read = read_file(alloc, name, source_limit(&order), shelf)?;
            match read {
                Ok(bytes) => Ok(answer_order(alloc, order, bytes, progress)?),
                Err(answer) => Ok(answer),
            }
        }
        None => {
            let none = Bytes::of(Vec::new(alloc));
            Ok(answer_order(alloc, order, none, progress)?)
        }
    }
}

/// What an order calls for over the files.
fn decide_order<S: Shelf>(
    alloc: Global,
    order: Order,
    shelf: &mut S,
    progress: &mut dyn Progress,
) -> Result<Answer, AllocError>
    requires { IsSoundOrder order }
    ensures meant { IfOk result (λ answer. OverLoads (S.files shelf.old) (λ loads. OrderCallsFor order loads (LoadRose S.Shelf shelf.old shelf.new) answer)) }
    ensures files { S.files shelf.new ≡ S.files shelf.old }
    ensures stores { NoneFell (S.store_faults shelf.old) (S.store_faults shelf.new) }
    ensures steady { IfOk result (SteadyOrReadFault (IsFaultless S.Shelf shelf.old shelf.new)) }
    ensures memory { OnErr result (IsFaultless S.Shelf shelf.old shelf.new) }
{
    match order {
        Order::Harts(names, turns, steps) => Ok(answer_harts(
            alloc,
            names.as_slice(),
            turns,
            steps,
            shelf,
        )?),
        order => Ok(decide_source(alloc, order, shelf, progress)?),
    }
}

/// What the words and the files call for.
pub fn decide<S: Shelf>(
    alloc: Global,
    words: &[String],
    shelf: &mut S,
    progress: &mut dyn Progress,
) -> Result<Answer, AllocError>
    ensures meant { IfOk result (λ answer. OverLoads (S.files shelf.old) (λ loads.
        WordsCallFor (texts words.now) loads (LoadRose S.Shelf shelf.old shelf.new) answer)) }
    ensures files { S.files shelf.new ≡ S.files shelf.old }
    ensures stores { NoneFell (S.store_faults shelf.old) (S.store_faults shelf.new) }
    ensures steady { IfOk result (SteadyOrReadFault (IsFaultless S.Shelf shelf.old shelf.new)) }
    ensures memory { OnErr result (IsFaultless S.Shelf shelf.old shelf.new) }
{
    match order(alloc, words) {
        Ok(order) => Ok(decide_order(alloc, order, shelf, progress)?),
        Err(WordsError::Usage(reason)) => Ok(usage(alloc, reason)?),
        Err(WordsError::Memory) => Err(AllocError),
    }
}
