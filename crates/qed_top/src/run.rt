//! What `run` answers.
ghost use Rattle.std.specs.Option.{option_copied};
ghost use Rattle.std.specs.Prelude.{◌≡◌, ◌*◌, ◌^◌, ◌≤◌, ℕ, ◌==◌, ◌&&◌, IfOk, OnOk, MatchOption, string_bytes};
ghost use Rattle.machine.specs.Sets.{has_address};
ghost use Rattle.flow_recovery.specs.Sets.{lists, Adds};
ghost use Rattle.machine.specs.Loading.{load_segments};
ghost use Rattle.machine.specs.Apart.{AllFitMemory, AreApart};
ghost use Rattle.qed_model.specs.Promise.Changed.{Ordered};
ghost use Rattle.qed_top.specs.Run.{FileRuns, IsAboveMemory, RunsAs, is_reached_word, memory_bytes, memory_limit, outcome_status, ran as ran_of, second_of};
ghost use Rattle.qed_words.specs.Sound.{IsSoundRun};

use crate::answer::{Answer, above_limit, plain};
use crate::refusal::{not_admitted, unread};
use crate::status::Status;
use elf_read::read_shared;
use elf_types::{ElfFile, Segment, Shared};
use fault_inject::{Progress, run_changed, run_slipped, run_watched};
use flow_recovery::reached;
use qed_model::limits::MAX_MEMORY_BYTES;
use qed_model::{Changes, CodeWord, Limit, Options, Outcome, Test};
use qed_words::Watch;
use report::{jumps_text, run_text, slipped_text};
use rv_step::Machine;
use std::alloc::{AllocError, Global};
use std::collections::BTreeSet;
use test_admission::admit;

/// How to run a file: the most steps, the changes in the order of their steps, the address and
/// length of the dump in bytes, and what to look for.
#[derive(Debug, Drop)]
pub struct Way {
    pub steps: u64,
    pub changes: Changes,
    pub dump: Option<(u64, u64)>,
    pub watch: Watch,
}

/// The memory sizes of the PT_LOAD segments together, in bytes.
pub fn memory_size(segments: &[Segment]) -> u128
    ensures value { result ≡ memory_bytes segments.now }
    ensures bound { result ≤ 2 ^ 124 }
{
    let mut size = 0;
    for segment in segments {
        if segment.is_load() {
            size += u128::from(segment.memory);
        }
    }
    size
}

/// The answer if the segments of a file have more bytes of memory than can be run; else None.
pub fn above_memory(alloc: Global, file: &ElfFile) -> Result<Option<Answer>, AllocError>
    ensures { IfOk result (λ above. MatchOption above (memory_bytes file.now.segments ≤ memory_limit) (IsAboveMemory file.now)) }
{
    let size = memory_size(file.segments.as_slice());
    if size <= u128::from(MAX_MEMORY_BYTES) {
        return Ok(None);
    }
    let answer = above_limit(alloc, Limit::MemoryBytes, size)?;
    Ok(Some(answer))
}

/// The status that goes with the end of a run.
fn status_of(outcome: Outcome) -> Status
    ensures { result ≡ outcome_status outcome }
{
    match outcome {
        Outcome::Ended => Status::Done,
        Outcome::Fired => Status::Fired,
        Outcome::Trapped(_, _) => Status::Trapped,
        Outcome::Going => Status::StepsSpent,
    }
}

/// Adds the address of a word, if it is marked.
fn add_marked(list: &mut Vec<u64>, word: &CodeWord, is_marked: bool) -> Result<(), AllocError>
    ensures { OnOk result (Adds list.old.items list.new.items (λ a. (word.now.at == a) && is_marked)) }
{
    if is_marked {
        list.push(word.at)?;
    }
    Ok(())
}

/// The addresses of a test's reached code words, as a list.
fn reached_list(alloc: Global, test: &Test, file: &ElfFile) -> Result<Vec<u64>, AllocError>
    ensures { IfOk result (λ list. (a : ℕ) → lists list.items a ≡ is_reached_word file.now test.now a) }
{
    let marks = reached(alloc, test, file)?;
    let words = test.code.as_slice();
    let mut list = Vec::new(alloc);
    for place in 0..words.len() {
        add_marked(&mut list, &words[place], marks[place])?;
    }
    Ok(list)
}

/// The addresses of a test's reached code words, as a set.
fn reached_words(alloc: Global, test: &Test, file: &ElfFile) -> Result<BTreeSet<u64>, AllocError>
    ensures { IfOk result (λ set. (a : ℕ) → has_address set a ≡ is_reached_word file.now test.now a) }
{
    let list = reached_list(alloc, test, file)?;
    let set = list.into_iter().collect(alloc)?;
    Ok(set)
}

/// A machine run from the start of a file, and the second line about the run, which is empty if the run looks for
/// indirect jumps of what is not a test.
fn run_machine(
    alloc: Global,
    file: &ElfFile,
    test: Option<&Test>,
    way: &Way,
    progress: &mut dyn Progress,
) -> Result<(Machine, String), AllocError>
    requires fit { AllFitMemory (load_segments file.now.segments) }
    requires apart { AreApart (load_segments file.now.segments) }
    requires sound { Ordered way.now.changes }
    ensures run { IfOk result (λ ran. ran.0 ≡ ran_of way.now.watch file.now way.now.steps way.now.changes) }
    ensures second { IfOk result (λ ran. string_bytes ran.1 ≡ second_of way.now.watch file.now (option_copied test.entry) way.now.steps way.now.changes) }
{
    let mut machine = Machine::start(alloc, file, &[0; 32])?;
    let changes = way.changes.as_slice();
    let steps = way.steps;
    match way.watch {
        Watch::Nothing => {
            run_changed(&mut machine, changes, steps, progress)?;
            Ok((machine, String::new(alloc)))
        }
        Watch::Slip(at) => {
            let slipped = run_slipped(&mut machine, changes, &at, steps, progress)?;
            let line = slipped_text(alloc, slipped)?;
            Ok((machine, line))
        }
        Watch::Jumps => {
            let Some(test) = test else {
                run_changed(&mut machine, changes, steps, progress)?;
                return Ok((machine, String::new(alloc)));
            };
            let reached = reached_words(alloc, test, file)?;
            let astray = run_watched(&mut machine, changes, steps, &reached, progress)?;
            let line = jumps_text(alloc, astray)?;
            Ok((machine, line))
        }
    }
}

/// What `run` answers for a file that was read, and a test where it looks for indirect jumps.
fn answer_file(
    alloc: Global,
    file: &ElfFile,
    test: Option<&Test>,
    way: &Way,
    progress: &mut dyn Progress,
) -> Result<Answer, AllocError>
    requires fit { AllFitMemory (load_segments file.now.segments) }
    requires apart { AreApart (load_segments file.now.segments) }
    requires sound { IsSoundRun way.now.steps way.now.changes way.now.dump }
    ensures { IfOk result (FileRuns file.now (ran_of way.now.watch file.now way.now.steps way.now.changes)
        (second_of way.now.watch file.now (option_copied test.entry) way.now.steps way.now.changes) way.now.dump) }
{
    if let Some(answer) = above_memory(alloc, file)? {
        return Ok(answer);
    }
    let ran = run_machine(alloc, file, test, way, progress)?;
    let text = run_text(alloc, &ran.0, ran.1.as_bytes(), way.dump)?;
    Ok(plain(status_of(ran.0.outcome()), text))
}

/// What `run` answers over the bytes of its file; to look for indirect jumps, the file must be a test.
pub fn answer_run(
    alloc: Global,
    bytes: &Shared,
    way: &Way,
    progress: &mut dyn Progress,
) -> Result<Answer, AllocError>
    requires { IsSoundRun way.now.steps way.now.changes way.now.dump }
    ensures { IfOk result (RunsAs way.now.watch bytes.now way.now.steps way.now.changes way.now.dump) }
{
    let file = match read_shared(alloc, bytes) {
        Ok(file) => file,
        Err(error) => return Ok(unread(alloc, error)?),
    };
    match way.watch {
        Watch::Nothing => Ok(answer_file(alloc, &file, None, way, progress)?),
        Watch::Slip(_) => Ok(answer_file(alloc, &file, None, way, progress)?),
        Watch::Jumps => match admit(alloc, &file, &Options::default()) {
            Ok(test) => Ok(answer_file(alloc, &file, Some(&test), way, progress)?),
            Err(rule) => Ok(not_admitted(alloc, &rule)?),
        },
    }
}
