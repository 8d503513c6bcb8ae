//! What `harts` answers.
ghost use Rattle.std.specs.Prelude.{◌≡◌, ◌≤◌, ◌<◌, ℕ, List, [], Option, IfOk, IfErr, IfSome, OnOk, OnErr, length, slice_index};
ghost use Rattle.elf_types.specs.declared.file.ElfFile.{ElfFile as File};
ghost use Rattle.harts.specs.HartSteps.{Counted};
ghost use Rattle.harts.specs.Played.{programs};
ghost use Rattle.harts.specs.Shared.{AreSound};
ghost use Rattle.qed_io.specs.Counts.{NoneFell};
ghost use Rattle.qed_io.specs.Files.{file_bytes};
ghost use Rattle.machine.specs.Below.{each};
ghost use Rattle.tests.specs.Files.File.{IsReadAs};
ghost use Rattle.machine.specs.Limits.{limit_of};
ghost use Rattle.machine.specs.declared.limits.Limit.TheVariants.{RunFileBytes};
ghost use Rattle.machine.specs.Apart.{AllFitMemory, AreApart};
ghost use Rattle.machine.specs.Loading.{load_segments};
ghost use Rattle.qed_words.specs.Sound.{IsSoundSchedule};
ghost use Rattle.qed_top.specs.Answer.{CallsFor, IsFaultless, LoadRose, SteadyOrReadFault};
ghost use Rattle.qed_top.specs.Loads.{OverFiles, OverLoads};
ghost use Rattle.qed_top.specs.Refused.{IsUnread};
ghost use Rattle.qed_top.specs.Turns.{AreTurns, IsTaken, LeadsFrom, TellsTurns};
ghost use Rattle.qed_top.specs.World.{FilesCallFor, Plays, bytes_of_files, takers as takers_of, world_status};
ghost use Rattle.qed_top.specs.declared.answer.Answer.{Answer as Answered};

use crate::answer::{Answer, above_limit, plain};
use crate::load::read_file;
use crate::refusal::unread;
use crate::run::memory_size;
use crate::status::Status;
use elf_read::read_elf;
use elf_types::{Bytes, ElfFile};
use harts::{HartsError, World};
use qed_io::Shelf;
use qed_model::Limit;
use qed_model::limits::MAX_MEMORY_BYTES;
use qed_words::Name;
use report::{shared_text, world_text};
use std::alloc::{AllocError, Global};

/// The memory sizes of all PT_LOAD segments of files together, in bytes.
fn memory_sizes(files: &[ElfFile]) -> u128
    requires { length files.now ≤ 8 }
    ensures { result ≡ bytes_of_files files.now }
{
    let mut size = 0;
    for file in files {
        size += memory_size(file.segments.as_slice());
    }
    size
}

/// The status for the ends of all harts.
fn status_of(world: &World) -> Status
    ensures { result ≡ world_status world.now }
{
    if world.has_fired() {
        Status::Fired
    } else if world.has_trapped() {
        Status::Trapped
    } else if world.goes_on() {
        Status::StepsSpent
    } else {
        Status::Done
    }
}

/// The harts of a list, by their numbers.
fn listed(alloc: Global, harts: &[u8]) -> Result<Vec<u64>, AllocError>
    ensures { IfOk result (λ numbers. numbers.items ≡ harts.now) }
{
    let mut numbers = Vec::new(alloc);
    for &hart in harts {
        numbers.push(u64::from(hart))?;
    }
    Ok(numbers)
}

/// The numbers below `count`.
#[tactic(auto, unfolding(machine::specs::Below::each))]
fn numbers(alloc: Global, count: usize) -> Result<Vec<u64>, AllocError>
    ensures { IfOk result (λ numbers. numbers.items ≡ each count (λ i. i)) }
{
    let mut numbers = Vec::new(alloc);
    for number in 0..count {
        numbers.push(number as u64)?;
    }
    Ok(numbers)
}

/// The harts that make the turns, of `count` harts.
fn takers(alloc: Global, count: usize, turns: Option<Bytes>) -> Result<Vec<u64>, AllocError>
    ensures { IfOk result (λ harts. harts.items ≡ takers_of count turns) }
{
    match turns {
        Some(harts) => Ok(listed(alloc, harts.as_slice())?),
        None => Ok(numbers(alloc, count)?),
    }
}

/// The answer after `steps` turns.
fn tell(alloc: Global, mut world: World, harts: &[u64], steps: u64) -> Result<Answer, AllocError>
    requires some { 0 < length harts.now }
    requires harts { (k : ℕ) → k < length harts.now → slice_index harts.now k < length world.world.harts }
    ensures { IfOk result (TellsTurns world harts.now steps) }
{
    world.play(harts, steps)?;
    let text = world_text(alloc, &world)?;
    Ok(plain(status_of(&world), text))
}

/// The answer over files that were read.
fn play(
    alloc: Global,
    files: &[ElfFile],
    turns: Option<Bytes>,
    steps: u64,
) -> Result<Answer, AllocError>
    requires sound { AreSound (programs files.now) }
    requires some { 1 ≤ length files.now }
    requires few { length files.now ≤ 8 }
    requires turns { AreTurns (length files.now) turns }
    ensures { IfOk result (Plays files.now turns steps) }
{
    let size = memory_sizes(files);
    if size > u128::from(MAX_MEMORY_BYTES) {
        return Ok(above_limit(alloc, Limit::MemoryBytes, size)?);
    }
    match World::start(alloc, files) {
        Ok(world) => {
            let harts = takers(alloc, files.len(), turns)?;
            Ok(tell(alloc, world, &harts, steps)?)
        }
        Err(HartsError::Shared(first, second)) => {
            let text = shared_text(alloc, first, second)?;
            Ok(plain(Status::Refused, text))
        }
        Err(HartsError::Memory) => Err(AllocError),
    }
}

/// The file of a name, or the answer if it cannot be loaded or read.
fn read_one<S: Shelf>(
    alloc: Global,
    name: &str,
    shelf: &mut S,
) -> Result<Result<ElfFile, Answer>, AllocError>
    ensures read { IfOk result (λ read. IfOk read (λ file. OverFiles (S.files shelf.old) (λ files. IsTaken (file_bytes files name.now) file))) }
    ensures fit { IfOk result (λ read. IfOk read (λ file. AllFitMemory (load_segments file.segments))) }
    ensures apart { IfOk result (λ read. IfOk read (λ file. AreApart (load_segments file.segments))) }
    ensures loaded { IfOk result (λ read. OnOk read (IsFaultless S.Shelf shelf.old shelf.new)) }
    ensures other { IfOk result (λ read. IfErr read (λ answer. OverFiles (S.files shelf.old) (λ files.
        CallsFor RunFileBytes (file_bytes files name.now) (LoadRose S.Shelf shelf.old shelf.new name.now)
        (IsUnread (file_bytes files name.now) answer) answer))) }
    ensures files { S.files shelf.new ≡ S.files shelf.old }
    ensures stores { NoneFell (S.store_faults shelf.old) (S.store_faults shelf.new) }
    ensures steady { IfOk result (λ read. IfErr read (SteadyOrReadFault (IsFaultless S.Shelf shelf.old shelf.new))) }
    ensures memory { OnErr result (IsFaultless S.Shelf shelf.old shelf.new) }
{
    let loaded = read_file(alloc, name, Limit::RunFileBytes, shelf)?;
    match loaded {
        Ok(bytes) => match read_elf(alloc, bytes.as_slice()) {
            Ok(file) => Ok(Ok(file)),
            Err(error) => Ok(Err(unread(alloc, error)?)),
        },
        Err(answer) => Ok(Err(answer)),
    }
}

/// The files of the names, each read before the next is loaded; or the answer for the first that fails.
fn read_files<S: Shelf>(
    alloc: Global,
    names: &[Name],
    shelf: &mut S,
) -> Result<Result<Vec<ElfFile>, Answer>, AllocError>
    ensures read { IfOk result (λ read. IfOk read (λ files. LeadsFrom (S.files shelf.old) (S.load_faults shelf.old) names.now files.items)) }
    ensures count { IfOk result (λ read. IfOk read (λ files. length files.items ≡ length names.now)) }
    ensures sound { IfOk result (λ read. IfOk read (λ files. AreSound (programs files.items))) }
    ensures loaded { IfOk result (λ read. OnOk read (IsFaultless S.Shelf shelf.old shelf.new)) }
    ensures other { IfOk result (λ read. IfErr read (λ answer. (turns : Option (List ℕ)) (steps : ℕ) → OverLoads (S.files shelf.old) (λ loads.
        FilesCallFor names.now [] turns steps loads (LoadRose S.Shelf shelf.old shelf.new) answer))) }
    ensures files { S.files shelf.new ≡ S.files shelf.old }
    ensures stores { NoneFell (S.store_faults shelf.old) (S.store_faults shelf.new) }
    ensures steady { IfOk result (λ read. IfErr read (SteadyOrReadFault (IsFaultless S.Shelf shelf.old shelf.new))) }
    ensures memory { OnErr result (IsFaultless S.Shelf shelf.old shelf.new) }
{
    let mut files = Vec::new(alloc);
    for name in names {
        let read = read_one(alloc, name.as_str(), shelf)?;
        match read {
            Ok(file) => files.push(file)?,
            Err(answer) => return Ok(Err(answer)),
        }
    }
    Ok(Ok(files))
}

/// What `harts` answers over the files of its names: the turns, by the given harts, again and
/// again, or by each hart from 0 upwards.
pub fn answer_harts<S: Shelf>(
    alloc: Global,
    names: &[Name],
    turns: Option<Bytes>,
    steps: u64,
    shelf: &mut S,
) -> Result<Answer, AllocError>
    requires { IsSoundSchedule names.now turns steps }
    ensures meant { IfOk result (λ answer. OverLoads (S.files shelf.old) (λ loads.
        FilesCallFor names.now [] turns steps loads (LoadRose S.Shelf shelf.old shelf.new) answer)) }
    ensures files { S.files shelf.new ≡ S.files shelf.old }
    ensures stores { NoneFell (S.store_faults shelf.old) (S.store_faults shelf.new) }
    ensures steady { IfOk result (SteadyOrReadFault (IsFaultless S.Shelf shelf.old shelf.new)) }
    ensures memory { OnErr result (IsFaultless S.Shelf shelf.old shelf.new) }
{
    let read = read_files(alloc, names, shelf)?;
    match read {
        Ok(files) => Ok(play(alloc, &files, turns, steps)?),
        Err(answer) => Ok(answer),
    }
}
