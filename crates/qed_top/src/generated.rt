//! What `gen` answers.
ghost use Rattle.std.specs.Prelude.{◌≡◌, ◌≤◌, IfOk};
ghost use Rattle.elf_read.specs.Known.{IsReadable};
ghost use Rattle.tests.specs.Options.{default_options};
ghost use Rattle.test_gen.specs.Generated.{generated};
ghost use Rattle.transform.specs.Transform.{Transforms};
ghost use Rattle.qed_top.specs.Gen.{Generates, Gens, IsRunOf, most_steps, test_bytes};

use crate::answer::{Answer, Stored};
use crate::refusal::refused;
use crate::status::Status;
use elf_read::read_known;
use qed_model::Options;
use qed_words::Name;
use report::{Drawn, generated_text};
use rv_step::Machine;
use std::alloc::{AllocError, Global};
use test_gen::{code_words, generate};
use transform::{Transformed, transform};

/// The greatest number of steps of each run.
const MAX_STEPS: u64 = 100_000_000;

/// A run of a file, by its bytes.
fn run(alloc: Global, bytes: &[u8]) -> Result<Machine, AllocError>
    requires { IsReadable bytes.now }
    ensures { IfOk result (IsRunOf bytes.now) }
{
    let file = read_known(alloc, bytes)?;
    let mut machine = Machine::start(alloc, &file, &[0; 32])?;
    machine.run(MAX_STEPS)?;
    Ok(machine)
}

/// What `gen` answers for a test that is stored, and its output.
fn deliver(
    alloc: Global,
    seed: u64,
    size: u64,
    stored: Stored,
    made: &Transformed,
) -> Result<Answer, AllocError>
    requires some { 1 ≤ size }
    requires small { size ≤ 60000 }
    requires same { stored.bytes ≡ test_bytes seed size }
    requires test { IsReadable stored.bytes }
    requires made { Transforms (test_bytes seed size) default_options made.now.file made.now.plan }
    requires file { IsReadable made.now.file }
    ensures { IfOk result (Generates stored.name seed size made.now.file made.now.plan) }
{
    let own = run(alloc, stored.bytes.as_slice())?;
    let woven = run(alloc, made.file.as_slice())?;
    let drawn = Drawn {
        seed,
        size,
        words: code_words(size),
    };
    let text = generated_text(alloc, drawn, &own, &made.plan, &woven)?;
    Ok(Answer {
        status: Status::Done,
        text,
        stored: Some(stored),
    })
}

/// What `gen` answers for a seed and a size in body instructions. The test is transformed, and both
/// are run, before it is stored.
pub fn answer_gen(alloc: Global, output: Name, seed: u64, size: u64) -> Result<Answer, AllocError>
    requires some { 1 ≤ size }
    requires small { size ≤ 60000 }
    ensures { IfOk result (Gens output seed size) }
{
    let test = generate(alloc, seed, size)?;
    match transform(alloc, test.as_slice(), &Options::default()) {
        Ok(made) => {
            let stored = Stored {
                name: output,
                bytes: test,
            };
            Ok(deliver(alloc, seed, size, stored, &made)?)
        }
        Err(error) => Ok(refused(alloc, &error)?),
    }
}
