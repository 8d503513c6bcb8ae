//! What is printed about several harts.
ghost use Rattle.std.specs.Prelude.{◌≡◌, ◌<◌, length, IfOk};
ghost use Rattle.report.specs.World.{hart_text, shared_line, world_text};

use crate::run::run_lines;
use elf_types::Bytes;
use harts::World;
use std::alloc::{AllocError, Global};

/// The line for two files that share a byte, by their numbers, from 0.
pub fn shared_text(alloc: Global, first: u64, second: u64) -> Result<Bytes, AllocError>
    ensures { IfOk result (λ text. text ≡ shared_line first second) }
{
    Ok(Bytes::of(format!(in alloc; "refused H1: files {first} and {second}\n")?.into_bytes()))
}

/// The lines about a hart: its number, and those of a run.
fn hart_text(alloc: Global, world: &World, number: u64) -> Result<Vec<u8>, AllocError>
    requires { number < length world.now.world.harts }
    ensures { IfOk result (λ text. text.items ≡ hart_text world.now number) }
{
    let mut text = format!(in alloc; "hart {number}\n")?.into_bytes();
    let lines = run_lines(alloc, world.hart(number))?;
    text.extend_from_slice(&lines)?;
    Ok(text)
}

/// What is printed about several harts: for each its number, and the lines of a run without a dump.
#[tactic(auto, unfolding(crate::specs::World::world_text, machine::specs::Below::gather))]
pub fn world_text(alloc: Global, world: &World) -> Result<Bytes, AllocError>
    ensures { IfOk result (λ text. text ≡ world_text world.now) }
{
    let mut text = Vec::new(alloc);
    for number in 0..world.count() {
        let lines = hart_text(alloc, world, number)?;
        text.extend_from_slice(&lines)?;
    }
    Ok(Bytes::of(text))
}
