//! Runs: no instruction of a run uses as base, or stores, a register that an earlier one has written.
ghost use Rattle.std.specs.Prelude.{◌≡◌, ℕ, slice_index_or, false, ◌≤◌, length};
ghost use Rattle.qed_model.specs.Weave.Pieces.{is_clean, and_written};
ghost use Rattle.block_split.specs.Lengths.{IsLongestRun};

use rv_isa::{Class, Ins};

/// Whether neither the base of a load or store nor a stored register has been written.
fn is_clean(written: &[bool; 32], instruction: &Ins) -> bool
    ensures { result ≡ is_clean (λ r. slice_index_or written.now r false) instruction.now }
{
    match instruction.class() {
        Class::Load => !written[instruction.rs1.number() as usize],
        Class::Store => !written[instruction.rs1.number() as usize]
            && !written[instruction.rs2.number() as usize],
        _ => true,
    }
}

/// Notes the register that an instruction writes.
fn note_written(written: &mut [bool; 32], instruction: &Ins)
    ensures { (r : ℕ) → slice_index_or written.new r false ≡ and_written instruction.now (λ q. slice_index_or written.old q false) r }
{
    if let Some(register) = instruction.writes() {
        written[register.number() as usize] = true;
    }
}

/// How many instructions the longest run from the first on has.
#[tactic(auto, using(crate::proofs::RunLaws::stopped, crate::proofs::RunLaws::noted, crate::proofs::RunLaws::ran, crate::proofs::RunLaws::none_set))]
pub fn run_length(body: &[Ins]) -> usize
    ensures { IsLongestRun body.now result }
{
    let mut written = [false; 32];
    let mut count = 0;
    for instruction in body {
        if !is_clean(&written, instruction) {
            return count;
        }
        note_written(&mut written, instruction);
        count += 1;
    }
    count
}
