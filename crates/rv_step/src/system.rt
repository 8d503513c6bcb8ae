//! The machine, from outside.
ghost use Rattle.std.specs.Prelude.{◌≡◌, ◌+◌, ◌%◌, ◌^◌, true, IfOk, IfErr};
ghost use Rattle.std.specs.Option.{option_map};
ghost use Rattle.std.specs.FinMap.{get};
ghost use Rattle.machine.specs.Program.{start};
ghost use Rattle.machine.specs.Loading.{load_segments, loaded_file};
ghost use Rattle.machine.specs.Step.{reg, fetched_at};
ghost use Rattle.machine.specs.Progress.{advanced, first_state, progress};
ghost use Rattle.machine.specs.Struck.{struck};
ghost use Rattle.machine.specs.Apart.{AllFitMemory, AreApart};
ghost use Rattle.rv_step.specs.Harts.{with_memory};
ghost use Rattle.rv_step.specs.Known.{known_at, struck_progress, AreMade, IsPart};

use crate::hart::Hart;
use elf_types::ElfFile;
use machine::{Outcome, Place};
use mem_image::Image;
use rv_isa::{Ins, Reg};
use std::alloc::{AllocError, Global};
use std::marker::Model;

/// A machine: one hart of RV64IM with its memory. Addresses are in bytes.
#[derive(Drop)]
pub struct Machine {
    pub(crate) hart: Hart,
    pub(crate) image: Image,
}

impl Model for Machine {
    ghost use Rattle.machine.specs.Progress.{Progress};
    ghost use Rattle.rv_step.specs.Codes.{progress_code};
    ghost use Rattle.rv_step.specs.Harts.{with_memory};

    ghost Value = { Progress };

    ghost coded = { progress_code };

    ghost view = { λ m. with_memory m.hart m.image };
}

impl Machine {
    /// One step, if the machine goes on, and how it stands then (RISC-V unprivileged manual, RV64I and the M
    /// extension). A step that ends, fires or traps changes nothing but the outcome, and is counted.
    pub fn step(&mut self) -> Result<Outcome, AllocError>
        ensures step { IfOk result (λ _. self.new ≡ advanced self.old) }
        ensures outcome { IfOk result (λ o. o ≡ self.new.state.outcome) }

        // Without memory for a page, nothing changes.
        ensures kept { IfErr result (λ _. self.new ≡ self.old) }
    {
        let outcome = self.hart.step(&mut self.image)?;
        Ok(outcome)
    }

    /// As many steps as the number says, and how the machine stands then.
    pub fn run(&mut self, n: u64) -> Result<Outcome, AllocError>
        ensures run { IfOk result (λ _. self.new ≡ progress self.old n) }
        ensures outcome { IfOk result (λ o. o ≡ self.new.state.outcome) }

        // Without memory for a page, the steps before were made.
        ensures part { IfErr result (λ _. IsPart self.old n self.new) }
    {
        let outcome = self.hart.run(&mut self.image, n)?;
        Ok(outcome)
    }

    /// Runs and counts the steps that were made: as many as the number says, or fewer if the machine stopped.
    pub fn run_made(&mut self, n: u64) -> Result<u64, AllocError>
        ensures run { IfOk result (λ _. self.new ≡ progress self.old n) }
        ensures made { IfOk result (λ made. AreMade self.old n made) }
        ensures part { IfErr result (λ _. IsPart self.old n self.new) }
    {
        let made = self.hart.run_made(&mut self.image, n)?;
        Ok(made)
    }

    /// The hart of the machine.
    pub fn hart(&self) -> &Hart
        ensures { with_memory result.now self.now.state.memory ≡ self.now }
    {
        &self.hart
    }

    /// The number that a register holds.
    pub fn reg(&self, r: Reg) -> u64
        ensures { result ≡ reg self.now.state r }
    {
        self.hart.reg(r)
    }

    /// The address of the next instruction.
    pub fn pc(&self) -> u64
        ensures { result ≡ self.now.state.pc }
    {
        self.hart.pc()
    }

    /// How many steps were made while the machine went on. It stays at 2^64 - 1.
    pub fn steps(&self) -> u64
        ensures { result ≡ self.now.steps }
    {
        self.hart.steps()
    }

    /// Whether the machine goes on, or how it stopped.
    pub fn outcome(&self) -> Outcome
        ensures { result ≡ self.now.state.outcome }
    {
        self.hart.outcome()
    }

    /// The instruction at the pc, or None if no code may be executed there or the word is not one.
    pub fn next(&self) -> Option<Ins>
        ensures { result ≡ known_at self.now.state self.now.state.pc }
    {
        self.hart.known(&self.image, self.hart.pc())
    }

    /// The instruction that stands this many bytes behind the pc, modulo 2^64, or None as in `next`.
    pub fn ahead(&self, offset: u64) -> Option<Ins>
        ensures { result ≡ known_at self.now.state ((self.now.state.pc + offset) % 2 ^ 64) }
    {
        self.hart
            .known(&self.image, self.hart.pc().wrapping_add(offset))
    }

    /// The byte at an address, or None where it is not mapped.
    pub fn byte(&self, address: u64) -> Option<u8>
        ensures { result ≡ option_map (λ c. c.byte) (get self.now.state.memory address) }
    {
        self.image.peek(address)
    }

    /// Gives a register other than x0 another number, or each of eight bytes that is mapped its byte of the number,
    /// little endian and whatever its permission.
    #[tactic(auto, unfolding(machine::specs::Struck::struck))]
    pub fn strike(&mut self, place: &Place, value: u64) -> Result<(), AllocError>
        ensures struck { IfOk result (λ _. self.new ≡ struck_progress place.now value self.old) }
        ensures kept { IfErr result (λ _. self.new ≡ self.old) }
    {
        match *place {
            Place::Reg(r) => {
                self.hart.set(r, value);
                Ok(())
            }
            Place::Word(address) => {
                self.image.poke(address, value)?;
                Ok(())
            }
        }
    }

    /// Whether this machine and another go on in the same state. It may be false if they do, as when their memories
    /// have more than `pages` pages.
    pub fn is_beside(&self, other: &Machine, pages: u64) -> bool
        ensures { result ≡ true → self.now.state ≡ other.now.state }
    {
        self.hart.is_beside(&other.hart) && self.image.is_same(&other.image, pages)
    }

    /// Knows from now on the instructions that another machine has decoded, which are not decoded again.
    pub fn learn(&mut self, other: &Machine) -> Result<(), AllocError>
        ensures { self.new ≡ self.old }
    {
        self.hart.learn(&other.hart)?;
        Ok(())
    }

    /// An equal machine.
    pub fn copy(&self, alloc: Global) -> Result<Machine, AllocError>
        ensures { IfOk result (λ machine. machine ≡ self.now) }
    {
        Ok(Machine {
            hart: self.hart.copy()?,
            image: self.image.copy(alloc)?,
        })
    }
}
