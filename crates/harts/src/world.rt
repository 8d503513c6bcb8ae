//! The world of several harts.
ghost use Rattle.std.specs.Prelude.{◌≡◌, ℕ, ◌+◌, ◌%◌, ◌<◌, ◌∷◌, [], false, length, slice_get, slice_index, Some, IfOk, IfErr};
ghost use Rattle.std.specs.Option.{option_map};
ghost use Rattle.std.specs.FinMap.{get};
ghost use Rattle.harts.specs.HartSteps.{bare, counted_start, counted_turn, counted_strike, counted_turns, cycled};
ghost use Rattle.harts.specs.Shared.{AreSound, AreUnshared, ExplainsHarts};
ghost use Rattle.harts.specs.Played.{programs, IsPartPlayed};
ghost use Rattle.qed_model.specs.Promise.Kept.{is_trapped};
ghost use Rattle.rv_step.specs.Known.{does_step};
ghost use Rattle.harts.specs.Standing.{has_one, is_fired, AreIdle};

use crate::error::HartsError;
use crate::parts::{all_specs, start_harts};
use crate::standing::{any_fired, any_going, any_trapped, is_going};
use elf_types::ElfFile;
use mem_image::{Image, first_sharing};
use qed_model::{Outcome, Place};
use rv_isa::Reg;
use rv_step::Hart;
use std::alloc::{AllocError, Global};
use std::marker::Model;

/// Several harts of RV64IM with one memory. Harts have numbers, from 0.
#[derive(Drop)]
pub struct World {
    harts: Vec<Hart>,
    image: Image,
}

impl Model for World {
    ghost use Rattle.harts.specs.HartSteps.{Counted, counted_world};
    ghost use Rattle.harts.specs.Codes.{counted_code};

    ghost Value = { Counted };

    ghost coded = { counted_code };

    ghost view = { λ w. counted_world w.harts.items w.image };
}

/// The place behind one of `count` places in a circle.
fn next_place(place: usize, count: usize) -> usize
    requires { place < count }
    ensures { result ≡ (place + 1) % count }
{
    if place + 1 < count { place + 1 } else { 0 }
}

impl World {
    /// A hart for each file, with all registers 0, and one memory with the PT_LOAD segments of all files.
    /// Fails with `Shared` exactly if PT_LOAD segments of two files share a byte, with the least such pair.
    ///
    /// Of each file, no two PT_LOAD segments share a byte, none ends past 2^64, and each has at most `memory` bytes.
    pub fn start(alloc: Global, files: &[ElfFile]) -> Result<World, HartsError>
        requires { AreSound (programs files.now) }
        ensures started { IfOk result (λ world. world ≡ counted_start (programs files.now)) }
        ensures count { IfOk result (λ world. length world.world.harts ≡ length files.now) }
        ensures apart { IfOk result (λ _. AreUnshared (programs files.now)) }
        ensures error { IfErr result (ExplainsHarts (programs files.now)) }
    {
        if let Some((i, j)) = first_sharing(files) {
            return Err(HartsError::Shared(i, j));
        }
        let specs = all_specs(alloc, files)?;
        let harts = start_harts(alloc, files)?;
        let image = Image::of(alloc, &specs)?;
        Ok(World { harts, image })
    }

    /// A turn of a hart: one step of it and the memory, if it goes on. Returns its outcome.
    pub fn turn(&mut self, hart: u64) -> Result<Outcome, AllocError>
        requires { hart < length self.old.world.harts }
        ensures turned { IfOk result (λ _. self.new ≡ counted_turn hart self.old) }
        ensures outcome { IfOk result (λ o. option_map (λ h. h.outcome) (slice_get self.new.world.harts hart) ≡ Some o) }
        ensures count { length self.new.world.harts ≡ length self.old.world.harts }

        // Without memory for a page, nothing changes.
        ensures kept { IfErr result (λ _. self.new ≡ self.old) }
    {
        let outcome = self.harts[hart as usize].step(&mut self.image)?;
        Ok(outcome)
    }

    /// `n` turns of one hart, which are a run of it.
    fn play_one(&mut self, hart: u64, n: u64) -> Result<(), AllocError>
        requires { hart < length self.old.world.harts }
        ensures played { IfOk result (λ _. self.new ≡ counted_turns self.old (cycled (hart ∷ []) n)) }
        ensures count { length self.new.world.harts ≡ length self.old.world.harts }
        ensures part { IfErr result (λ _. IsPartPlayed self.old (hart ∷ []) n self.new) }
    {
        self.harts[hart as usize].run(&mut self.image, n)?;
        Ok(())
    }

    /// `n` turns, by the harts of the list, again and again. Stops early if none of these harts
    /// goes on: more turns would change nothing.
    pub fn play(&mut self, harts: &[u64], n: u64) -> Result<(), AllocError>
        requires some { 0 < length harts.now }
        requires harts { (k : ℕ) → k < length harts.now → slice_index harts.now k < length self.old.world.harts }
        ensures played { IfOk result (λ _. self.new ≡ counted_turns self.old (cycled harts.now n)) }
        ensures count { length self.new.world.harts ≡ length self.old.world.harts }

        // Without memory for a page, the turns before were made.
        ensures part { IfErr result (λ _. IsPartPlayed self.old harts.now n self.new) }
    {
        if harts.len() == 1 {
            self.play_one(harts[0], n)?;
            return Ok(());
        }
        let mut place = 0;
        for _ in 0..n {
            if place == 0 && !self.one_goes_on(harts) {
                return Ok(());
            }
            self.turn(harts[place])?;
            place = next_place(place, harts.len());
        }
        Ok(())
    }

    /// Whether one of these harts goes on.
    fn one_goes_on(&self, harts: &[u64]) -> bool
        requires { (k : ℕ) → k < length harts.now → slice_index harts.now k < length self.now.world.harts }
        ensures { result ≡ false → AreIdle self.now harts.now }
    {
        for hart in harts {
            if is_going(self.harts[*hart as usize].outcome()) {
                return true;
            }
        }
        false
    }

    /// Gives a register of the hart other than x0 another number, or each mapped byte of a word of
    /// the memory its byte of the number, little endian and whatever its permission.
    pub fn strike(&mut self, hart: u64, place: &Place, value: u64) -> Result<(), AllocError>
        requires { hart < length self.old.world.harts }
        ensures struck { IfOk result (λ _. self.new ≡ counted_strike hart place.now value self.old) }
        ensures count { length self.new.world.harts ≡ length self.old.world.harts }
        ensures kept { IfErr result (λ _. self.new ≡ self.old) }
    {
        match *place {
            Place::Reg(r) => {
                self.harts[hart as usize].set(r, value);
                Ok(())
            }
            Place::Word(address) => {
                self.image.poke(address, value)?;
                Ok(())
            }
        }
    }

    /// How many harts there are.
    pub fn count(&self) -> u64
        ensures { result ≡ length self.now.world.harts }
    {
        self.harts.len() as u64
    }

    /// The hart of a number.
    pub fn hart(&self, hart: u64) -> &Hart
        requires { hart < length self.now.world.harts }
        ensures hart { slice_get self.now.world.harts hart ≡ Some (bare result.now) }
        ensures steps { slice_get self.now.steps hart ≡ Some result.now.steps }
    {
        &self.harts[hart as usize]
    }

    /// Whether a hart has fired.
    #[tactic(auto, using(crate::proofs::Bare::any_bare))]
    pub fn has_fired(&self) -> bool
        ensures { result ≡ has_one is_fired self.now }
    {
        any_fired(&self.harts)
    }

    /// Whether a hart has trapped.
    #[tactic(auto, using(crate::proofs::Bare::any_bare))]
    pub fn has_trapped(&self) -> bool
        ensures { result ≡ has_one is_trapped self.now }
    {
        any_trapped(&self.harts)
    }

    /// Whether a hart goes on.
    #[tactic(auto, using(crate::proofs::Bare::any_bare))]
    pub fn goes_on(&self) -> bool
        ensures { result ≡ has_one does_step self.now }
    {
        any_going(&self.harts)
    }

    /// The number that a register of the hart holds.
    pub fn reg(&self, hart: u64, r: Reg) -> u64
        requires { hart < length self.now.world.harts }
        ensures { option_map (λ h. slice_index h.regs r) (slice_get self.now.world.harts hart) ≡ Some result }
    {
        self.harts[hart as usize].reg(r)
    }

    /// The address of the hart's next instruction.
    pub fn pc(&self, hart: u64) -> u64
        requires { hart < length self.now.world.harts }
        ensures { option_map (λ h. h.pc) (slice_get self.now.world.harts hart) ≡ Some result }
    {
        self.harts[hart as usize].pc()
    }

    /// How many turns the hart made while it went on. It stays at 2^64 - 1.
    pub fn steps(&self, hart: u64) -> u64
        requires { hart < length self.now.world.harts }
        ensures { slice_get self.now.steps hart ≡ Some result }
    {
        self.harts[hart as usize].steps()
    }

    /// Whether the hart goes on, or how it stopped.
    pub fn outcome(&self, hart: u64) -> Outcome
        requires { hart < length self.now.world.harts }
        ensures { option_map (λ h. h.outcome) (slice_get self.now.world.harts hart) ≡ Some result }
    {
        self.harts[hart as usize].outcome()
    }

    /// The byte at an address, or None if it is not mapped.
    pub fn byte(&self, address: u64) -> Option<u8>
        ensures { result ≡ option_map (λ c. c.byte) (get self.now.world.memory address) }
    {
        self.image.peek(address)
    }
}
