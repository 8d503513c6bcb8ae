//! Instructions by the addresses at which they stand.
ghost use Rattle.std.specs.Prelude.{◌≡◌, ◌<◌, ◌%◌, IfOk, IfSome};
ghost use Rattle.machine.specs.Step.{State, Known, next};
ghost use Rattle.rv_step.specs.Windows.{IsHeld, IsTable};

use rv_isa::Ins;
use std::alloc::{AllocError, Global};
use std::marker::Model;

/// How many instructions are kept: as many as 32 KiB of code have.
const KEPT: usize = 8192;

/// How many others an instruction outlives.
const LIVES: u64 = 8;

/// An instruction, and the address at which it stands. At an odd address there is none.
///
/// It has 32 bytes, so that its place is an address by a mask and one multiplication.
#[derive(Clone, Copy)]
pub struct Entry {
    ins: Ins,
    address: u64,
    /// How many instructions with the same place it outlives, so that those of a loop that is longer than the table do
    /// not drop one another in turn.
    lives: u64,
}

impl Entry {
    fn new(address: u64, ins: &Ins) -> Entry
        ensures { result ≡ record { ins = ins.now; address = address; lives = 8 } }
    {
        Entry {
            ins: *ins,
            address,
            lives: LIVES,
        }
    }

    /// This entry, which outlives one less.
    fn older(&self) -> Entry
        ensures address { result.address ≡ self.now.address }
        ensures ins { result.ins ≡ self.now.ins }
    {
        Entry {
            ins: self.ins,
            address: self.address,
            lives: self.lives.saturating_sub(1),
        }
    }
}

/// Instructions that stand where no store changes them, each at one of two places that its address tells.
#[derive(Drop)]
pub struct Table {
    all: Vec<Entry>,
}

impl Model for Table {
    ghost use Rattle.std.specs.Prelude.{◌≡◌, List, length};
    ghost use Rattle.rv_step.specs.declared.table.Entry.{Entry};

    ghost Value = { List Entry };

    ghost view = { λ t. t.all.items };

    ghost invariant = { λ t. length t.all.items ≡ 8192 };
}

/// The first place of an address, next to those of the words around it.
#[inline(always)]
fn slot(address: u64) -> usize
    ensures { result < 8192 }
{
    ((address >> 2) % KEPT as u64) as usize
}

/// The second place of an address, by all of its low bits, for words whose pages or ranges share their first places.
#[inline(always)]
fn second_slot(address: u64) -> usize
    ensures { result < 8192 }
{
    let word = address >> 2;
    ((word ^ (word >> 13) ^ (word >> 26)) % KEPT as u64) as usize
}

impl Table {
    /// One that has no instruction.
    pub fn new(alloc: Global) -> Result<Table, AllocError>
        ensures { IfOk result (λ table. (s : State) → IsTable s table) }
    {
        let none = Entry {
            ins: Ins::nop(),
            address: 1,
            lives: 0,
        };
        let all = vec![in alloc; none; KEPT]?;
        Ok(Table { all })
    }

    /// The instruction at an address, a multiple of 4, where it is kept.
    #[inline(always)]
    pub fn at(&self, address: u64) -> Option<&Ins>
        requires { address % 4 ≡ 0 }
        ensures { IfSome result (λ ins. (s : State) → IsTable s self.now → address ≡ s.pc → next s ≡ Known ins.now) }
    {
        match self.at_place(slot(address), address) {
            None => self.at_place(second_slot(address), address),
            first => first,
        }
    }

    /// The instruction at an address, if this place keeps it.
    #[inline(always)]
    fn at_place(&self, place: usize, address: u64) -> Option<&Ins>
        requires place { place < 8192 }
        requires grain { address % 4 ≡ 0 }
        ensures { IfSome result (λ ins. (s : State) → IsTable s self.now → address ≡ s.pc → next s ≡ Known ins.now) }
    {
        let entry = &self.all[place];
        if entry.address != address {
            return None;
        }
        Some(&entry.ins)
    }

    /// Keeps the instruction at an address, in the place of another, unless both of those are to stay.
    pub fn put(&mut self, address: u64, ins: &Ins)
        ensures { (s : State) → IsTable s self.old → IsHeld s address ins.now → IsTable s self.new }
    {
        if !self.put_at(slot(address), address, ins) {
            self.put_at(second_slot(address), address, ins);
        }
    }

    /// Keeps the instruction at an address in this place, unless what is there is to stay, and whether it did.
    fn put_at(&mut self, at: usize, address: u64, ins: &Ins) -> bool
        requires { at < 8192 }
        ensures { (s : State) → IsTable s self.old → IsHeld s address ins.now → IsTable s self.new }
    {
        let old = self.all[at];
        if old.lives > 0 {
            self.all[at] = old.older();
            return false;
        }
        self.all[at] = Entry::new(address, ins);
        true
    }
}
