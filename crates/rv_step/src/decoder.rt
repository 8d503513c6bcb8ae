//! Instructions that were decoded, kept by their words.
ghost use Rattle.std.specs.Prelude.{◌≡◌, ◌<◌, ◌==◌, length, IfOk, IfSome, Some};
ghost use Rattle.machine.specs.Step.{State};
ghost use Rattle.machine.specs.Table.{decode_of};
ghost use Rattle.rv_step.specs.Windows.{IsTable};

use crate::table::Table;
use rv_decode::decode;
use rv_isa::{Ins, Kind, Reg};
use std::alloc::{AllocError, Global};
use std::marker::Model;
use std::rc::Rc;

/// How many instructions are kept.
const KEPT: u64 = 1024;

/// How many words are decoded anew before what is shared is copied.
const FEW: u32 = 32;

/// A word and its instruction, in 16 bytes.
#[derive(Drop)]
struct Known {
    imm: i64,
    word: u32,
    kind: Kind,
    rd: Reg,
    rs1: Reg,
    rs2: Reg,
}

impl Model for Known {
    ghost use Rattle.std.specs.Prelude.{◌≡◌, ℕ, Some};
    ghost use Rattle.machine.specs.Table.{decode_of};

    ghost Value = { ℕ };

    ghost view = { λ k. k.word };

    ghost invariant = { λ k. decode_of k.word ≡ Some (record { kind = k.kind; rd = k.rd; rs1 = k.rs1; rs2 = k.rs2; imm = k.imm }) };
}

impl Known {
    /// A word with its instruction.
    fn of(word: u32, ins: &Ins) -> Known
        requires { decode_of word ≡ Some ins.now }
        ensures { result ≡ word }
    {
        Known {
            imm: ins.imm,
            word,
            kind: ins.kind,
            rd: ins.rd,
            rs1: ins.rs1,
            rs2: ins.rs2,
        }
    }

    /// Whether it is the instruction of this word.
    #[inline(always)]
    fn is_of(&self, word: u32) -> bool
        ensures { result ≡ (self.now == word) }
    {
        self.word == word
    }

    /// The instruction of its word.
    #[inline(always)]
    fn ins(&self) -> Ins
        ensures { decode_of self.now ≡ Some result }
    {
        Ins {
            kind: self.kind,
            rd: self.rd,
            rs1: self.rs1,
            rs2: self.rs2,
            imm: self.imm,
        }
    }
}

impl Clone for Known {
    ghost is_clone = { λ k copy. copy ≡ k };

    fn clone(&self) -> Result<Known, AllocError> {
        Ok(Known {
            imm: self.imm,
            word: self.word,
            kind: self.kind,
            rd: self.rd,
            rs1: self.rs1,
            rs2: self.rs2,
        })
    }
}

/// Instructions, by some bits of the addresses at which their words stood.
#[derive(Drop)]
struct Kept {
    all: Vec<Known>,
}

impl Clone for Kept {
    ghost use Rattle.std.specs.Prelude.{◌≡◌, length};

    ghost is_clone = { λ k copy. length copy.all.items ≡ length k.all.items };

    fn clone(&self) -> Result<Kept, AllocError> {
        let all = self.all.clone()?;
        Ok(Kept { all })
    }
}

/// Decodes words, and keeps what it decoded. Copies share it until one keeps more. Contracts see how many are kept.
#[derive(Drop)]
pub struct Decoder {
    kept: Rc<Kept>,
    /// How many words it has decoded anew while it shared what is kept. Nothing rests on it.
    missed: u32,
}

impl Model for Decoder {
    ghost use Rattle.std.specs.Prelude.{◌≡◌, ℕ, length};

    ghost Value = { ℕ };

    ghost view = { λ d. length d.kept.value.all.items };

    ghost invariant = { λ d. length d.kept.value.all.items ≡ 1024 };
}

/// Keeps the instruction of a word.
fn keep(kept: &mut Kept, at: usize, word: u32, ins: &Ins)
    requires at { at < length kept.old.all.items }
    requires right { decode_of word ≡ Some ins.now }
    ensures { length kept.new.all.items ≡ length kept.old.all.items }
{
    kept.all[at] = Known::of(word, ins);
}

impl Decoder {
    /// One that has kept no more than the instruction of the zero word, in each of its 1,024 places.
    #[tactic(auto, using(crate::proofs::Fetching::zero_decoded))]
    pub fn new(alloc: Global) -> Result<Decoder, AllocError>
        ensures { IfOk result (λ decoder. decoder ≡ 1024) }
    {
        let mut all = Vec::with_capacity(alloc, KEPT as usize)?;
        for _ in 0..KEPT {
            all.push(Known::of(0, &decode(0).unwrap_or(Ins::nop())))?;
        }
        let kept = Rc::new(alloc, Kept { all })?;
        Ok(Decoder { kept, missed: 0 })
    }

    /// One that has kept the same.
    pub fn copy(&self) -> Result<Decoder, AllocError>
        ensures { IfOk result (λ decoder. decoder ≡ self.now) }
    {
        let kept = self.kept.clone()?;
        Ok(Decoder { kept, missed: 0 })
    }

    /// A table without instructions, whose memory comes from where this has its own.
    pub fn table(&self) -> Result<Table, AllocError>
        ensures { IfOk result (λ table. (s : State) → IsTable s table) }
    {
        let table = Table::new(*self.kept.all.allocator())?;
        Ok(table)
    }

    /// The instruction of a word that stands at an address, where it is kept.
    #[inline(always)]
    pub fn known(&self, address: u64, word: u32) -> Option<Ins>
        ensures { IfSome result (λ ins. decode_of word ≡ Some ins) }
    {
        let known = &self.kept.all[((address >> 2) % KEPT) as usize];
        if !known.is_of(word) {
            return None;
        }
        Some(known.ins())
    }

    /// The instruction of a word that stands at an address.
    #[inline(always)]
    pub fn decode(&mut self, address: u64, word: u32) -> Option<Ins>
        ensures { result ≡ decode_of word }
    {
        let at = ((address >> 2) % KEPT) as usize;
        if self.kept.all[at].is_of(word) {
            return Some(self.kept.all[at].ins());
        }
        self.decode_new(at, word)
    }

    /// The instruction of a word, which is kept from now on if there is memory.
    #[inline(never)]
    fn decode_new(&mut self, at: usize, word: u32) -> Option<Ins>
        requires { at < 1024 }
        ensures { result ≡ decode_of word }
    {
        let ins = decode(word)?;
        if let Some(kept) = Rc::get_mut(&mut self.kept) {
            keep(kept, at, word, &ins);
            return Some(ins);
        }
        self.keep_apart(at, word, &ins);
        Some(ins)
    }

    /// Keeps the instruction of a word when what is kept may be shared. It is copied first, but not for the first few
    /// words, so that a short run leaves it.
    fn keep_apart(&mut self, at: usize, word: u32, ins: &Ins)
        requires at { at < 1024 }
        requires right { decode_of word ≡ Some ins.now }
        ensures { self.new ≡ self.old }
    {
        if self.missed < FEW {
            self.missed += 1;
            return;
        }
        if let Ok(kept) = Rc::make_mut(&mut self.kept) {
            keep(kept, at, word, ins);
        }
    }
}
