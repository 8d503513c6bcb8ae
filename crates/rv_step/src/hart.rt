//! A hart, whose memory is another's.
ghost use Rattle.std.specs.Prelude.{◌≡◌, ◌-◌, ◌%◌, ◌<◌, ◌≤◌, true, false, IfOk, IfErr, IfSome, slice_index};
ghost use Rattle.machine.specs.Memory.{Memory};
ghost use Rattle.machine.specs.Loading.{loaded_file};
ghost use Rattle.machine.specs.Program.{start};
ghost use Rattle.machine.specs.Progress.{advanced, first_state, progress};
ghost use Rattle.machine.specs.Step.{State, step};
ghost use Rattle.machine.specs.declared.place.Place.TheVariants.{Reg as InReg};
ghost use Rattle.rv_step.specs.Harts.{hart_state_of, with_memory, LeadsIn};
ghost use Rattle.rv_step.specs.Known.{does_step, struck_progress, state_word, AreMade, IsRunMade, IsPart};
ghost use Rattle.rv_step.specs.Reached.{IsRunOfWords};
ghost use Rattle.rv_step.specs.Windows.{WindowHasWords, IsHeld, IsKnown, IsTable, IsWindow};

use crate::decoder::Decoder;
use crate::range::CodeRanges;
use crate::source::{Instructions, Source, Words};
use crate::table::Table;
use crate::window::Window;
use elf_types::ElfFile;
use machine::Outcome;
use mem_image::Image;
use rv_decode::decode;
use rv_isa::{Ins, Reg, Regs};
use std::alloc::{AllocError, Global};
use std::marker::Model;
use tests::code_ranges;

/// How many steps are made before a run is long, so that a table of its instructions is worth what it costs.
const FEW: u64 = 16384;

/// One hart of RV64IM: registers, pc, code ranges, outcome and number of steps. Its memory is handed to each step.
#[derive(Drop)]
pub struct Hart {
    pub(crate) regs: Regs,
    pub(crate) pc: u64,
    pub(crate) ranges: CodeRanges,
    pub(crate) outcome: Outcome,
    pub(crate) steps: u64,
    /// Nothing rests on what it has kept.
    pub(crate) decoder: Decoder,
}

impl Model for Hart {
    ghost use Rattle.rv_step.specs.Harts.{HartState, hart_state_code};

    ghost Value = { HartState };

    ghost coded = { hart_state_code };

    ghost view = { λ h. record { regs = h.regs; pc = h.pc; ranges = h.ranges; outcome = h.outcome; steps = h.steps } };
}

impl Hart {
    /// The hart that a file starts: the pc at the entry, the file's code ranges, and x0 at 0 whatever the first number
    /// is. It goes on, and no step was made.
    pub fn start(alloc: Global, file: &ElfFile, regs: &[u64; 32]) -> Result<Hart, AllocError>
        ensures { IfOk result (λ hart. hart ≡ hart_state_of (first_state (start (loaded_file file.now) regs.now))) }
    {
        Ok(Hart {
            regs: Regs::new(regs),
            pc: file.entry,
            ranges: CodeRanges::of(alloc, code_ranges(alloc, file)?)?,
            outcome: Outcome::Going,
            steps: 0,
            decoder: Decoder::new(alloc)?,
        })
    }

    /// One step in a memory, if the hart goes on, and how it stands then (RISC-V unprivileged manual, RV64I and the M
    /// extension). A step that ends, fires or traps changes nothing but the outcome, and is counted.
    #[tactic(auto, using(crate::proofs::Running::stays, crate::proofs::Running::made_none, crate::proofs::Running::step_made, crate::proofs::Running::made_counted, crate::proofs::Running::one_run, crate::proofs::WindowLaws::step_acts))]
    pub fn step(&mut self, image: &mut Image) -> Result<Outcome, AllocError>
        ensures step { IfOk result (λ _. with_memory self.new image.new ≡ advanced (with_memory self.old image.old)) }
        ensures outcome { IfOk result (λ o. o ≡ self.new.outcome) }

        // Without memory for a page, nothing changes.
        ensures kept { IfErr result (λ _. self.new ≡ self.old) }
        ensures memory { IfErr result (λ _. image.new ≡ image.old) }
    {
        if !self.goes_on() {
            return Ok(self.outcome);
        }
        let word = self.next_word(image);
        self.advance::<5>(word, image)?;
        self.steps = self.steps.saturating_add(1);
        Ok(self.outcome)
    }

    /// As many steps in a memory as the number says, and how the hart stands then.
    pub fn run(&mut self, image: &mut Image, n: u64) -> Result<Outcome, AllocError>
        ensures run { IfOk result (λ _. with_memory self.new image.new ≡ progress (with_memory self.old image.old) n) }
        ensures outcome { IfOk result (λ o. o ≡ self.new.outcome) }

        // Without memory for a page, the steps before were made.
        ensures part { IfErr result (λ _. IsPart (with_memory self.old image.old) n (with_memory self.new image.new)) }
    {
        self.run_made(image, n)?;
        Ok(self.outcome)
    }

    /// Runs in a memory, and counts the steps that were made: as many as the number says, or fewer if the hart stopped.
    pub fn run_made(&mut self, image: &mut Image, n: u64) -> Result<u64, AllocError>
        ensures run { IfOk result (λ _. with_memory self.new image.new ≡ progress (with_memory self.old image.old) n) }
        ensures made { IfOk result (λ made. AreMade (with_memory self.old image.old) n made) }

        // Without memory for a page, the steps before were made.
        ensures part { IfErr result (λ _. IsPart (with_memory self.old image.old) n (with_memory self.new image.new)) }
    {
        let (made, done) = self.run_uncounted(image, n);
        self.steps = self.steps.saturating_add(made);
        done?;
        Ok(made)
    }

    /// Runs in a memory, and leaves the hart's own count; the answer has how many steps were made. If there are fewer,
    /// the hart stopped, or memory for a page ran out.
    fn run_uncounted(&mut self, image: &mut Image, n: u64) -> (u64, Result<(), AllocError>)
        ensures made { IsRunMade (with_memory self.old image.old) result.0 (with_memory self.new image.new) }
        ensures within { result.0 ≤ n }
        ensures stopped { IfOk result.1 (λ _. result.0 < n → does_step self.new.outcome ≡ false) }
        ensures part { IfErr result.1 (λ _. result.0 < n) }
    {
        if n <= FEW {
            let (rest, done) = self.run_few(image, n);
            return (n - rest, done);
        }
        let (left, done) = self.run_few(image, FEW);
        if done.is_err() || left > 0 {
            return (FEW - left, done);
        }
        let (rest, done) = self.run_long(image, n - FEW);
        (n - rest, done)
    }

    /// Runs, with each word sought in a window. The answer: how many steps are left, so that the loop has one counter.
    #[inline(never)]
    fn run_few(&mut self, image: &mut Image, n: u64) -> (u64, Result<(), AllocError>)
        ensures made { IsRunMade (with_memory self.old image.old) (n - result.0) (with_memory self.new image.new) }
        ensures within { result.0 ≤ n }
        ensures stopped { IfOk result.1 (λ _. 0 < result.0 → does_step self.new.outcome ≡ false) }
        ensures part { IfErr result.1 (λ _. 0 < result.0) }
    {
        let window = Window::none();
        let more = n > 1;
        self.run_by(image, &mut Words { window, more }, n)
    }

    /// Runs with a table of instructions, if there is memory for one. The answer has how many steps are left.
    #[inline(never)]
    fn run_long(&mut self, image: &mut Image, n: u64) -> (u64, Result<(), AllocError>)
        ensures made { IsRunMade (with_memory self.old image.old) (n - result.0) (with_memory self.new image.new) }
        ensures within { result.0 ≤ n }
        ensures stopped { IfOk result.1 (λ _. 0 < result.0 → does_step self.new.outcome ≡ false) }
        ensures part { IfErr result.1 (λ _. 0 < result.0) }
    {
        if self.pc % 4 != 0 {
            return self.run_few(image, n);
        }
        let Ok(table) = self.decoder.table() else {
            return self.run_few(image, n);
        };
        let window = Window::none();
        self.run_by(image, &mut Instructions { window, table }, n)
    }

    /// Runs with instructions from a source. All steps are made here, so that LLVM makes one loop of them.
    #[inline(always)]
    #[tactic(auto, using(crate::proofs::Running::none_left, crate::proofs::Running::step_left))]
    fn run_by<S: Source>(
        &mut self,
        image: &mut Image,
        source: &mut S,
        n: u64,
    ) -> (u64, Result<(), AllocError>)
        requires { S.stands (with_memory self.old image.old).state source.old }
        ensures made { IsRunMade (with_memory self.old image.old) (n - result.0) (with_memory self.new image.new) }
        ensures within { result.0 ≤ n }
        ensures stopped { IfOk result.1 (λ _. 0 < result.0 → does_step self.new.outcome ≡ false) }
        ensures part { IfErr result.1 (λ _. 0 < result.0) }
    {
        if !self.goes_on() {
            return (n, Ok(()));
        }
        for left in (0..n).rev() {
            let on = match source.take_step(self, image) {
                Ok(on) => on,
                Err(error) => return (left + 1, Err(error)),
            };
            if on {
                continue;
            }
            if !self.goes_on() {
                return (left, Ok(()));
            }
        }
        (0, Ok(()))
    }

    /// A step, with the word at the pc, of a hart that goes on. The table gets its instruction if no store changes it.
    #[tactic(auto, unfolding(machine::specs::Step::step))]
    #[inline(never)]
    pub(crate) fn step_new(
        &mut self,
        image: &mut Image,
        window: &mut Window,
        table: &mut Table,
    ) -> Result<bool, AllocError>
        requires goes { does_step self.old.outcome ≡ true }
        requires known { IsKnown (with_memory self.old image.old).state window.old table.old }
        ensures step { IfOk result (λ _. LeadsIn step self.old image.old self.new image.new) }
        ensures known { IfOk result (λ _. IsKnown (with_memory self.new image.new).state window.new table.new) }
        ensures on { IfOk result (λ on. on ≡ true → does_step self.new.outcome ≡ true) }
        ensures kept { IfErr result (λ _. self.new ≡ self.old) }
        ensures memory { IfErr result (λ _. image.new ≡ image.old) }
    {
        if let Some(ins) = self.held(window) {
            table.put(self.pc, &ins);
            let on = self.execute::<1>(&ins, image)?;
            return Ok(on);
        }
        let word = self.word_in(image, window, true);
        self.learn_next(window, table);
        let on = self.advance::<4>(word, image)?;
        Ok(on)
    }

    /// The instruction at the pc, where the window has its word.
    #[inline(always)]
    fn held(&self, window: &Window) -> Option<Ins>
        requires { WindowHasWords window.now }
        ensures { IfSome result (λ ins. (s : State) → IsWindow s window.now → IsHeld s self.now.pc ins) }
    {
        let word = window.word(self.pc)?;
        decode(word)
    }

    /// Puts the instruction at the pc into the table, where the window has it.
    #[inline(never)]
    fn learn_next(&mut self, window: &Window, table: &mut Table)
        requires { WindowHasWords window.now }
        ensures table { (s : State) → IsTable s table.old → IsWindow s window.now → IsTable s table.new }
        ensures same { self.new ≡ self.old }
    {
        let Some(ins) = self.held(window) else {
            return;
        };
        table.put(self.pc, &ins);
    }

    /// The word at the pc, where it may be executed, else None.
    #[inline(always)]
    pub(crate) fn word_in(
        &mut self,
        image: &mut Image,
        window: &mut Window,
        more: bool,
    ) -> Option<u32>
        requires { IsWindow (with_memory self.old image.old).state window.old }
        ensures word { result ≡ state_word (with_memory self.new image.new).state self.new.pc }
        ensures same { self.new ≡ self.old }
        ensures memory { image.new ≡ image.old }
        ensures window { IsWindow (with_memory self.new image.new).state window.new }
    {
        if let Some(word) = window.word(self.pc()) {
            return Some(word);
        }
        self.look(image, window, more)
    }

    /// The word at the pc, with a new window if `more` steps may follow.
    #[inline(never)]
    #[tactic(auto, using(crate::proofs::Fetching::fetched_grain))]
    fn look(&mut self, image: &mut Image, window: &mut Window, more: bool) -> Option<u32>
        ensures word { result ≡ state_word (with_memory self.new image.new).state self.new.pc }
        ensures same { self.new ≡ self.old }
        ensures memory { image.new ≡ image.old }
        ensures window { IsWindow (with_memory self.new image.new).state window.new }
    {
        let Some(word) = self.next_word(image) else {
            *window = Window::none();
            return None;
        };
        *window = self.window(image, more);
        Some(word)
    }

    /// A window on the code at the pc, a multiple of 4, if it stands on a page that may not be written, there is memory
    /// for it, and `more` steps may follow.
    fn window(&self, image: &Image, more: bool) -> Window
        requires { self.now.pc % 4 ≡ 0 }
        ensures { IsWindow (with_memory self.now image.now).state result }
    {
        if !more {
            return Window::none();
        }
        let Ok(Some(code)) = image.code(self.pc()) else {
            return Window::none();
        };
        let (first, last) = self.near();
        Window::of(code, first, last)
    }

    /// Whether the hart has not stopped.
    pub(crate) fn goes_on(&self) -> bool
        ensures { result ≡ does_step self.now.outcome }
    {
        matches!(self.outcome, Outcome::Going)
    }

    /// The first and the last address of code words that are remembered. There are none where the last is the lesser.
    fn near(&self) -> (u64, u64)
        ensures { IsRunOfWords self.now.ranges result.0 result.1 }
    {
        self.ranges.near()
    }

    /// The number that a register holds.
    pub fn reg(&self, r: Reg) -> u64
        ensures { result ≡ slice_index self.now.regs r }
    {
        self.regs.get(r)
    }

    /// The address of the next instruction.
    pub fn pc(&self) -> u64
        ensures { result ≡ self.now.pc }
    {
        self.pc
    }

    /// How many steps were made while the hart went on. It stays at 2^64 - 1.
    pub fn steps(&self) -> u64
        ensures { result ≡ self.now.steps }
    {
        self.steps
    }

    /// Whether the hart goes on, or how it stopped.
    pub fn outcome(&self) -> Outcome
        ensures { result ≡ self.now.outcome }
    {
        self.outcome
    }

    /// Gives a register other than x0 another number.
    #[tactic(auto, unfolding(machine::specs::Struck::struck))]
    pub fn set(&mut self, r: Reg, value: u64)
        ensures { (m : Memory) → with_memory self.new m ≡ struck_progress (InReg r) value (with_memory self.old m) }
    {
        self.regs.set(r, value);
    }

    /// Whether another hart goes on with the same registers, pc and code ranges, and so does this.
    pub(crate) fn is_beside(&self, other: &Hart) -> bool
        ensures { result ≡ true → (m : Memory) → (with_memory self.now m).state ≡ (with_memory other.now m).state }
    {
        self.goes_on()
            && other.goes_on()
            && self.pc == other.pc
            && self.regs == other.regs
            && self.ranges.is_same(&other.ranges)
    }

    /// An equal hart.
    pub(crate) fn copy(&self) -> Result<Hart, AllocError>
        ensures { IfOk result (λ hart. hart ≡ self.now) }
    {
        Ok(Hart {
            regs: self.regs,
            pc: self.pc,
            ranges: self.ranges.copy()?,
            outcome: self.outcome,
            steps: self.steps,
            decoder: self.decoder.copy()?,
        })
    }

    /// Knows from now on the instructions that another hart has decoded.
    pub(crate) fn learn(&mut self, other: &Hart) -> Result<(), AllocError>
        ensures { self.new ≡ self.old }
    {
        self.decoder = other.decoder.copy()?;
        Ok(())
    }
}
