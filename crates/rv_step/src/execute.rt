//! One step of a hart that goes on.
ghost use Rattle.std.specs.Prelude.{◌≡◌, ◌≢◌, ◌+◌, ◌%◌, ◌^◌, ◌==◌, slice_index, Some, None, IfOk, IfErr, true};
ghost use Rattle.rv_isa.specs.Kind.{class_of};
ghost use Rattle.rv_isa.specs.Regs.{set_reg};
ghost use Rattle.rv_isa.specs.declared.class.Class.TheVariants as class;
ghost use Rattle.machine.specs.Step.{act, computed_value, execute, imm, jumped, moved, next, next_pc, stopped, trapped, Ins};
ghost use Rattle.rv_alu.specs.Steps.{branched, IsComputing, IsBranching, IsJumping, IsPassing};
ghost use Rattle.rv_step.specs.Harts.{with_memory, LeadsHart, LeadsIn};
ghost use Rattle.rv_step.specs.Known.{known_at, state_word, HasSecond};
ghost use Rattle.rv_step.specs.Slipped.{stores};

use crate::hart::Hart;
use crate::loads::{extended, width};
use machine::{Cause, Outcome, rows};
use mem_image::Image;
use rv_alu::{Jumping, Passing, compute, taken};
use rv_decode::decode;
use rv_isa::{Ins, Kind, Operation, Reg};
use std::alloc::AllocError;

impl Hart {
    /// The word at an address where code may be executed, else None.
    fn word(&self, image: &Image, address: u64) -> Option<u32>
        ensures { result ≡ state_word (with_memory self.now image.now).state address }
    {
        if address % 4 != 0 || !self.ranges.has(address) {
            return None;
        }
        image.fetch(address)
    }

    /// The word at the pc, where it may be executed, else None.
    #[inline(always)]
    pub(crate) fn next_word(&mut self, image: &mut Image) -> Option<u32>
        ensures word { result ≡ state_word (with_memory self.new image.new).state self.new.pc }
        ensures same { self.new ≡ self.old }
        ensures memory { image.new ≡ image.old }
    {
        if self.pc % 4 != 0 || !self.ranges.find(self.pc) {
            return None;
        }
        image.fetch_on(self.pc)
    }

    /// The instruction at an address, or None if no code may be executed there or the word is not one.
    #[tactic(auto, unfolding(machine::specs::Step::fetched_at))]
    pub(crate) fn known(&self, image: &Image, address: u64) -> Option<Ins>
        ensures { result ≡ known_at (with_memory self.now image.now).state address }
    {
        let word = self.word(image, address)?;
        decode(word)
    }

    /// The step of a hart that goes on, with the word at the pc; it is not counted here.
    #[inline(always)]
    pub(crate) fn advance<const LOOP: u32>(
        &mut self,
        word: Option<u32>,
        image: &mut Image,
    ) -> Result<bool, AllocError>
        requires { word ≡ state_word (with_memory self.old image.old).state self.old.pc }
        ensures advanced { IfOk result (λ _. LeadsIn (λ s. act (next s) s) self.old image.old self.new image.new) }
        ensures on { IfOk result (λ on. on ≡ true → self.new.outcome ≡ self.old.outcome) }
        ensures kept { IfErr result (λ _. self.new ≡ self.old) }
        ensures memory { IfErr result (λ _. image.new ≡ image.old) }
    {
        let Some(word) = word else {
            self.trap(Cause::Fetch);
            return Ok(false);
        };
        let Some(ins) = self.decoder.known(self.pc, word) else {
            let on = self.advance_new(word, image)?;
            return Ok(on);
        };
        let on = self.execute::<LOOP>(&ins, image)?;
        Ok(on)
    }

    /// Executes a word that is decoded anew.
    #[inline(never)]
    fn advance_new(&mut self, word: u32, image: &mut Image) -> Result<bool, AllocError>
        requires { state_word (with_memory self.old image.old).state self.old.pc ≡ Some word }
        ensures advanced { IfOk result (λ _. LeadsIn (λ s. act (next s) s) self.old image.old self.new image.new) }
        ensures on { IfOk result (λ on. on ≡ true → self.new.outcome ≡ self.old.outcome) }
        ensures kept { IfErr result (λ _. self.new ≡ self.old) }
        ensures memory { IfErr result (λ _. image.new ≡ image.old) }
    {
        let Some(ins) = self.decoder.decode(self.pc, word) else {
            self.trap(Cause::Word(word));
            return Ok(false);
        };
        let on = self.execute::<3>(&ins, image)?;
        Ok(on)
    }
}

// The second operand of a computing instruction, by its format: the number in rs2, or the immediate.
macro_rules! second {
    (register_format $hart:ident $ins:ident) => {
        $hart.reg($ins.rs2)
    };
    ($format:ident $hart:ident $ins:ident) => {
        $ins.imm.cast_unsigned()
    };
}

// The step of an instruction, with an arm for each kind, so that it takes one jump.
macro_rules! by_kind {
    ($hart:ident $ins:ident $image:ident [$($load:ident)*] [$($store:ident)*] [$($branch:ident)*];
        $($row:ident $format:ident $mask:literal $match:literal $value:ident,)*) => {
        match $ins.kind {
            $(Kind::$row => {
                let second = second!($format $hart $ins);
                $hart.compute(Kind::$row, $ins, second);
                Ok(true)
            })*
            Kind::Lui => {
                $hart.compute(Kind::Lui, $ins, 0);
                Ok(true)
            }
            Kind::Auipc => {
                $hart.compute(Kind::Auipc, $ins, 0);
                Ok(true)
            }
            $(Kind::$load => Ok($hart.load(Kind::$load, $ins, $image)),)*
            $(Kind::$store => $hart.store(Kind::$store, $ins, $image),)*
            $(Kind::$branch => Ok($hart.branch(Kind::$branch, $ins)),)*
            Kind::Jal => Ok($hart.jump($ins)),
            Kind::Jalr => Ok($hart.jump($ins)),
            Kind::Fence => {
                $hart.pass($ins);
                Ok(true)
            }
            Kind::Ecall => {
                $hart.stop(Outcome::Ended);
                Ok(false)
            }
            Kind::Ebreak => {
                $hart.stop(Outcome::Fired);
                Ok(false)
            }
            Kind::Illegal => {
                $hart.trap(Cause::Word(0));
                Ok(false)
            }
        }
    };
}

impl Hart {
    /// Stops the hart.
    fn stop(&mut self, outcome: Outcome)
        ensures { LeadsHart (stopped outcome) self.old self.new }
    {
        self.outcome = outcome;
    }

    /// Stops the hart by a trap at its pc.
    fn trap(&mut self, cause: Cause)
        ensures { LeadsHart (trapped cause) self.old self.new }
    {
        self.stop(Outcome::Trapped(cause, self.pc));
    }

    /// Goes to the next word.
    pub(crate) fn go_on(&mut self)
        ensures step { LeadsHart (λ s. moved s.regs (next_pc s) s) self.old self.new }
        ensures on { self.new.outcome ≡ self.old.outcome }
    {
        self.pc = self.pc.wrapping_add(4);
    }

    /// Sets a register, and goes to the next word.
    fn write_back(&mut self, rd: Reg, value: u64)
        ensures step { LeadsHart (λ s. moved (set_reg rd value s.regs) (next_pc s) s) self.old self.new }
        ensures on { self.new.outcome ≡ self.old.outcome }
    {
        self.go_on();
        self.regs.set(rd, value);
    }

    /// One instruction, and whether it surely left the outcome. The pc is a multiple of 4, as it is behind a fetch.
    /// Each `LOOP` is a function of its own, with one caller, so that LLVM puts it there.
    #[tactic(auto, unfolding(machine::specs::Step::execute))]
    #[inline(always)]
    pub(crate) fn execute<const LOOP: u32>(
        &mut self,
        ins: &Ins,
        image: &mut Image,
    ) -> Result<bool, AllocError>
        requires { self.old.pc % 4 ≡ 0 }
        ensures done { IfOk result (λ _. LeadsIn (execute (class_of ins.now.kind) ins.now) self.old image.old self.new image.new) }
        ensures on { IfOk result (λ on. on ≡ true → self.new.outcome ≡ self.old.outcome) }
        ensures kept { IfErr result (λ _. self.new ≡ self.old) }
        ensures memory { IfErr result (λ _. image.new ≡ image.old) }
    {
        rows!(immediate shift register word multiply => by_kind self ins image
            [Lb Lh Lw Ld Lbu Lhu Lwu] [Sb Sh Sw Sd] [Beq Bne Blt Bge Bltu Bgeu])
    }

    /// A computing instruction of this kind, with its second operand. LUI and AUIPC have none.
    #[inline(always)]
    fn compute(&mut self, kind: Kind, ins: &Ins, second: u64)
        requires kind { ins.now.kind ≡ kind }
        requires class { IsComputing (class_of kind) }
        requires second { HasSecond kind ins.now self.old.regs second }
        ensures step { LeadsHart (execute (class_of ins.now.kind) ins.now) self.old self.new }
        ensures on { self.new.outcome ≡ self.old.outcome }
    {
        let value = self.computed(kind, ins, second);
        self.write_back(ins.rd, value);
    }

    /// What a computing instruction of this kind writes to rd.
    #[tactic(auto, unfolding(machine::specs::Step::computed_value))]
    #[inline(always)]
    fn computed(&self, kind: Kind, ins: &Ins, second: u64) -> u64
        requires class { IsComputing (class_of kind) }
        requires second { HasSecond kind ins.now self.now.regs second }
        ensures { result ≡ computed_value kind ins.now self.now.pc self.now.regs }
    {
        match kind {
            Kind::Lui => ins.imm.cast_unsigned(),
            Kind::Auipc => self.pc.wrapping_add(ins.imm.cast_unsigned()),
            kind => compute(kind, self.reg(ins.rs1), second),
        }
    }

    /// FENCE.
    fn pass(&mut self, ins: &Ins)
        requires { IsPassing (class_of ins.now.kind) }
        ensures step { LeadsHart (execute (class_of ins.now.kind) ins.now) self.old self.new }
        ensures on { self.new.outcome ≡ self.old.outcome }
    {
        self.pc = Passing.act(ins, self.pc, &mut self.regs);
    }

    /// The address that a load or a store touches first.
    pub(crate) fn place(&self, ins: &Ins) -> u64
        ensures { result ≡ (slice_index self.now.regs ins.now.rs1 + imm ins.now) % 2 ^ 64 }
    {
        self.reg(ins.rs1).wrapping_add(ins.imm.cast_unsigned())
    }

    /// A load of this kind.
    #[tactic(auto, unfolding(machine::specs::Step::execute))]
    #[inline(always)]
    fn load(&mut self, kind: Kind, ins: &Ins, image: &mut Image) -> bool
        requires { ins.now.kind ≡ kind }
        ensures step { LeadsIn (execute class.Load ins.now) self.old image.old self.new image.new }
        ensures on { result ≡ true → self.new.outcome ≡ self.old.outcome }
    {
        let address = self.place(ins);
        let Some(number) = image.load(address, width(kind)) else {
            self.trap(Cause::Load(address));
            return false;
        };
        self.write_back(ins.rd, extended(kind, number));
        true
    }

    /// A store of this kind.
    #[tactic(auto, unfolding(machine::specs::Step::execute))]
    #[inline(always)]
    fn store(&mut self, kind: Kind, ins: &Ins, image: &mut Image) -> Result<bool, AllocError>
        requires kind { ins.now.kind ≡ kind }
        requires class { class_of kind ≡ class.Store }
        ensures done { IfOk result (λ _. LeadsIn (execute (class_of ins.now.kind) ins.now) self.old image.old self.new image.new) }
        ensures on { IfOk result (λ on. on ≡ true → self.new.outcome ≡ self.old.outcome) }
        ensures kept { IfErr result (λ _. self.new ≡ self.old) }
        ensures memory { IfErr result (λ _. image.new ≡ image.old) }
    {
        let address = self.place(ins);
        let value = self.reg(ins.rs2);
        self.store_at(kind, address, value, image)
    }

    /// A store of this kind of a number at an address.
    #[inline(always)]
    pub(crate) fn store_at(
        &mut self,
        kind: Kind,
        address: u64,
        value: u64,
        image: &mut Image,
    ) -> Result<bool, AllocError>
        ensures done { IfOk result (λ _. (i : Ins) → i.kind ≡ kind → LeadsIn (stores i address value) self.old image.old self.new image.new) }
        ensures on { IfOk result (λ on. on ≡ true → self.new.outcome ≡ self.old.outcome) }
        ensures kept { IfErr result (λ _. self.new ≡ self.old) }
        ensures memory { IfErr result (λ _. image.new ≡ image.old) }
    {
        if image.write(address, width(kind), value)? {
            self.go_on();
            return Ok(true);
        }
        self.trap(Cause::Store(address));
        Ok(false)
    }

    /// A branch of this kind. Only a target that is taken can be off the grain of 4.
    #[inline(always)]
    fn branch(&mut self, kind: Kind, ins: &Ins) -> bool
        requires kind { ins.now.kind ≡ kind }
        requires class { IsBranching (class_of kind) }
        requires grain { self.old.pc % 4 ≡ 0 }
        ensures step { LeadsHart (execute (class_of ins.now.kind) ins.now) self.old self.new }
        ensures on { result ≡ true → self.new.outcome ≡ self.old.outcome }
    {
        let target = self.arrival(kind, ins);
        self.land(target)
    }

    /// Goes to a target. One off the grain of 4 traps.
    #[inline(always)]
    pub(crate) fn land(&mut self, target: u64) -> bool
        ensures step { LeadsHart (λ s. jumped s.regs target s) self.old self.new }
        ensures on { result ≡ true → self.new.outcome ≡ self.old.outcome }
    {
        if target % 4 == 0 {
            self.pc = target;
            return true;
        }
        self.trap(Cause::Target(target));
        false
    }

    /// Where a branch of this kind goes.
    #[inline(always)]
    fn arrival(&self, kind: Kind, ins: &Ins) -> u64
        requires { ins.now.kind ≡ kind }
        ensures { result ≡ branched ins.now self.now.pc self.now.regs }
    {
        if taken(kind, self.reg(ins.rs1), self.reg(ins.rs2)) {
            return self.pc.wrapping_add(ins.imm.cast_unsigned());
        }
        self.pc.wrapping_add(4)
    }

    /// JAL or JALR. A target off the grain of 4 leaves the register that was to hold the link.
    #[inline(always)]
    fn jump(&mut self, ins: &Ins) -> bool
        requires { IsJumping (class_of ins.now.kind) }
        ensures step { LeadsHart (execute (class_of ins.now.kind) ins.now) self.old self.new }
        ensures on { result ≡ true → self.new.outcome ≡ self.old.outcome }
    {
        let before = self.reg(ins.rd);
        let target = Jumping.act(ins, self.pc, &mut self.regs);
        if target % 4 != 0 {
            self.regs.set(ins.rd, before);
            self.trap(Cause::Target(target));
            return false;
        }
        self.pc = target;
        true
    }
}
