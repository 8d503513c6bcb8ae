//! One instruction that goes wrong once.
ghost use Rattle.std.specs.Prelude.{◌≡◌, ◌%◌, IfOk, IfErr, IfSome, Some, true};
ghost use Rattle.std.specs.Option.{is_some};
ghost use Rattle.machine.specs.Step.{class_of, execute};
ghost use Rattle.rv_step.specs.Harts.{with_memory, LeadsHart, LeadsIn};
ghost use Rattle.rv_step.specs.Known.{does_step, known_at};
ghost use Rattle.rv_step.specs.Slipped.{can_slip, gives, has_slip, slipped, slipped_as, writes};
ghost use Rattle.rv_step.specs.declared.slip.Slip.TheVariants.{Branch as TheBranch};

use crate::hart::Hart;
use crate::system::Machine;
use mem_image::Image;
use rv_alu::taken;
use rv_isa::{Class, Ins};
use std::alloc::AllocError;

/// How an instruction goes wrong.
#[derive(Clone, Copy, Debug, PartialEq, Eq)]
pub enum Slip {
    /// It is skipped.
    Skip,
    /// It writes this number to rd, which is not x0.
    Result(u64),
    /// It is a branch, and goes the other way.
    Branch,
    /// It is a store, and stores the low bytes of this number.
    Store(u64),
    /// It is a store, and stores at this address.
    Place(u64),
}

/// An instruction that goes wrong once.
#[derive(Clone, Copy, Debug, PartialEq, Eq)]
pub struct SlipAt {
    /// How many steps were made before it.
    pub step: u64,
    pub slip: Slip,
}

/// Whether instructions of the class write rd.
fn writes(class: Class) -> bool
    ensures { result ≡ writes class }
{
    matches!(
        class,
        Class::Compute | Class::Load | Class::Jump | Class::JumpReg
    )
}

/// Whether the instruction has the slip.
fn has_slip(ins: &Ins, slip: &Slip) -> bool
    ensures { result ≡ has_slip slip.now ins.now }
{
    match *slip {
        Slip::Skip => true,
        Slip::Result(_) => writes(ins.class()) && ins.rd.number() > 0,
        Slip::Branch => matches!(ins.class(), Class::Branch),
        Slip::Store(_) => matches!(ins.class(), Class::Store),
        Slip::Place(_) => matches!(ins.class(), Class::Store),
    }
}

impl Hart {
    /// The step of an instruction that then gives rd another number, unless it stops.
    fn give(&mut self, ins: &Ins, value: u64, image: &mut Image) -> Result<(), AllocError>
        requires { self.old.pc % 4 ≡ 0 }
        ensures done { IfOk result (λ _. LeadsIn (λ s. gives ins.now value (execute (class_of ins.now.kind) ins.now s)) self.old image.old self.new image.new) }
        ensures kept { IfErr result (λ _. self.new ≡ self.old) }
        ensures memory { IfErr result (λ _. image.new ≡ image.old) }
    {
        self.execute::<6>(ins, image)?;
        self.put(ins, value);
        Ok(())
    }

    /// Gives rd another number, if the hart goes on.
    fn put(&mut self, ins: &Ins, value: u64)
        ensures { LeadsHart (gives ins.now value) self.old self.new }
    {
        if self.goes_on() {
            self.regs.set(ins.rd, value);
        }
    }

    /// A branch, the other way.
    #[tactic(auto, unfolding(crate::specs::Slipped::slipped_as))]
    fn turn(&mut self, ins: &Ins)
        ensures { LeadsHart (slipped_as TheBranch ins.now) self.old self.new }
    {
        if taken(ins.kind, self.reg(ins.rs1), self.reg(ins.rs2)) {
            self.go_on();
            return;
        }
        self.land(self.pc.wrapping_add(ins.imm.cast_unsigned()));
    }

    /// An instruction with the slip, at a multiple of 4; it is not counted here.
    #[tactic(auto, unfolding(crate::specs::Slipped::slipped_as))]
    fn slip_as(&mut self, slip: &Slip, ins: &Ins, image: &mut Image) -> Result<(), AllocError>
        requires { self.old.pc % 4 ≡ 0 }
        ensures done { IfOk result (λ _. LeadsIn (slipped_as slip.now ins.now) self.old image.old self.new image.new) }
        ensures kept { IfErr result (λ _. self.new ≡ self.old) }
        ensures memory { IfErr result (λ _. image.new ≡ image.old) }
    {
        match *slip {
            Slip::Skip => {
                self.go_on();
                Ok(())
            }
            Slip::Result(value) => self.give(ins, value, image),
            Slip::Branch => {
                self.turn(ins);
                Ok(())
            }
            Slip::Store(value) => {
                let address = self.place(ins);
                self.store_at(ins.kind, address, value, image)?;
                Ok(())
            }
            Slip::Place(address) => {
                let value = self.reg(ins.rs2);
                self.store_at(ins.kind, address, value, image)?;
                Ok(())
            }
        }
    }

    /// The instruction at the pc, if the hart goes on and the instruction has the slip.
    fn slipping(&self, slip: &Slip, image: &Image) -> Option<Ins>
        ensures can { is_some result ≡ can_slip slip.now (with_memory self.now image.now).state }
        ensures goes { IfSome result (λ _. does_step self.now.outcome ≡ true) }
        ensures known { IfSome result (λ i. known_at (with_memory self.now image.now).state self.now.pc ≡ Some i) }
        ensures has { IfSome result (λ i. has_slip slip.now i ≡ true) }
    {
        if !self.goes_on() {
            return None;
        }
        let ins = self.known(image, self.pc)?;
        if has_slip(&ins, slip) {
            return Some(ins);
        }
        None
    }

    /// One step in a memory, in which the instruction goes wrong, as `Machine::slip` says.
    fn slip(&mut self, slip: &Slip, image: &mut Image) -> Result<bool, AllocError>
        ensures slipped { IfOk result (λ _. with_memory self.new image.new ≡ slipped slip.now (with_memory self.old image.old)) }
        ensures can { IfOk result (λ is. is ≡ can_slip slip.now (with_memory self.old image.old).state) }
        ensures kept { IfErr result (λ _. self.new ≡ self.old) }
        ensures memory { IfErr result (λ _. image.new ≡ image.old) }
    {
        let Some(ins) = self.slipping(slip, image) else {
            self.step(image)?;
            return Ok(false);
        };
        self.slip_as(slip, &ins, image)?;
        self.steps = self.steps.saturating_add(1);
        Ok(true)
    }
}

impl Machine {
    /// One step, in which the instruction goes wrong. If it has no such slip, or the pc has no instruction, it is the
    /// step as it should be. Returns whether the instruction went wrong.
    ///
    /// Skip: each instruction has it. Result: one with an rd that is not x0. Branch: a branch. Store, Place: a store.
    pub fn slip(&mut self, slip: &Slip) -> Result<bool, AllocError>
        ensures slipped { IfOk result (λ _. self.new ≡ slipped slip.now self.old) }
        ensures can { IfOk result (λ is. is ≡ can_slip slip.now self.old.state) }

        // Without memory for a page, nothing changes.
        ensures kept { IfErr result (λ _. self.new ≡ self.old) }
    {
        let is = self.hart.slip(slip, &mut self.image)?;
        Ok(is)
    }
}
