//! What the steps of a run touch in memory.
ghost use Rattle.std.specs.Prelude.{◌≡◌, ℕ, ◌≤◌, ◌+◌, ◌<◌, ◌^◌, true, false, length, IfOk};
ghost use Rattle.machine.specs.Step.{State};
ghost use Rattle.fault_inject.specs.Touched.{touched as touched_of, IsFar, IsLonger, IsTrace, AreSpared};

use qed_model::Outcome;
use rv_isa::Class;
use rv_step::Machine;
use std::alloc::{AllocError, Global};

/// What the first steps of a run touch.
#[derive(Drop)]
pub struct Trace {
    /// The address that each step loads from or stores to; 0 if it does neither.
    places: Vec<u64>,
    /// The least and the greatest address from which a step is fetched.
    low: u64,
    high: u64,
}

/// The address that the next step loads from or stores to; 0 if it does neither.
fn touched(machine: &Machine) -> u64
    ensures { result ≡ touched_of machine.now.state }
{
    let Some(ins) = machine.next() else {
        return 0;
    };
    match ins.class() {
        Class::Load | Class::Store => machine.reg(ins.rs1).wrapping_add(ins.imm.cast_unsigned()),
        _ => 0,
    }
}

/// Whether eight bytes or fewer from a place on may overlap the eight from an address on.
#[inline(always)]
fn is_near(place: u64, address: u64) -> bool
    ensures { result ≡ false → IsFar address place 8 }
{
    place.wrapping_sub(address.wrapping_sub(7)) < 15
}

impl Trace {
    /// A trace of no step.
    pub fn none(alloc: Global) -> Trace
        ensures trace { (s : State) → IsTrace s result }
        ensures count { length result.places.items ≡ 0 }
    {
        Trace {
            places: Vec::new(alloc),
            low: u64::MAX,
            high: 0,
        }
    }

    /// The trace of a machine's next `steps` steps, or of those before it stops; makes these steps.
    pub fn of(alloc: Global, machine: &mut Machine, steps: u64) -> Result<Trace, AllocError>
        ensures { IfOk result (IsTrace machine.old.state) }
    {
        let mut trace = Trace::none(alloc);
        for made in 0..steps {
            if machine.outcome() != Outcome::Going {
                return Ok(trace);
            }
            trace.add(machine)?;
            machine.step()?;
        }
        Ok(trace)
    }

    /// Adds the next step of a machine that goes on.
    fn add(&mut self, machine: &Machine) -> Result<(), AllocError>
        ensures { IfOk result (λ _. IsLonger self.old machine.now.state self.new) }
    {
        let pc = machine.pc();
        self.places.push(touched(machine))?;
        self.low = self.low.min(pc);
        self.high = self.high.max(pc);
        Ok(())
    }

    /// Whether no step of the trace was fetched from a byte of the word at an address.
    fn is_no_code(&self, address: u64) -> bool
        ensures { result ≡ true → (p : ℕ) → self.now.low ≤ p → p ≤ self.now.high → IsFar address p 4 }
    {
        let above = self.low.wrapping_sub(address);
        if above < 8 || u64::MAX - 3 < above {
            return false;
        }
        self.high.saturating_sub(self.low) <= u64::MAX - 3 - above
    }

    /// How many of at most `most` steps behind the first `from` surely touch no byte of the word at an address.
    pub fn spared(&self, address: u64, from: u64, most: u64) -> u64
        ensures within { result ≤ most }
        ensures spared { (s : State) → IsTrace s self.now → AreSpared address from result s }
        ensures end { 0 < result → from + result < 2 ^ 64 }
    {
        if !self.is_no_code(address) {
            return 0;
        }
        let left = (self.places.len() as u64).saturating_sub(from).min(most);
        for made in 0..left {
            if is_near(self.places[(from + made) as usize], address) {
                return made;
            }
        }
        left
    }
}
