//! Copies of a machine on its way.
ghost use Rattle.std.specs.Prelude.{◌≡◌, ◌↔◌, ◌+◌, ◌-◌, ◌*◌, ◌≤◌, IfOk, IfSome, IsNone};
ghost use Rattle.machine.specs.Step.{run};
ghost use Rattle.fault_inject.specs.Touched.{IsTrace};
ghost use Rattle.campaign.specs.Kept.{AreCopies, IsReach, copies_up_to};

use fault_inject::Trace;
use rv_step::Machine;
use std::alloc::{AllocError, Global};
use std::marker::Model;

/// How many steps are between two copies.
pub const SPACING: u64 = 4096;

/// The greatest number of steps after which an output is struck, plus one.
const MAX_REACH: u64 = 1_000_000;

/// The most copies behind the first.
const MOST: u64 = MAX_REACH / SPACING;

/// Tracing one step pays off if the runs beside may make this many.
const TRACED: u64 = 100;

/// A machine, copies of it after every 4,096 steps, and the number of steps after which it stops;
/// 1,000,000 if that is greater or it never stops.
#[derive(Drop)]
pub struct Snapshots {
    first: Machine,
    later: Vec<Machine>,
    reach: u64,
}

impl Model for Snapshots {
    ghost use Rattle.campaign.specs.Kept.{Copied, copied_code, AreCopies};

    ghost Value = { Copied };

    ghost coded = { copied_code };

    ghost view = { λ s. record { start = s.first.state; reach = s.reach } };

    ghost invariant = { λ s. AreCopies s.first s.reach s.later.items };
}

/// The copies of a machine behind its start, and the step up to which its run goes on. One run makes both.
fn copies(alloc: Global, machine: &mut Machine) -> Result<(Vec<Machine>, u64), AllocError>
    ensures { IfOk result (λ made. AreCopies machine.old made.1 made.0.items) }
{
    let mut later = Vec::new(alloc);
    for number in 0..MOST {
        let made = machine.run_made(SPACING)?;
        if made < SPACING {
            return Ok((later, SPACING * number + made));
        }
        let copied = machine.copy(alloc)?;
        later.push(copied)?;
    }
    let made = machine.run_made(MAX_REACH - SPACING * MOST)?;
    Ok((later, SPACING * MOST + made))
}

/// Lets copies use what their machine has decoded.
fn learn(copies: &mut Vec<Machine>, machine: &Machine) -> Result<(), AllocError>
    ensures { copies.new.items ≡ copies.old.items }
{
    for i in 0..copies.len() {
        copies[i].learn(machine)?;
    }
    Ok(())
}

impl Snapshots {
    /// A machine at its start, and its copies.
    pub fn take(alloc: Global, first: Machine) -> Result<Snapshots, AllocError>
        ensures { IfOk result (λ snapshots. snapshots.start ≡ first.state) }
    {
        let mut first = first;
        let mut machine = first.copy(alloc)?;
        let (mut later, reach) = copies(alloc, &mut machine)?;
        first.learn(&machine)?;
        learn(&mut later, &machine)?;
        Ok(Snapshots {
            first,
            later,
            reach,
        })
    }

    /// The number of steps after which the machine stops; 1,000,000 if that is greater or it never stops.
    pub fn reach(&self) -> u64
        ensures value { result ≡ self.now.reach }
        ensures reach { IsReach self.now.start result }
    {
        self.reach
    }

    /// The machine after 4,096 * `number` steps; None if it has no such copy.
    pub fn at(&self, number: u64) -> Option<&Machine>
        ensures none { IsNone result ↔ (copies_up_to self.now.reach ≤ number) }
        ensures there { IfSome result (λ machine. machine.now.state ≡ run self.now.start (4096 * number)) }
    {
        if number == 0 {
            return Some(&self.first);
        }
        self.later.get(number as usize - 1)
    }

    /// The machine after `steps` steps.
    pub fn machine_at(&self, alloc: Global, steps: u64) -> Result<Machine, AllocError>
        ensures { IfOk result (λ machine. machine.state ≡ run self.now.start steps) }
    {
        let number = steps.min(self.reach) / SPACING;
        let mut machine = self.at(number).unwrap().copy(alloc)?;
        machine.run(steps - SPACING * number)?;
        Ok(machine)
    }

    /// Brings a machine of this run from step `made` to step `steps`: from where it stands, or from
    /// the last copy before `steps` if this takes fewer steps.
    pub fn go_to(
        &self,
        alloc: Global,
        machine: &mut Machine,
        made: u64,
        steps: u64,
    ) -> Result<(), AllocError>
        requires { machine.old.state ≡ run self.now.start made }
        ensures { IfOk result (λ _. machine.new.state ≡ run self.now.start steps) }
    {
        if made <= steps && steps - made <= steps % SPACING {
            machine.run(steps - made)?;
            return Ok(());
        }
        *machine = self.machine_at(alloc, steps)?;
        Ok(())
    }

    /// What the run touches, up to its reach. Nothing is traced if the runs beside it make too few steps.
    pub fn traced(&self, alloc: Global, steps: u64) -> Result<Trace, AllocError>
        ensures { IfOk result (IsTrace self.now.start) }
    {
        if self.reach < SPACING || steps / TRACED < self.reach {
            return Ok(Trace::none(alloc));
        }
        let mut machine = self.machine_at(alloc, 0)?;
        let trace = Trace::of(alloc, &mut machine, self.reach)?;
        Ok(trace)
    }
}
