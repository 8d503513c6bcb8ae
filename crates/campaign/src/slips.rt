//! Slips that are drawn at random, and what each shows.
ghost use Rattle.std.specs.Prelude.{◌≡◌, ◌&&◌, ◌+◌, ◌*◌, ◌^◌, ◌<◌, nat_lt, Some, None, IfOk, IfSome, if◌then◌else◌, length, map};
ghost use Rattle.tests.specs.Admission.DataRanges.{range_of};
ghost use Rattle.tests.specs.Admission.Terms.{is_in_any as is_in_any_of};
ghost use Rattle.machine.specs.Step.{class_of, place, run};
ghost use Rattle.test_gen.specs.Random.{after};
ghost use Rattle.rv_step.specs.Known.{known_at};
ghost use Rattle.rv_step.specs.Slipped.{slipped_step};
ghost use Rattle.fault_inject.specs.Touched.{IsTrace};
ghost use Rattle.campaign.specs.Draw.{each};
ghost use Rattle.campaign.specs.Found.{TellsStop};
ghost use Rattle.campaign.specs.Later.{IsChangedAt};
ghost use Rattle.campaign.specs.Slips.{AreDrawnSlips, IsSlip, ShowsSlip, StandsEnded, AreKnownSlips, bound_of_slip, ended_right, numbered_slip};
ghost use Rattle.campaign.specs.Slips.{drawn_slip as drawn_slip_of, drawn_way as drawn_way_of, ends_as as ends_as_of, gives_result as gives_result_of};
ghost use Rattle.campaign.specs.Slips.{other_place as other_place_of};
ghost use Rattle.campaign.specs.Slips.{branch_way as branch_way_of, result_way as result_way_of, stop_verdict as stop_verdict_of, store_way as store_way_of};
ghost use Rattle.campaign.specs.Slips.{way_of as way_of_class};

use crate::draw::{drawn_step, word_address};
use crate::right::{byte, same_values};
use crate::snapshots::Snapshots;
use crate::strike::Strike;
use crate::watched::Watched;
use fault_inject::{Progress, SlipFound, SlipVerdict, Trace};
use qed_model::{Aim, Bounds, Draws, Outcome, Place, Plan, Range};
use rand_pcg::Pcg64;
use rv_isa::{Class, Ins};
use rv_step::{Machine, Slip, SlipAt};
use std::alloc::{AllocError, Global};
use test_gen::{drawn, seeded};

/// What the random words of a slip say.
#[derive(Clone, Copy, Debug, PartialEq, Eq)]
pub struct DrawnSlip {
    /// How many steps are made before it.
    pub step: u64,
    /// The word that chooses how the instruction goes wrong.
    pub way: u64,
    /// The word for a number or an address.
    pub value: u64,
}

/// The slip of the next three random words.
#[tactic(auto, unfolding(crate::specs::Slips::drawn_slip))]
fn drawn_slip(rng: &mut Pcg64, reach: u64, aim: Aim) -> DrawnSlip
    ensures slip { result ≡ drawn_slip_of reach aim rng.old }
    ensures rng { rng.new ≡ after 3 rng.old }
{
    let step = drawn_step(aim, reach, drawn(rng));
    let way = drawn(rng);
    let value = drawn(rng);
    DrawnSlip { step, way, value }
}

/// The slips of a seed, in their order.
fn drawn_slips(alloc: Global, reach: u64, draws: &Draws) -> Result<Vec<DrawnSlip>, AllocError>
    ensures { IfOk result (λ slips. slips.items ≡ each draws.now.count (numbered_slip reach draws.now)) }
{
    let mut rng = seeded(draws.seed);
    let mut slips = Vec::new(alloc);
    for _ in 0..draws.count {
        let slip = drawn_slip(&mut rng, reach, draws.aim);
        slips.push(slip)?;
    }
    Ok(slips)
}

/// Whether an address is one of some range.
fn is_in_any(ranges: &[Range], address: u64) -> bool
    ensures { result ≡ is_in_any_of (map range_of ranges.now) address }
{
    let mut ends = ranges.iter().map(|range| (range.start, range.end));
    ends.any(|range| range.0 <= address && address < range.1)
}

/// The address of a data word by any number, in the half of the right address.
#[tactic(auto, unfolding(crate::specs::Slips::other_place))]
fn other_place(plan: &Plan, right: u64, value: u64) -> u64
    ensures { result ≡ other_place_of plan.now right value }
{
    let spans = plan.span.as_slice();
    let word = word_address(spans, value % plan.words.max(1));
    let half = if is_in_any(spans, right) {
        0
    } else {
        plan.distance
    };
    word.wrapping_add(half)
}

/// The address of a load or store.
fn place_of(output: &Machine, ins: &Ins) -> u64
    ensures { result ≡ place ins.now output.now.state }
{
    output.reg(ins.rs1).wrapping_add(ins.imm.cast_unsigned())
}

/// Whether an instruction writes a register other than x0.
fn gives_result(ins: &Ins) -> bool
    ensures { result ≡ gives_result_of ins.now }
{
    match ins.class() {
        Class::Compute | Class::Load | Class::Jump | Class::JumpReg => ins.rd.number() > 0,
        _ => false,
    }
}

/// The slip of a branch by its word.
fn branch_way(way: u64) -> Slip
    ensures { result ≡ branch_way_of way }
{
    if way % 2 == 0 {
        Slip::Skip
    } else {
        Slip::Branch
    }
}

/// The slip of a store by its words.
#[tactic(auto, unfolding(crate::specs::Slips::store_way))]
fn store_way(plan: &Plan, right: u64, way: u64, value: u64) -> Slip
    ensures { result ≡ store_way_of plan.now right way value }
{
    match way % 3 {
        0 => Slip::Skip,
        1 => Slip::Store(value),
        _ => Slip::Place(other_place(plan, right, value)),
    }
}

/// The slip of another instruction by its words.
fn result_way(ins: &Ins, way: u64, value: u64) -> Slip
    ensures { result ≡ result_way_of ins.now way value }
{
    if way % 2 == 0 {
        Slip::Skip
    } else if gives_result(ins) {
        Slip::Result(value)
    } else {
        Slip::Skip
    }
}

/// How an instruction goes wrong by its words.
fn way_of(plan: &Plan, output: &Machine, ins: &Ins, words: &DrawnSlip) -> Slip
    ensures { result ≡ way_of_class plan.now output.now.state ins.now words.now.way words.now.value (class_of ins.now.kind) }
{
    match ins.class() {
        Class::Branch => branch_way(words.way),
        Class::Store => store_way(plan, place_of(output, ins), words.way, words.value),
        _ => result_way(ins, words.way, words.value),
    }
}

/// How what stands at the pc goes wrong by its words.
#[tactic(auto, unfolding(crate::specs::Slips::drawn_way))]
fn drawn_way(plan: &Plan, output: &Machine, words: &DrawnSlip) -> Slip
    ensures { result ≡ drawn_way_of plan.now output.now.state (known_at output.now.state output.now.state.pc) words.now.way words.now.value }
{
    match output.next() {
        Some(ins) => way_of(plan, output, &ins, words),
        None => Slip::Skip,
    }
}

/// The bound of a slip of an instruction.
#[tactic(auto, unfolding(crate::specs::Slips::bound_of_slip))]
fn bound_of(bounds: &Bounds, ins: Option<Ins>) -> u64
    ensures { result ≡ bound_of_slip bounds.now ins }
{
    match ins {
        Some(ins) if matches!(ins.class(), Class::Store) => bounds.word.unwrap_or(bounds.register),
        _ => bounds.register,
    }
}

/// The verdict of a machine that stopped after this many steps.
fn stop_verdict(outcome: Outcome, steps: u64) -> SlipVerdict
    ensures { result ≡ stop_verdict_of outcome steps }
{
    match outcome {
        Outcome::Fired => SlipVerdict::Fired(steps),
        Outcome::Ended => SlipVerdict::Ended(steps),
        Outcome::Trapped(_, _) => SlipVerdict::Trapped(steps),
        Outcome::Going => SlipVerdict::Going,
    }
}

/// The most pages that are compared for one store.
const MOST_PAGES: u64 = 64;

/// The address of the word that the next step stores to, if it is a store.
fn stored_word(output: &Machine) -> Option<u64> {
    match output.next() {
        Some(ins) if matches!(ins.class(), Class::Store) => Some(place_of(output, &ins) & !7),
        _ => None,
    }
}

/// The number in the eight bytes from an address on.
fn number_at(machine: &Machine, address: u64) -> u64 {
    let mut number = 0;
    for place in 0..8 {
        number |= u64::from(byte(machine, address.wrapping_add(place))) << (8 * place);
    }
    number
}

/// What slips are made in.
#[derive(Clone, Copy)]
pub struct Slipping<'a> {
    pub alloc: Global,
    pub input: &'a Watched,
    pub output: &'a Snapshots,
    /// What the output's run touches.
    pub trace: &'a Trace,
    pub plan: &'a Plan,
    /// Whether it is asked if each ended right.
    pub results: bool,
}

impl<'a> Slipping<'a> {
    /// The address and the number of a word, if that alone tells a machine behind a wrong store from the output behind
    /// the right one. None if more may differ.
    fn other_word(
        &self,
        output: &Machine,
        machine: &Machine,
    ) -> Result<Option<(u64, u64)>, AllocError>
        ensures { IfOk result (λ word. IsChangedAt (run output.now.state 1) word machine.now.state) }
    {
        let Some(address) = stored_word(output) else {
            return Ok(None);
        };
        let number = number_at(machine, address);
        let mut right = output.copy(self.alloc)?;
        right.run(1)?;
        right.strike(&Place::Word(address), number)?;
        if machine.is_beside(&right, MOST_PAGES) {
            return Ok(Some((address, number)));
        }
        Ok(None)
    }

    /// The run behind a slip at a step, beside the output's own.
    fn behind(&self, step: u64, bound: u64) -> Strike<'a>
        ensures way { result.way.now ≡ self.now.output.now }
        ensures trace { result.trace.now ≡ self.now.trace.now }
        ensures start { step + 1 < 2 ^ 64 → result.start ≡ step + 1 }
        ensures bound { result.bound ≡ bound }
    {
        Strike {
            alloc: self.alloc,
            way: self.output,
            trace: self.trace,
            start: step.saturating_add(1),
            changes: &[],
            bound,
        }
    }

    /// The steps that a machine behind a slip makes until it stops, up to the bound. None if it goes on. `output` stands
    /// at the step of the slip.
    fn steps_behind(
        &self,
        output: &Machine,
        step: u64,
        machine: &mut Machine,
        bound: u64,
    ) -> Result<Option<u64>, AllocError>
        requires trace { IsTrace self.now.output.now.start self.now.trace.now }
        requires there { output.now.state ≡ run self.now.output.now.start step }
        ensures { IfOk result (TellsStop machine.old.state bound machine.new.state) }
    {
        let behind = self.behind(step, bound);
        if step < u64::MAX {
            if let Some((address, number)) = self.other_word(output, machine)? {
                let steps = behind.steps_spared(machine, address, number)?;
                return Ok(steps);
            }
        }
        let steps = behind.steps_beside(machine, 0)?;
        Ok(steps)
    }

    /// Makes the step with a slip, and more until the machine stops or the bound is over. Returns what that shows, and
    /// the machine.
    fn shown(
        &self,
        output: &Machine,
        at: &SlipAt,
        bound: u64,
    ) -> Result<(SlipVerdict, Machine), AllocError>
        requires trace { IsTrace self.now.output.now.start self.now.trace.now }
        requires there { output.now.state ≡ run self.now.output.now.start at.now.step }
        ensures shows { IfOk result (λ r. ShowsSlip output.now.state at.now.slip bound r.0) }
        ensures ended { IfOk result (λ r. StandsEnded (run (slipped_step at.now.slip output.now.state)) r.1.state r.0) }
    {
        let mut machine = output.copy(self.alloc)?;
        if machine.outcome() != Outcome::Going {
            return Ok((SlipVerdict::NotReached, machine));
        }
        machine.slip(&at.slip)?;
        let Some(steps) = self.steps_behind(output, at.step, &mut machine, bound)? else {
            return Ok((SlipVerdict::Going, machine));
        };
        let verdict = stop_verdict(machine.outcome(), steps);
        Ok((verdict, machine))
    }

    /// Whether the input has ended after `step + 1 + more` steps, with the values of this machine.
    #[tactic(auto, unfolding(crate::specs::Slips::ends_as))]
    fn ends_as(&self, output: &Machine, step: u64, more: u64) -> Result<bool, AllocError>
        ensures { IfOk result (λ right. right ≡ ends_as_of self.now.input.now (map range_of self.now.plan.now.span) (step + 1 + more) output.now.state) }
    {
        let Some(input) = self.input.behind(self.alloc, step, more)? else {
            return Ok(false);
        };
        if input.outcome() != Outcome::Ended {
            return Ok(false);
        }
        Ok(same_values(output, &input, self.plan.span.as_slice()))
    }

    /// Whether a machine with this verdict ended right, if that is asked.
    fn right(
        &self,
        output: &Machine,
        step: u64,
        verdict: SlipVerdict,
    ) -> Result<Option<bool>, AllocError>
        ensures { IfOk result (λ right. right ≡ (if self.now.results
            then Some (ended_right self.now.input.now (map range_of self.now.plan.now.span) step (λ _. output.now.state) verdict) else None)) }
    {
        if !self.results {
            return Ok(None);
        }
        match verdict {
            SlipVerdict::Ended(more) => {
                let right = self.ends_as(output, step, more)?;
                Ok(Some(right))
            }
            _ => Ok(Some(false)),
        }
    }

    /// What a slip shows of the output, which stands at its step.
    fn found(&self, output: &Machine, words: &DrawnSlip) -> Result<SlipFound, AllocError>
        requires trace { IsTrace self.now.output.now.start self.now.trace.now }
        requires there { output.now.state ≡ run self.now.output.now.start words.now.step }
        ensures { IfOk result (IsSlip self.now.plan.now self.now.input.now output.now.state self.now.results words.now) }
    {
        let slip = drawn_way(self.plan, output, words);
        let bound = bound_of(&self.plan.bounds, output.next());
        let at = SlipAt {
            step: words.step,
            slip,
        };
        let (verdict, machine) = self.shown(output, &at, bound)?;
        let right = self.right(&machine, words.step, verdict)?;
        Ok(SlipFound { at, verdict, right })
    }

    /// What is found of slips, made in the order of their steps, so that the output goes along its run once.
    fn known(
        &self,
        slips: &[DrawnSlip],
        progress: &mut dyn Progress,
    ) -> Result<Vec<Option<SlipFound>>, AllocError>
        requires { IsTrace self.now.output.now.start self.now.trace.now }
        ensures known { IfOk result (λ known.
            AreKnownSlips self.now.plan.now self.now.input.now self.now.output.now.start self.now.results slips.now known.items) }
        ensures count { IfOk result (λ known. length known.items ≡ length slips.now) }
        ensures told { IfOk result (λ _. told progress.new ≡ length slips.now) }
        ensures all { IfOk result (λ _. all progress.new ≡ length slips.now) }
    {
        progress.begin(slips.len() as u64);
        let order = in_order(self.alloc, slips)?;
        let mut known = vec![in self.alloc; None; slips.len()]?;
        let mut output = self.output.machine_at(self.alloc, 0)?;
        let mut made = 0;
        for i in 0..order.len() {
            progress.tell(i as u64);
            let number = order[i].1;
            let Some(slip) = slips.get(number) else {
                continue;
            };
            self.output.go_to(self.alloc, &mut output, made, slip.step)?;
            made = slip.step;
            let found = self.found(&output, slip)?;
            known[number] = Some(found);
        }
        progress.tell(slips.len() as u64);
        Ok(known)
    }

    /// What is found of a slip, if it is known, or made from a copy of the output.
    fn known_or_found(
        &self,
        known: Option<SlipFound>,
        words: &DrawnSlip,
    ) -> Result<SlipFound, AllocError>
        requires trace { IsTrace self.now.output.now.start self.now.trace.now }
        requires known { IfSome known (IsSlip self.now.plan.now self.now.input.now (run self.now.output.now.start words.now.step) self.now.results words.now) }
        ensures { IfOk result (IsSlip self.now.plan.now self.now.input.now (run self.now.output.now.start words.now.step) self.now.results words.now) }
    {
        if let Some(found) = known {
            return Ok(found);
        }
        let output = self.output.machine_at(self.alloc, words.step)?;
        let found = self.found(&output, words)?;
        Ok(found)
    }

    /// The slips of a seed, in their order. Reports progress.
    pub fn slips(
        &self,
        draws: &Draws,
        progress: &mut dyn Progress,
    ) -> Result<Vec<SlipFound>, AllocError>
        requires { IsTrace self.now.output.now.start self.now.trace.now }
        ensures slips { IfOk result (λ found.
            AreDrawnSlips self.now.plan.now self.now.input.now self.now.output.now.start self.now.output.now.reach draws.now self.now.results found.items) }
        ensures told { IfOk result (λ _. told progress.new ≡ draws.now.count) }
        ensures all { IfOk result (λ _. all progress.new ≡ draws.now.count) }
    {
        let slips = drawn_slips(self.alloc, self.output.reach(), draws)?;
        let known = self.known(&slips, progress)?;
        let mut found = Vec::new(self.alloc);
        for i in 0..slips.len() {
            let slip = self.known_or_found(known[i], &slips[i])?;
            found.push(slip)?;
        }
        Ok(found)
    }
}

/// The steps of slips with their numbers, in the order of the steps.
fn in_order(alloc: Global, slips: &[DrawnSlip]) -> Result<Vec<(u64, usize)>, AllocError>
    ensures { IfOk result (λ order. length order.items ≡ length slips.now) }
{
    let mut order = Vec::new(alloc);
    for i in 0..slips.len() {
        order.push((slips[i].step, i))?;
    }
    order.sort_by_key(|place| place.0)?;
    Ok(order)
}
