//! The runs of an input and of its output, which are struck.
ghost use Rattle.std.specs.Prelude.{◌≡◌, ◌↔◌, ◌+◌, ◌*◌, ◌<◌, ◌≤◌, All, IfOk, IfSome, IsNone, IsTrue, length, map};
ghost use Rattle.std.specs.List.Sorted.{IsNonDecreasingBy};
ghost use Rattle.tests.specs.Admission.DataRanges.{range_of};
ghost use Rattle.machine.specs.declared.outcome.Outcome.TheVariants as outcome;
ghost use Rattle.machine.specs.Step.{run};
ghost use Rattle.qed_model.specs.Promise.Caught.{bound_of as bound_of_changes};
ghost use Rattle.qed_model.specs.Promise.Changed.{Ordered, changed_run, has_word as has_word_of, is_word as is_word_of, last_step as last_step_of};
ghost use Rattle.fault_inject.specs.Touched.{IsTrace};
ghost use Rattle.campaign.specs.Found.{input_shows};
ghost use Rattle.campaign.specs.Kept.{IsReach, copies_up_to};
ghost use Rattle.campaign.specs.Later.{first_step as first_step_of};
ghost use Rattle.campaign.specs.Right.{ends_right as ends_right_of, is_right as is_right_of, rights as rights_of};
ghost use Rattle.campaign.specs.Struck.{AreKnown, AreStruck, IsKnownVerdict, IsStrike, IsStruckNext};
ghost use Rattle.campaign.specs.Verdict.{IsVerdict};

use crate::error::StrikeError;
use crate::later::{all_from, first_step};
use crate::right::same_values;
use crate::slips::Slipping;
use crate::snapshots::{SPACING, Snapshots};
use crate::strike::Strike;
use crate::verdict::last_step;
use crate::watched::Watched;
use fault_inject::{Progress, Silent, Trace, run_changed};
use qed_model::{Bounds, Change, Changes, Outcome, Place, Plan, Range, Struck, Verdict};
use rv_step::Machine;
use std::alloc::{AllocError, Global};
use std::marker::Model;

/// The most steps that an input is watched behind its reach.
const MOST_BEHIND: u64 = 1_000_000;

/// The runs of an input and of its output, with copies of the output after every 4,096 steps up to its reach.
#[derive(Drop)]
pub struct Runs {
    input: Watched,
    output: Snapshots,
    bounds: Bounds,
}

impl Model for Runs {
    ghost use Rattle.std.specs.Prelude.{◌≤◌};
    ghost use Rattle.campaign.specs.Kept.{Pair, pair_code};

    ghost Value = { Pair };

    ghost coded = { pair_code };

    ghost view = { λ r. record { input = r.input; output = r.output.start; bounds = r.bounds; reach = r.output.reach } };

    ghost invariant = { λ r. 1 ≤ r.output.reach };
}

/// Whether a place is a word.
fn is_word(place: &Place) -> bool
    ensures { result ≡ is_word_of place.now }
{
    matches!(place, Place::Word(_))
}

/// Whether a place of changes is a word.
fn has_word(changes: &[Change]) -> bool
    ensures { result ≡ has_word_of changes.now }
{
    for change in changes {
        if is_word(&change.place) {
            return true;
        }
    }
    false
}

/// The bound of changes: that of a register if no place is a word, else that of a word.
fn bound_of(bounds: &Bounds, changes: &[Change]) -> Option<u64>
    ensures { result ≡ bound_of_changes bounds.now changes.now }
{
    if has_word(changes) {
        bounds.word
    } else {
        Some(bounds.register)
    }
}

/// Whether the steps of changes do not fall.
fn is_ordered(changes: &[Change]) -> bool
    ensures { IsTrue result ↔ Ordered changes.now }
{
    let mut last = 0;
    for change in changes {
        if change.step < last {
            return false;
        }
        last = change.step;
    }
    true
}

/// The answer when the output shows nothing, by the pc at which the input traps, if it does.
fn input_verdict(trap: Option<u64>) -> Result<Verdict, StrikeError>
    ensures { result ≡ input_shows trap }
{
    match trap {
        Some(pc) => Err(StrikeError::Trapped(pc)),
        None => Ok(Verdict::Same),
    }
}

/// The strikes of a campaign with their verdicts, in their order.
#[derive(Debug, Drop)]
pub struct Campaign {
    pub struck: Vec<Struck>,
    /// The pc at which the input's own run trapped; no strike was made after that.
    pub trapped: Option<u64>,
}

impl Runs {
    /// Makes ready to strike the run of an output, which goes on: `input` and `output` are the machines at their start.
    pub fn prepare(
        alloc: Global,
        input: Machine,
        output: Machine,
        bounds: Bounds,
    ) -> Result<Runs, AllocError>
        requires { output.state.outcome ≡ outcome.Going }
        ensures input { IfOk result (λ runs. runs.input ≡ input.state) }
        ensures output { IfOk result (λ runs. runs.output ≡ output.state) }
        ensures bounds { IfOk result (λ runs. runs.bounds ≡ bounds) }
    {
        let output = Snapshots::take(alloc, output)?;
        // The input is watched up to the end of most strikes.
        let bound = bounds.word.unwrap_or(0).max(bounds.register);
        let most = output.reach().saturating_add(bound.min(MOST_BEHIND));
        let input = Watched::watch(alloc, input, most)?;
        Ok(Runs {
            input,
            output,
            bounds,
        })
    }

    /// The number of steps after which the output stops; 1,000,000 if that is greater or it never stops.
    pub fn reach(&self) -> u64
        ensures value { result ≡ self.now.reach }
        ensures reach { IsReach self.now.output result }
        ensures some { 1 ≤ result }
    {
        self.output.reach()
    }

    /// How many copies of the output there are: one at the start, and one after every 4,096 steps up to `reach`.
    pub fn snapshots(&self) -> u64
        ensures { result ≡ copies_up_to self.now.reach }
    {
        self.output.reach() / SPACING + 1
    }

    /// The output after 4,096 * `number` steps; None if the number is not below `snapshots`.
    pub fn snapshot(&self, number: u64) -> Option<&Machine>
        ensures none { IsNone result ↔ (copies_up_to self.now.reach ≤ number) }
        ensures there { IfSome result (λ machine. machine.now.state ≡ run self.now.output (4096 * number)) }
    {
        self.output.at(number)
    }

    /// What the output's run touches, if this pays off for `words` changes of words.
    pub(crate) fn traced(&self, alloc: Global, words: u64) -> Result<Trace, AllocError>
        ensures { IfOk result (IsTrace self.now.output) }
    {
        let steps = words.saturating_mul(self.bounds.word.unwrap_or(0));
        let trace = self.output.traced(alloc, steps)?;
        Ok(trace)
    }

    /// Makes ready for slips of an output with this plan.
    pub(crate) fn slipping<'a>(
        &'a self,
        alloc: Global,
        trace: &'a Trace,
        plan: &'a Plan,
        results: bool,
    ) -> Slipping<'a>
        ensures runs { (result.input.now ≡ self.now.input) × (result.output.now ≡ record { start = self.now.output; reach = self.now.reach }) }
        ensures trace { result.trace.now ≡ trace.now }
        ensures plan { (result.plan.now ≡ plan.now) × (result.results ≡ results) }
    {
        Slipping {
            alloc,
            input: &self.input,
            output: &self.output,
            trace,
            plan,
            results,
        }
    }

    /// Whether changes can be struck: their steps do not fall, and if a place is a word, there is a bound for words.
    pub fn is_strike(&self, changes: &[Change]) -> bool
        ensures { IsTrue result ↔ IsStrike self.now.bounds changes.now }
    {
        is_ordered(changes) && bound_of(&self.bounds, changes).is_some()
    }

    /// What changes of the output's run show. Steps do not fall; a change of a word needs a bound for words.
    ///
    /// # Errors
    ///
    /// `Trapped` if the input traps within the bound, no check fires and the test does not end
    /// before, and no place is closed; `Memory`.
    pub fn strike(&self, alloc: Global, changes: &[Change]) -> Result<Verdict, StrikeError>
        requires { IsStrike self.now.bounds changes.now }
        ensures { IsVerdict self.now.input self.now.output self.now.bounds changes.now result }
    {
        let output = self.output.machine_at(alloc, first_step(changes))?;
        self.strike_at(alloc, &Trace::none(alloc), output, changes)
    }

    /// As `strike`, with the output as it stands at the first change.
    fn strike_at(
        &self,
        alloc: Global,
        trace: &Trace,
        output: Machine,
        changes: &[Change],
    ) -> Result<Verdict, StrikeError>
        requires trace { IsTrace self.now.output trace.now }
        requires strike { IsStrike self.now.bounds changes.now }
        requires there { output.state ≡ run self.now.output (first_step_of changes.now) }
        ensures { IsVerdict self.now.input self.now.output self.now.bounds changes.now result }
    {
        let bound = bound_of(&self.bounds, changes).unwrap();
        let last = last_step(changes);
        let start = first_step(changes);
        let later = all_from(alloc, changes, start)?;
        let strike = Strike {
            alloc,
            way: &self.output,
            trace,
            start,
            changes: &later,
            bound,
        };
        if let Some(verdict) = strike.verdict(output)? {
            return Ok(verdict);
        }
        let trap = self.input.trap(alloc, last, bound)?;
        input_verdict(trap)
    }

    /// As `strike_at`, on a copy of the output. None if the input traps.
    fn known_verdict(
        &self,
        alloc: Global,
        trace: &Trace,
        output: &Machine,
        changes: &[Change],
    ) -> Result<Option<Verdict>, AllocError>
        requires trace { IsTrace self.now.output trace.now }
        requires strike { IsStrike self.now.bounds changes.now }
        requires there { output.now.state ≡ run self.now.output (first_step_of changes.now) }
        ensures { IfOk result (IsKnownVerdict self.now changes.now) }
    {
        let there = output.copy(alloc)?;
        match self.strike_at(alloc, trace, there, changes) {
            Ok(verdict) => Ok(Some(verdict)),
            Err(StrikeError::Trapped(_)) => Ok(None),
            Err(StrikeError::Memory) => Err(AllocError),
        }
    }

    /// The verdicts of strikes, made in the order of their first changes, so that the output goes
    /// along its run once. None for one whose input traps; behind that, any verdict may be None.
    fn verdicts(
        &self,
        alloc: Global,
        strikes: &[Changes],
        progress: &mut dyn Progress,
    ) -> Result<Vec<Option<Verdict>>, AllocError>
        requires { All (IsStrike self.now.bounds) strikes.now }
        ensures known { IfOk result (λ found. AreKnown self.now strikes.now found.items) }
        ensures count { IfOk result (λ found. length found.items ≡ length strikes.now) }
        ensures told { IfOk result (λ _. told progress.new ≡ length strikes.now) }
        ensures all { IfOk result (λ _. all progress.new ≡ length strikes.now) }
    {
        progress.begin(strikes.len() as u64);
        let order = in_order(alloc, strikes)?;
        let words = count_words(strikes);
        let trace = self.traced(alloc, words)?;
        let mut found = vec![in alloc; None; strikes.len()]?;
        let mut output = self.output.machine_at(alloc, 0)?;
        let mut made = 0;
        let mut end = strikes.len();
        for i in 0..order.len() {
            progress.tell(i as u64);
            let number = order[i].1;
            if number >= end {
                continue;
            }
            let changes = strikes[number].as_slice();
            let first = first_step(changes);
            self.output.go_to(alloc, &mut output, made, first)?;
            made = first;
            let verdict = self.known_verdict(alloc, &trace, &output, changes)?;
            end = end_behind(end, number, verdict);
            found[number] = verdict;
        }
        progress.tell(strikes.len() as u64);
        Ok(found)
    }

    /// The changed output, `steps` steps behind the last change.
    fn changed(&self, alloc: Global, changes: &[Change], steps: u64) -> Result<Machine, AllocError>
        requires { Ordered changes.now }
        ensures { IfOk result (λ machine. machine.state ≡ changed_run self.now.output changes.now (last_step_of changes.now + steps)) }
    {
        let start = first_step(changes);
        let later = all_from(alloc, changes, start)?;
        let mut output = self.output.machine_at(alloc, start)?;
        run_changed(&mut output, &later, last_step(&later), &mut Silent::new())?;
        output.run(steps)?;
        Ok(output)
    }

    /// Whether a test that ended `steps` steps behind the last change ended right.
    #[tactic(auto, unfolding(crate::specs::Right::ends_right))]
    fn ends_right(
        &self,
        alloc: Global,
        spans: &[Range],
        changes: &[Change],
        steps: u64,
    ) -> Result<bool, AllocError>
        requires { Ordered changes.now }
        ensures { IfOk result (λ right. right ≡ ends_right_of self.now.input self.now.output (map range_of spans.now) changes.now steps) }
    {
        let Some(input) = self.input.later(alloc, last_step(changes), steps)? else {
            return Ok(false);
        };
        if input.outcome() != Outcome::Ended {
            return Ok(false);
        }
        let output = self.changed(alloc, changes, steps)?;
        Ok(same_values(&output, &input, spans))
    }

    /// Whether a strike ended right; false if the test did not end.
    fn is_right(&self, alloc: Global, spans: &[Range], struck: &Struck) -> Result<bool, AllocError>
        requires { Ordered struck.now.changes }
        ensures { IfOk result (λ right. right ≡ is_right_of self.now (map range_of spans.now) struck.now) }
    {
        match struck.verdict {
            Verdict::Ended(steps) => {
                self.ends_right(alloc, spans, struck.changes.as_slice(), steps)
            }
            _ => Ok(false),
        }
    }

    /// Whether the test ended right, for each strike: by the end of the struck run the input had ended too,
    /// and x1 to x13 and the data words of these ranges hold its final values. False if the test did not end.
    pub fn rights(
        &self,
        alloc: Global,
        spans: &[Range],
        struck: &[Struck],
    ) -> Result<Vec<bool>, AllocError>
        requires { All (λ s. Ordered s.changes) struck.now }
        ensures { IfOk result (λ found. found.items ≡ rights_of self.now (map range_of spans.now) struck.now) }
    {
        let mut found = Vec::new(alloc);
        for strike in struck {
            let right = self.is_right(alloc, spans, strike)?;
            found.push(right)?;
        }
        Ok(found)
    }

    /// Adds a strike with its verdict, which is computed if not known. Returns the pc if the input traps.
    fn strike_next(
        &self,
        alloc: Global,
        changes: &Changes,
        known: Option<Verdict>,
        struck: &mut Vec<Struck>,
    ) -> Result<Option<u64>, AllocError>
        requires strike { IsStrike self.now.bounds changes.now }
        requires known { IsKnownVerdict self.now changes.now known }
        ensures { IfOk result (IsStruckNext self.now changes.now struck.old.items struck.new.items) }
    {
        if let Some(verdict) = known {
            struck.push(struck_with(alloc, changes, verdict)?)?;
            return Ok(None);
        }
        let verdict = match self.strike(alloc, changes.as_slice()) {
            Ok(verdict) => verdict,
            Err(StrikeError::Trapped(pc)) => return Ok(Some(pc)),
            Err(StrikeError::Memory) => return Err(AllocError),
        };
        struck.push(struck_with(alloc, changes, verdict)?)?;
        Ok(None)
    }

    /// Strikes one after another, each from the start of the runs, up to the first whose input
    /// traps. Reports how many verdicts are known.
    pub fn strike_all(
        &self,
        alloc: Global,
        strikes: &[Changes],
        progress: &mut dyn Progress,
    ) -> Result<Campaign, AllocError>
        requires { All (IsStrike self.now.bounds) strikes.now }
        ensures struck { IfOk result (λ campaign. AreStruck self.now strikes.now campaign.struck.items campaign.trapped) }
        ensures ordered { IfOk result (λ campaign. All (λ s. Ordered s.changes) campaign.struck.items) }
        ensures told { IfOk result (λ _. told progress.new ≡ length strikes.now) }
        ensures all { IfOk result (λ _. all progress.new ≡ length strikes.now) }
    {
        let known = self.verdicts(alloc, strikes, progress)?;
        let mut struck = Vec::new(alloc);
        for i in 0..strikes.len() {
            let trapped = self.strike_next(alloc, &strikes[i], known[i], &mut struck)?;
            if trapped.is_some() {
                return Ok(Campaign { struck, trapped });
            }
        }
        Ok(Campaign {
            struck,
            trapped: None,
        })
    }
}

/// How many strikes are one change of a word.
fn count_words(strikes: &[Changes]) -> u64 {
    let mut count: u64 = 0;
    for strike in strikes {
        let changes = strike.as_slice();
        if changes.len() == 1 && has_word(changes) {
            count = count.saturating_add(1);
        }
    }
    count
}

/// The number below which strikes are still made, after that of strike `number`: none after one whose input traps.
fn end_behind(end: usize, number: usize, verdict: Option<Verdict>) -> usize
    requires { number < end }
    ensures { result ≤ end }
{
    match verdict {
        Some(_) => end,
        None => number,
    }
}

/// The numbers of strikes with the steps of their first changes, in the order of these steps.
fn in_order(alloc: Global, strikes: &[Changes]) -> Result<Vec<(u64, usize)>, AllocError>
    ensures sorted { IfOk result (λ order. IsNonDecreasingBy (λ p. p.0) order.items) }
    ensures count { IfOk result (λ order. length order.items ≡ length strikes.now) }
{
    let mut order = Vec::new(alloc);
    for i in 0..strikes.len() {
        order.push((first_step(strikes[i].as_slice()), i))?;
    }
    order.sort_by_key(|place| place.0)?;
    Ok(order)
}

/// A strike and its verdict.
fn struck_with(alloc: Global, changes: &Changes, verdict: Verdict) -> Result<Struck, AllocError>
    ensures changes { IfOk result (λ struck. struck.changes ≡ changes.now) }
    ensures verdict { IfOk result (λ struck. struck.verdict ≡ verdict) }
{
    let changes = Changes::of(Vec::from_slice(alloc, changes.as_slice())?);
    Ok(Struck { changes, verdict })
}
