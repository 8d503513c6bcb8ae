//! A test and its output, made ready to be struck.
ghost use Rattle.std.specs.Prelude.{◌≡◌, ◌≢◌, ◌↔◌, ◌+◌, ◌*◌, ◌≤◌, All, IfOk, IfErr, IfSome, IsNone, IsTrue, length, map};
ghost use Rattle.transform.specs.declared.error.TransformError.{TransformError as Refusal};
ghost use Rattle.tests.specs.Admission.DataRanges.{range_of};
ghost use Rattle.elf_read.specs.Known.{IsReadable};
ghost use Rattle.machine.specs.Step.{run};
ghost use Rattle.qed_model.specs.Weave.SoundOptions.{AreSoundOptions};
ghost use Rattle.transform.specs.Transform.{HasCause, IsTransformable, IsErrorOr, IsDoneOr};
ghost use Rattle.campaign.specs.Draw.{drawn_strikes};
ghost use Rattle.campaign.specs.Kept.{IsReach, copies_up_to};
ghost use Rattle.qed_model.specs.Promise.Changed.{Ordered};
ghost use Rattle.campaign.specs.Right.{rights as rights_of};
ghost use Rattle.campaign.specs.Slips.{AreSlips};
ghost use Rattle.campaign.specs.Struck.{IsStrike, AreStruck};
ghost use Rattle.campaign.specs.Verdict.{IsVerdict};
ghost use Rattle.campaign.specs.Course.{IsCourse, StartsIn};

use crate::{Campaign, Progress, Runs, StrikeError, drawn_strikes};
use elf_read::read_known;
use fault_inject::SlipFound;
use qed_model::{Change, Changes, Draws, Options, Plan, Struck, Verdict};
use rv_step::Machine;
use std::alloc::{AllocError, Global};
use std::marker::Model;
use transform::{TransformError, Transformed, transform};

/// A test and its output with its plan, and both runs from registers that are all 0.
#[derive(Drop)]
pub struct Course {
    plan: Plan,
    runs: Runs,
}

impl Model for Course {
    ghost use Rattle.campaign.specs.Prepared.{Prepared, prepared_code, IsPrepared};

    ghost Value = { Prepared };

    ghost coded = { prepared_code };

    ghost view = { λ c. record { plan = c.plan; runs = c.runs } };

    ghost invariant = { λ c. IsPrepared c.plan c.runs };
}

/// The machine that a file starts in, with all registers 0.
fn machine(alloc: Global, bytes: &[u8]) -> Result<Machine, AllocError>
    requires { IsReadable bytes.now }
    ensures { IfOk result (λ machine. StartsIn bytes.now machine.state) }
{
    let file = read_known(alloc, bytes)?;
    let machine = Machine::start(alloc, &file, &[0; 32])?;
    Ok(machine)
}

/// The runs of an input and of its output.
fn runs(alloc: Global, input: &[u8], made: &Transformed) -> Result<Runs, AllocError>
    requires input { IsReadable input.now }
    requires output { IsReadable made.now.file }
    ensures input { IfOk result (λ runs. StartsIn input.now runs.input) }
    ensures output { IfOk result (λ runs. StartsIn made.now.file runs.output) }
    ensures bounds { IfOk result (λ runs. runs.bounds ≡ made.now.plan.bounds) }
{
    let input = machine(alloc, input)?;
    let output = machine(alloc, made.file.as_slice())?;
    let runs = Runs::prepare(alloc, input, output, made.plan.bounds)?;
    Ok(runs)
}

impl Course {
    /// Transforms a test, and makes ready to strike its output. The options are sound.
    ///
    /// # Errors
    ///
    /// The errors of `transform`.
    pub fn prepare(alloc: Global, input: &[u8], options: &Options) -> Result<Course, TransformError>
        requires { AreSoundOptions options.now }
        ensures done { IfOk result (IsCourse input.now options.now) }
        ensures refused { IfErr result (HasCause input.now options.now) }
        ensures exact { (e : Refusal) → e ≢ TransformError.Memory → HasCause input.now options.now e → IsErrorOr result e }
        ensures complete { IsTransformable input.now options.now → IsDoneOr result }
    {
        let made = transform(alloc, input, options)?;
        let runs = runs(alloc, input, &made)?;
        Ok(Course {
            plan: made.plan,
            runs,
        })
    }

    /// The plan of the output.
    pub fn plan(&self) -> &Plan
        ensures { result.now ≡ self.now.plan }
    {
        &self.plan
    }

    /// The number of steps after which the output stops; 1,000,000 if that is greater or it never
    /// stops. Strikes come after fewer steps.
    pub fn reach(&self) -> u64
        ensures value { result ≡ self.now.runs.reach }
        ensures reach { IsReach self.now.runs.output result }
        ensures some { 1 ≤ result }
    {
        self.runs.reach()
    }

    /// How many copies of the output are kept: one at the start, and one after every 4,096 steps up to `reach`.
    pub fn snapshots(&self) -> u64
        ensures { result ≡ copies_up_to self.now.runs.reach }
    {
        self.runs.snapshots()
    }

    /// The output after 4,096 * `number` steps; None if the number is not below `snapshots`.
    pub fn snapshot(&self, number: u64) -> Option<&Machine>
        ensures none { IsNone result ↔ (copies_up_to self.now.runs.reach ≤ number) }
        ensures there { IfSome result (λ machine. machine.now.state ≡ run self.now.runs.output (4096 * number)) }
    {
        self.runs.snapshot(number)
    }

    /// Whether changes can be struck: their steps do not fall, and no place is a word if the output has no data word.
    pub fn is_strike(&self, changes: &[Change]) -> bool
        ensures { IsTrue result ↔ IsStrike self.now.plan.bounds changes.now }
    {
        self.runs.is_strike(changes)
    }

    /// What changes of the output's run show. Their steps do not fall; without data words no place is a word.
    ///
    /// # Errors
    ///
    /// `Trapped` if the output shows nothing, and the input's own run traps within the bound; `Memory`.
    pub fn strike(&self, alloc: Global, changes: &[Change]) -> Result<Verdict, StrikeError>
        requires { IsStrike self.now.plan.bounds changes.now }
        ensures { IsVerdict self.now.runs.input self.now.runs.output self.now.plan.bounds changes.now result }
    {
        self.runs.strike(alloc, changes)
    }

    /// The strikes that the random words of a seed make; none if only data words are struck and there are none. Each
    /// change takes three words: its step is `from` plus the first modulo `to - from` (at least 1; `to` is by default
    /// `reach`). Its place is the second modulo 13 and the number of data words: q is x(q + 1), or from 13 on data word
    /// q - 13. Of one kind alone, the modulus is 13 or the number of data words. Its value is the third.
    pub fn draw(&self, alloc: Global, draws: &Draws) -> Result<Vec<Changes>, AllocError>
        ensures drawn { IfOk result (λ strikes. strikes.items ≡ drawn_strikes (map range_of self.now.plan.span) self.now.runs.reach draws.now) }
        ensures fit { IfOk result (λ strikes. All (IsStrike self.now.plan.bounds) strikes.items) }
    {
        drawn_strikes(alloc, &self.plan, self.runs.reach(), draws)
    }

    /// Strikes one after another, from the start of the runs, up to the first whose input traps. Reports progress.
    pub fn strike_all(
        &self,
        alloc: Global,
        strikes: &[Changes],
        progress: &mut dyn Progress,
    ) -> Result<Campaign, AllocError>
        requires { All (IsStrike self.now.plan.bounds) strikes.now }
        ensures struck { IfOk result (λ campaign. AreStruck self.now.runs strikes.now campaign.struck.items campaign.trapped) }
        ensures ordered { IfOk result (λ campaign. All (λ s. Ordered s.changes) campaign.struck.items) }
        ensures told { IfOk result (λ _. told progress.new ≡ length strikes.now) }
        ensures all { IfOk result (λ _. all progress.new ≡ length strikes.now) }
    {
        self.runs.strike_all(alloc, strikes, progress)
    }

    /// Whether the test ended right, for each strike: by the end of the struck run the input had ended too,
    /// and x1 to x13 and the original data words hold its final values. False if the test did not end.
    pub fn rights(&self, alloc: Global, struck: &[Struck]) -> Result<Vec<bool>, AllocError>
        requires { All (λ s. Ordered s.changes) struck.now }
        ensures { IfOk result (λ found. found.items ≡ rights_of self.now.runs (map range_of self.now.plan.span) struck.now) }
    {
        self.runs.rights(alloc, self.plan.span.as_slice(), struck)
    }

    /// Slips that the random words of a seed make, and what each shows: single instructions of the output that go wrong
    /// once. Each takes three words, for its step as in `draw`, how it goes wrong, and with which number or address.
    /// `results` asks of each that ended whether it ended right. Reports progress.
    pub fn slips(
        &self,
        alloc: Global,
        draws: &Draws,
        results: bool,
        progress: &mut dyn Progress,
    ) -> Result<Vec<SlipFound>, AllocError>
        ensures slips { IfOk result (λ found. AreSlips self.now draws.now results found.items) }
        ensures told { IfOk result (λ _. told progress.new ≡ draws.now.count) }
        ensures all { IfOk result (λ _. all progress.new ≡ draws.now.count) }
    {
        // About one of eight instructions is a store.
        let trace = self.runs.traced(alloc, draws.count / 8)?;
        let slipping = self.runs.slipping(alloc, &trace, &self.plan, results);
        slipping.slips(draws, progress)
    }
}
