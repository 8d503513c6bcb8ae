//! What the last line about strikes says of them.
ghost use Rattle.std.specs.Prelude.{◌≡◌, ◌+◌, ◌-◌, ◌^◌, ◌<◌, Some, IfOk, length, string_bytes};
ghost use Rattle.std.specs.Option.{option_copied, option_map};
ghost use Rattle.qed_words.specs.Text.Campaign.{ends_text, how_many_right as how_many_right_of, summary_line};
ghost use Rattle.report.specs.Tally.{counted, tally_of, tally_text, with_verdict};

use crate::transform::BoundsText;
use qed_model::{Plan, Struck, Verdict};
use std::alloc::{AllocError, Global};
use std::fmt;

/// How many of some ends were right.
fn how_many_right(rights: &[bool]) -> u64
    ensures { result ≡ how_many_right_of rights.now }
{
    let mut count = 0;
    for &right in rights {
        if right {
            count += 1;
        }
    }
    count
}

/// How many of some ends were right, if that is asked for.
fn right_count(rights: Option<&[bool]>) -> Option<u64>
    ensures { result ≡ option_map how_many_right_of (option_copied rights.entry) }
{
    Some(how_many_right(rights?))
}

/// How many strikes or slips ended, and if asked for how many of them right.
#[derive(Clone, Copy)]
pub struct Ends {
    pub count: u64,
    pub right: Option<u64>,
}

impl fmt::Display for Ends {
    ghost output = { λ e. Some (ends_text e.count e.right) };

    fn fmt<W: fmt::Write>(&self, f: &mut fmt::Formatter<W>) -> fmt::Result {
        let count = self.count;
        match self.right {
            None => write!(f, "{count}"),
            Some(right) => {
                let wrong = count.saturating_sub(right);
                write!(f, "{count} ({right} right, {wrong} wrong)")
            }
        }
    }
}

/// How often each verdict came.
#[derive(Clone, Copy)]
struct Tally {
    fired: u64,
    ended: Ends,
    same: u64,
    closed: u64,
    not_reached: u64,
    /// The greatest number of steps until a check fired; 0 if none did.
    longest: u64,
}

impl Tally {
    /// Counts one more verdict.
    fn add(&mut self, verdict: Verdict)
        requires { counted self.old < 2 ^ 64 - 1 }
        ensures { self.new ≡ with_verdict self.old verdict }
    {
        match verdict {
            Verdict::Closed => self.closed += 1,
            Verdict::NotReached => self.not_reached += 1,
            Verdict::Fired(steps) => {
                self.fired += 1;
                self.longest = self.longest.max(steps);
            }
            Verdict::Ended(_) => self.ended.count += 1,
            Verdict::Same => self.same += 1,
        }
    }

    /// The verdicts of strikes; `right` of them ended right.
    fn of(strikes: &[Struck], right: Option<u64>) -> Tally
        ensures { result ≡ tally_of strikes.now right }
    {
        let mut tally = Tally {
            fired: 0,
            ended: Ends { count: 0, right },
            same: 0,
            closed: 0,
            not_reached: 0,
            longest: 0,
        };
        for strike in strikes {
            tally.add(strike.verdict);
        }
        tally
    }
}

impl fmt::Display for Tally {
    ghost output = { λ t. Some (tally_text t) };

    fn fmt<W: fmt::Write>(&self, f: &mut fmt::Formatter<W>) -> fmt::Result {
        let Tally {
            fired,
            ended,
            same,
            closed,
            not_reached,
            longest,
        } = *self;
        write!(
            f,
            "fired {fired}, ended {ended}, same {same}, closed {closed}, not reached {not_reached}, longest {longest}"
        )
    }
}

/// The last line about strikes: their verdicts, and the bounds of the plan of the output.
pub fn summary_line(
    alloc: Global,
    strikes: &[Struck],
    rights: Option<&[bool]>,
    plan: &Plan,
) -> Result<String, AllocError>
    ensures { IfOk result (λ text. string_bytes text ≡ summary_line (option_copied rights.entry) strikes.now plan.now) }
{
    let count = strikes.len();
    let tally = Tally::of(strikes, right_count(rights));
    let bounds = BoundsText(plan.bounds);
    format!(in alloc; "strikes {count}, {tally}, {bounds}\n")
}
