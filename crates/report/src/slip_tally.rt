//! What the last line about slips says of them.
ghost use Rattle.std.specs.Prelude.{◌≡◌, ◌-◌, ◌^◌, ◌<◌, Some, IfOk, string_bytes};
ghost use Rattle.qed_words.specs.Text.Slips.{asked_right, right_slips as right_slips_of, slips_summary};
ghost use Rattle.report.specs.SlipTally.{slips_counted, slip_tally_of, slip_tally_text, with_slip};

use crate::tally::Ends;
use crate::transform::BoundsText;
use fault_inject::{SlipFound, SlipVerdict};
use qed_model::Plan;
use std::alloc::{AllocError, Global};
use std::fmt;

/// How many slips ended right.
fn right_slips(found: &[SlipFound]) -> u64
    ensures { result ≡ right_slips_of found.now }
{
    let mut count = 0;
    for slip in found {
        if slip.right.unwrap_or(false) {
            count += 1;
        }
    }
    count
}

/// How many slips ended right, if that is asked for.
fn asked_right(found: &[SlipFound], results: bool) -> Option<u64>
    ensures { result ≡ asked_right results found.now }
{
    if results {
        return Some(right_slips(found));
    }
    None
}

/// How often each verdict came.
#[derive(Clone, Copy)]
struct SlipTally {
    fired: u64,
    trapped: u64,
    ended: Ends,
    going: u64,
    not_reached: u64,
    /// The greatest number of steps until a check fired; 0 if none did.
    longest: u64,
}

impl SlipTally {
    /// Counts one more verdict.
    fn add(&mut self, verdict: SlipVerdict)
        requires { slips_counted self.old < 2 ^ 64 - 1 }
        ensures { self.new ≡ with_slip self.old verdict }
    {
        match verdict {
            SlipVerdict::NotReached => self.not_reached += 1,
            SlipVerdict::Fired(steps) => {
                self.fired += 1;
                self.longest = self.longest.max(steps);
            }
            SlipVerdict::Trapped(_) => self.trapped += 1,
            SlipVerdict::Ended(_) => self.ended.count += 1,
            SlipVerdict::Going => self.going += 1,
        }
    }

    /// The verdicts of slips; `right` of them ended right.
    fn of(found: &[SlipFound], right: Option<u64>) -> SlipTally
        ensures { result ≡ slip_tally_of found.now right }
    {
        let mut tally = SlipTally {
            fired: 0,
            trapped: 0,
            ended: Ends { count: 0, right },
            going: 0,
            not_reached: 0,
            longest: 0,
        };
        for slip in found {
            tally.add(slip.verdict);
        }
        tally
    }
}

impl fmt::Display for SlipTally {
    ghost output = { λ t. Some (slip_tally_text t) };

    fn fmt<W: fmt::Write>(&self, f: &mut fmt::Formatter<W>) -> fmt::Result {
        let SlipTally {
            fired,
            trapped,
            ended,
            going,
            not_reached,
            longest,
        } = *self;
        write!(
            f,
            "fired {fired}, trapped {trapped}, ended {ended}, going {going}, not reached {not_reached}, longest {longest}"
        )
    }
}

/// The last line about slips: their verdicts, and the bounds of the plan of the output. `results` says whether it was
/// asked for which ends are right.
pub fn slips_summary(
    alloc: Global,
    found: &[SlipFound],
    plan: &Plan,
    results: bool,
) -> Result<String, AllocError>
    ensures { IfOk result (λ text. string_bytes text ≡ slips_summary results found.now plan.now) }
{
    let count = found.len();
    let tally = SlipTally::of(found, asked_right(found, results));
    let bounds = BoundsText(plan.bounds);
    format!(in alloc; "slips {count}, {tally}, {bounds}\n")
}
