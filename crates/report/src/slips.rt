//! What is printed about the slips of a campaign.
ghost use Rattle.std.specs.Prelude.{◌≡◌, Some, IfOk, string_bytes};
ghost use Rattle.qed_words.specs.Text.Slips.{slip_text, shown_text, right_text, slip_line, slip_lines, slips_text};

use crate::slip_tally::slips_summary;
use elf_types::Bytes;
use fault_inject::{SlipFound, SlipVerdict};
use qed_model::Plan;
use rv_step::Slip;
use rv_text::Address;
use std::alloc::{AllocError, Global};
use std::fmt;

/// How an instruction goes wrong, printed as `skip`, or with a number.
#[derive(Clone, Copy)]
struct SlipText(Slip);

impl fmt::Display for SlipText {
    ghost output = { λ s. Some (slip_text s.0) };

    fn fmt<W: fmt::Write>(&self, f: &mut fmt::Formatter<W>) -> fmt::Result {
        match self.0 {
            Slip::Skip => write!(f, "skip"),
            Slip::Result(value) => write!(f, "result={}", Address(value)),
            Slip::Branch => write!(f, "branch"),
            Slip::Store(value) => write!(f, "store={}", Address(value)),
            Slip::Place(address) => write!(f, "place={}", Address(address)),
        }
    }
}

/// What a slip shows, with the steps from behind it.
#[derive(Clone, Copy)]
struct ShownText(SlipVerdict);

impl fmt::Display for ShownText {
    ghost output = { λ v. Some (shown_text v.0) };

    fn fmt<W: fmt::Write>(&self, f: &mut fmt::Formatter<W>) -> fmt::Result {
        match self.0 {
            SlipVerdict::NotReached => write!(f, "not reached"),
            SlipVerdict::Fired(steps) => write!(f, "fired {steps}"),
            SlipVerdict::Trapped(steps) => write!(f, "trapped {steps}"),
            SlipVerdict::Ended(steps) => write!(f, "ended {steps}"),
            SlipVerdict::Going => write!(f, "going"),
        }
    }
}

/// Whether the output ended right, as ` right` or ` wrong`, if that is asked for.
#[derive(Clone, Copy)]
struct RightText(SlipVerdict, Option<bool>);

impl fmt::Display for RightText {
    ghost output = { λ e. Some (right_text e.0 e.1) };

    fn fmt<W: fmt::Write>(&self, f: &mut fmt::Formatter<W>) -> fmt::Result {
        match (self.0, self.1) {
            (SlipVerdict::Ended(_), Some(true)) => write!(f, " right"),
            (SlipVerdict::Ended(_), Some(false)) => write!(f, " wrong"),
            _ => Ok(()),
        }
    }
}

/// The line about a slip.
fn slip_line(alloc: Global, number: usize, found: &SlipFound) -> Result<String, AllocError>
    ensures { IfOk result (λ line. string_bytes line ≡ slip_line number found.now) }
{
    let step = found.at.step;
    let slip = SlipText(found.at.slip);
    let shown = ShownText(found.verdict);
    let right = RightText(found.verdict, found.right);
    format!(in alloc; "{number} step {step} {slip} {shown}{right}\n")
}

/// The lines about slips, numbered from 0.
fn slip_lines(alloc: Global, found: &[SlipFound]) -> Result<Vec<u8>, AllocError>
    ensures { IfOk result (λ text. text.items ≡ slip_lines 0 found.now) }
{
    let mut text = Vec::new(alloc);
    for (number, slip) in found.iter().enumerate() {
        let line = slip_line(alloc, number, slip)?;
        text.extend_from_slice(line.as_bytes())?;
    }
    Ok(text)
}

/// The text about slips of an output: a line for each, then what they show and the plan's bounds. `results` says
/// whether it was asked for which ends are right.
pub fn slips_text(
    alloc: Global,
    found: &[SlipFound],
    plan: &Plan,
    results: bool,
) -> Result<Bytes, AllocError>
    ensures { IfOk result (λ text. text ≡ slips_text results found.now plan.now) }
{
    let mut text = slip_lines(alloc, found)?;
    let last = slips_summary(alloc, found, plan, results)?;
    text.extend_from_slice(last.as_bytes())?;
    Ok(Bytes::of(text))
}
