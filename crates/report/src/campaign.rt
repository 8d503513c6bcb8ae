//! What is printed about strikes.
ghost use Rattle.std.specs.Prelude.{◌≡◌, Some, IfOk, string_bytes};
ghost use Rattle.std.specs.Option.{option_copied};
ghost use Rattle.qed_words.specs.Text.Campaign.{change_place_text, change_text, changes_text, verdict_text, right_at as right_at_of, end_text, strike_line};
ghost use Rattle.qed_words.specs.Text.Campaign.{strike_lines, campaign_text};

use crate::tally::summary_line;
use elf_types::Bytes;
use qed_model::{Change, Place, Plan, Struck, Verdict};
use rv_text::Address;
use std::alloc::{AllocError, Global};
use std::fmt;

/// What is changed, printed as `x5`, or as the address of a word.
#[derive(Clone, Copy)]
struct PlaceText(Place);

impl fmt::Display for PlaceText {
    ghost output = { λ p. Some (change_place_text p.0) };

    fn fmt<W: fmt::Write>(&self, f: &mut fmt::Formatter<W>) -> fmt::Result {
        match self.0 {
            Place::Reg(register) => write!(f, "x{}", register.number()),
            Place::Word(address) => write!(f, "{}", Address(address)),
        }
    }
}

/// The verdict of a strike, with the steps from its last change.
#[derive(Clone, Copy)]
struct VerdictText(Verdict);

impl fmt::Display for VerdictText {
    ghost output = { λ v. Some (verdict_text v.0) };

    fn fmt<W: fmt::Write>(&self, f: &mut fmt::Formatter<W>) -> fmt::Result {
        match self.0 {
            Verdict::Closed => write!(f, "closed"),
            Verdict::NotReached => write!(f, "not reached"),
            Verdict::Fired(steps) => write!(f, "fired {steps}"),
            Verdict::Ended(steps) => write!(f, "ended {steps}"),
            Verdict::Same => write!(f, "same"),
        }
    }
}

/// Whether a test ended right, as ` right` or ` wrong`, if that is asked for.
#[derive(Clone, Copy)]
struct EndText(Verdict, Option<bool>);

impl fmt::Display for EndText {
    ghost output = { λ e. Some (end_text e.0 e.1) };

    fn fmt<W: fmt::Write>(&self, f: &mut fmt::Formatter<W>) -> fmt::Result {
        match (self.0, self.1) {
            (Verdict::Ended(_), Some(true)) => write!(f, " right"),
            (Verdict::Ended(_), Some(false)) => write!(f, " wrong"),
            _ => Ok(()),
        }
    }
}

/// A change, as ` step 40 x5=0x0000000000000001`.
fn change_text(alloc: Global, change: &Change) -> Result<String, AllocError>
    ensures { IfOk result (λ text. string_bytes text ≡ change_text change.now) }
{
    let (place, value) = (PlaceText(change.place), Address(change.value));
    format!(in alloc; " step {} {place}={value}", change.step)
}

/// The changes of a strike.
fn changes_text(alloc: Global, changes: &[Change]) -> Result<Vec<u8>, AllocError>
    ensures { IfOk result (λ text. text.items ≡ changes_text changes.now) }
{
    let mut text = Vec::new(alloc);
    for change in changes {
        let change = change_text(alloc, change)?;
        text.extend_from_slice(change.as_bytes())?;
    }
    Ok(text)
}

/// Whether a strike ended right, if that is asked for.
fn right_at(rights: Option<&[bool]>, number: usize) -> Option<bool>
    ensures { result ≡ right_at_of (option_copied rights.entry) number }
{
    rights?.get(number).copied()
}

/// The line about a strike.
fn strike_line(
    alloc: Global,
    number: usize,
    struck: &Struck,
    right: Option<bool>,
) -> Result<Vec<u8>, AllocError>
    ensures { IfOk result (λ line. line.items ≡ strike_line number struck.now right) }
{
    let mut line = format!(in alloc; "{number}")?.into_bytes();
    let changes = changes_text(alloc, struck.changes.as_slice())?;
    line.extend_from_slice(&changes)?;
    let verdict = VerdictText(struck.verdict);
    let end = EndText(struck.verdict, right);
    let rest = format!(in alloc; " {verdict}{end}\n")?;
    line.extend_from_slice(rest.as_bytes())?;
    Ok(line)
}

/// The lines about strikes, numbered from 0.
fn strike_lines(
    alloc: Global,
    strikes: &[Struck],
    rights: Option<&[bool]>,
) -> Result<Vec<u8>, AllocError>
    ensures { IfOk result (λ text. text.items ≡ strike_lines (option_copied rights.entry) 0 strikes.now) }
{
    let mut text = Vec::new(alloc);
    for (number, struck) in strikes.iter().enumerate() {
        let line = strike_line(alloc, number, struck, right_at(rights, number))?;
        text.extend_from_slice(&line)?;
    }
    Ok(text)
}

/// The text about strikes of an output: a line for each, then their verdicts and the plan's bounds, or the pc
/// at which the input trapped. `rights` says for each, if asked for, whether the test ended right.
pub fn campaign_text(
    alloc: Global,
    struck: &[Struck],
    rights: Option<&[bool]>,
    plan: &Plan,
    trapped: Option<u64>,
) -> Result<Bytes, AllocError>
    ensures { IfOk result (λ text. text ≡ campaign_text struck.now (option_copied rights.entry) plan.now trapped) }
{
    let mut text = strike_lines(alloc, struck, rights)?;
    let last = match trapped {
        Some(pc) => format!(in alloc; "input trapped at {}\n", Address(pc))?,
        None => summary_line(alloc, struck, rights, plan)?,
    };
    text.extend_from_slice(last.as_bytes())?;
    Ok(Bytes::of(text))
}
