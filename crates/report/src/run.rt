//! What is printed about a run.
ghost use Rattle.std.specs.Prelude.{◌≡◌, ◌+◌, ◌^◌, ◌<◌, ◌≤◌, ◌++◌, Some, IfSome, IfOk, string_bytes};
ghost use Rattle.machine.specs.Memory.{Memory};
ghost use Rattle.qed_words.specs.Text.Run.{cause_text, outcome_text, outcome_line, jumps_line, slipped_line, register_line, register_lines, run_lines};
ghost use Rattle.qed_words.specs.Text.Run.{run_text};
ghost use Rattle.rv_step.specs.Harts.{with_memory};

use crate::dump::dump_text;
use elf_types::Bytes;
use fault_inject::Slipped;
use qed_model::{Cause, Outcome};
use rv_isa::Reg;
use rv_step::{Hart, Machine};
use rv_text::{Address, Word};
use std::alloc::{AllocError, Global};
use std::fmt;

/// Why a step trapped, as `load 0x0000000000000000`.
#[derive(Clone, Copy)]
struct CauseText(Cause);

impl fmt::Display for CauseText {
    ghost output = { λ c. Some (cause_text c.0) };

    fn fmt<W: fmt::Write>(&self, f: &mut fmt::Formatter<W>) -> fmt::Result {
        match self.0 {
            Cause::Fetch => write!(f, "fetch"),
            Cause::Word(word) => write!(f, "word {}", Word(word)),
            Cause::Load(address) => write!(f, "load {}", Address(address)),
            Cause::Store(address) => write!(f, "store {}", Address(address)),
            Cause::Target(address) => write!(f, "target {}", Address(address)),
        }
    }
}

/// The end of a run, in words.
#[derive(Clone, Copy)]
struct OutcomeText(Outcome);

impl fmt::Display for OutcomeText {
    ghost output = { λ o. Some (outcome_text o.0) };

    fn fmt<W: fmt::Write>(&self, f: &mut fmt::Formatter<W>) -> fmt::Result {
        match self.0 {
            Outcome::Going => write!(f, "going"),
            Outcome::Ended => write!(f, "ended"),
            Outcome::Fired => write!(f, "fired"),
            Outcome::Trapped(cause, _) => write!(f, "trapped {}", CauseText(cause)),
        }
    }
}

/// The first line about a run.
fn outcome_text(alloc: Global, hart: &Hart) -> Result<String, AllocError>
    ensures { IfOk result (λ text. (m : Memory) → string_bytes text ≡ outcome_line (with_memory hart.now m)) }
{
    let outcome = OutcomeText(hart.outcome());
    let steps = hart.steps();
    let pc = Address(hart.pc());
    format!(in alloc; "{outcome} after {steps} steps at {pc}\n")
}

/// The line about a register.
fn register_text(alloc: Global, hart: &Hart, number: u8) -> Result<String, AllocError>
    requires { number < 32 }
    ensures { IfOk result (λ text. (m : Memory) → string_bytes text ≡ register_line (with_memory hart.now m).state number) }
{
    let register = Reg::new(number).unwrap();
    format!(in alloc; "x{number} {}\n", Address(hart.reg(register)))
}

/// The registers x1 to x31, a line each.
fn registers_text(alloc: Global, hart: &Hart) -> Result<Vec<u8>, AllocError>
    ensures { IfOk result (λ text. (m : Memory) → text.items ≡ register_lines (with_memory hart.now m).state 31) }
{
    let mut text = Vec::new(alloc);
    for number in 1..32 {
        let line = register_text(alloc, hart, number)?;
        text.extend_from_slice(line.as_bytes())?;
    }
    Ok(text)
}

/// The first line about a run, a second one, and the registers.
fn lines_with(alloc: Global, hart: &Hart, second: &[u8]) -> Result<Vec<u8>, AllocError>
    ensures { IfOk result (λ text. (m : Memory)
        → text.items ≡ outcome_line (with_memory hart.now m) ++ second.now ++ register_lines (with_memory hart.now m).state 31) }
{
    let mut text = outcome_text(alloc, hart)?.into_bytes();
    text.extend_from_slice(second)?;
    let registers = registers_text(alloc, hart)?;
    text.extend_from_slice(&registers)?;
    Ok(text)
}

/// How a run ended, after how many steps, at which pc, and then the registers x1 to x31, a line each.
pub fn run_lines(alloc: Global, hart: &Hart) -> Result<Vec<u8>, AllocError>
    ensures { IfOk result (λ text. (m : Memory) → text.items ≡ run_lines (with_memory hart.now m)) }
{
    let text = lines_with(alloc, hart, &[])?;
    Ok(text)
}

/// The line about the first indirect jump to an address that is not reached, with the address of
/// the jump and its target, or that there was none.
pub fn jumps_text(alloc: Global, astray: Option<(u64, u64)>) -> Result<String, AllocError>
    ensures { IfOk result (λ text. string_bytes text ≡ jumps_line astray) }
{
    match astray {
        Some((at, to)) => {
            format!(in alloc; "jump at {} to {} not reached\n", Address(at), Address(to))
        }
        None => String::from_str(alloc, "jumps reached\n"),
    }
}

/// The line about a slip: whether the instruction went wrong, and its address.
pub fn slipped_text(alloc: Global, slipped: Slipped) -> Result<String, AllocError>
    ensures { IfOk result (λ text. string_bytes text ≡ slipped_line slipped) }
{
    match slipped {
        Slipped::At(pc) => format!(in alloc; "slipped at {}\n", Address(pc)),
        Slipped::NoSlip(pc) => format!(in alloc; "no such slip at {}\n", Address(pc)),
        Slipped::NotReached => String::from_str(alloc, "slip not reached\n"),
    }
}

/// The text about a run: how it ended, after how many steps, at which pc. Then a second line about its
/// jumps or its slip, which may be empty, and the registers x1 to x31, a line each. Then the bytes of a dump,
/// by its address and length in bytes, 16 to a line.
pub fn run_text(
    alloc: Global,
    machine: &Machine,
    second: &[u8],
    dump: Option<(u64, u64)>,
) -> Result<Bytes, AllocError>
    requires { IfSome dump (λ d. (1 ≤ d.1) × (d.1 ≤ 65536) × (d.0 + d.1 ≤ 2 ^ 64)) }
    ensures { IfOk result (λ text. text ≡ run_text machine.now second.now dump) }
{
    let mut text = lines_with(alloc, machine.hart(), second)?;
    if let Some((address, length)) = dump {
        let shown = dump_text(alloc, machine, address, length)?;
        text.extend_from_slice(&shown)?;
    }
    Ok(Bytes::of(text))
}
