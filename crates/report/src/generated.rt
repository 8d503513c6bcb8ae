//! What is printed about a generated test.
ghost use Rattle.std.specs.Prelude.{◌≡◌, Some, IfOk};
ghost use Rattle.report.specs.Generated.{ran_text, drawn_text, generated_line};

use crate::transform::BoundsText;
use elf_types::Bytes;
use qed_model::{Outcome, Plan};
use rv_step::Machine;
use std::alloc::{AllocError, Global};
use std::fmt;

/// A run, printed as `ended after N steps`.
#[derive(Clone, Copy)]
struct Ran(Outcome, u64);

impl fmt::Display for Ran {
    ghost output = { λ r. Some (ran_text r.0 r.1) };

    fn fmt<W: fmt::Write>(&self, f: &mut fmt::Formatter<W>) -> fmt::Result {
        let steps = self.1;
        match self.0 {
            Outcome::Going => write!(f, "going after {steps} steps"),
            Outcome::Ended => write!(f, "ended after {steps} steps"),
            Outcome::Fired => write!(f, "fired after {steps} steps"),
            Outcome::Trapped(_, _) => write!(f, "trapped after {steps} steps"),
        }
    }
}

/// What a generated test was drawn from, printed as `seed S, size N, code words W`.
#[derive(Clone, Copy)]
pub struct Drawn {
    pub seed: u64,
    /// The size in body instructions.
    pub size: u64,
    /// The number of words of code.
    pub words: u64,
}

impl fmt::Display for Drawn {
    ghost output = { λ d. Some (drawn_text d.seed d.size d.words) };

    fn fmt<W: fmt::Write>(&self, f: &mut fmt::Formatter<W>) -> fmt::Result {
        let Drawn { seed, size, words } = *self;
        write!(f, "seed {seed}, size {size}, code words {words}")
    }
}

/// The line about a generated test: what it was drawn from, its own run, its output and the run of that, and the bounds
/// in steps.
pub fn generated_text(
    alloc: Global,
    drawn: Drawn,
    input: &Machine,
    plan: &Plan,
    output: &Machine,
) -> Result<Bytes, AllocError>
    ensures { IfOk result (λ text. text ≡ generated_line drawn.seed drawn.size drawn.words input.now plan.now output.now) }
{
    let input = Ran(input.outcome(), input.steps());
    let bytes = plan.code_bytes;
    let output = Ran(output.outcome(), output.steps());
    let bounds = BoundsText(plan.bounds);
    let text = format!(in alloc;
        "{drawn}, input {input}, output code {bytes} bytes, output {output}, {bounds}\n"
    )?;
    Ok(Bytes::of(text.into_bytes()))
}
