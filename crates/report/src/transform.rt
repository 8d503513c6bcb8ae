//! What is printed about an output.
ghost use Rattle.std.specs.Prelude.{◌≡◌, Some, IfOk};
ghost use Rattle.qed_words.specs.Text.Plan.{sizes_text, bounds_text, plan_line};

use elf_types::Bytes;
use qed_model::{Bounds, Plan};
use std::alloc::{AllocError, Global};
use std::fmt;

/// The sizes of an output, printed as `code N bytes, entries E, pieces P, half D`.
#[derive(Clone, Copy)]
struct Sizes(u64, u64, u64, u64);

impl fmt::Display for Sizes {
    ghost output = { λ s. Some (sizes_text s.0 s.1 s.2 s.3) };

    fn fmt<W: fmt::Write>(&self, f: &mut fmt::Formatter<W>) -> fmt::Result {
        let Sizes(code, entries, pieces, half) = *self;
        write!(
            f,
            "code {code} bytes, entries {entries}, pieces {pieces}, half {half}"
        )
    }
}

/// The bounds of an output in steps, printed as `register bound R, word bound B`. Without data
/// words the word bound is None.
#[derive(Clone, Copy)]
pub struct BoundsText(pub Bounds);

impl fmt::Display for BoundsText {
    ghost output = { λ b. Some (bounds_text b.0.register b.0.word) };

    fn fmt<W: fmt::Write>(&self, f: &mut fmt::Formatter<W>) -> fmt::Result {
        let register = self.0.register;
        match self.0.word {
            Some(word) => write!(f, "register bound {register}, word bound {word}"),
            None => write!(f, "register bound {register}, word bound none"),
        }
    }
}

/// The line about an output, by its plan.
pub fn transform_text(alloc: Global, plan: &Plan) -> Result<Bytes, AllocError>
    ensures { IfOk result (λ text. text ≡ plan_line plan.now) }
{
    let entries = plan.entries.as_slice().len() as u64;
    let pieces = plan.pieces.as_slice().len() as u64;
    let sizes = Sizes(plan.code_bytes, entries, pieces, plan.distance);
    let bounds = BoundsText(plan.bounds);
    Ok(Bytes::of(format!(in alloc; "{sizes}, {bounds}\n")?.into_bytes()))
}
