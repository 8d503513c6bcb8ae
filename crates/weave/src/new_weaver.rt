//! A weaver for a test.
ghost use Rattle.std.specs.Prelude.{◌≡◌, IfOk};
ghost use Rattle.plc_rounds.specs.Spans.{spans_of};
ghost use Rattle.weave.specs.Form.{form, form_with};

use crate::{Weaver, piece};
use elf_types::Listed;
use end_sweep::Sweep;
use qed_model::{Options, Ranges};
use std::alloc::{AllocError, Global};

/// A copy of data ranges.
///
/// Errors: want of memory.
pub fn copied(alloc: Global, span: &Ranges) -> Result<Ranges, AllocError>
    ensures { IfOk result (λ copy. copy ≡ span.now) }
{
    Ok(Listed::of(Vec::from_slice(alloc, span.as_slice())?))
}

impl Weaver {
    /// Makes the new code of a test with these data ranges, with the options, in the near or in the far form.
    pub fn new(
        alloc: Global,
        span: &Ranges,
        options: &Options,
        far: bool,
    ) -> Result<Weaver, AllocError>
        ensures { IfOk result (λ weaver. form weaver ≡ form_with (spans_of span.now) options.now far) }
    {
        let pieces = piece(options.diverse, options.round, copied(alloc, span)?);
        let sweep = if options.sweep {
            Some(Sweep {
                span: copied(alloc, span)?,
            })
        } else {
            None
        };
        Ok(Weaver { pieces, far, sweep })
    }
}
