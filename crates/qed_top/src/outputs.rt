//! What `transform` and `plan` answer.
ghost use Rattle.std.specs.Prelude.{IfOk};
ghost use Rattle.qed_model.specs.Weave.SoundOptions.{AreSoundOptions};
ghost use Rattle.report.specs.Plan.{plan_text};
ghost use Rattle.qed_top.specs.Answer.{PrintsOnly};
ghost use Rattle.qed_top.specs.Makes.{Delivers, MakesOutput, TellsPlan};

use crate::answer::{Answer, Stored, plain};
use crate::refusal::refused;
use crate::status::Status;
use qed_model::{Options, Plan};
use qed_words::Name;
use report::{plan_text, transform_text};
use std::alloc::{AllocError, Global};
use transform::{Transformed, transform};

/// What `transform` answers for an output.
fn deliver(alloc: Global, made: Transformed, output: Name) -> Result<Answer, AllocError>
    ensures { IfOk result (Delivers output made.file made.plan) }
{
    let text = transform_text(alloc, &made.plan)?;
    Ok(Answer {
        status: Status::Done,
        text,
        stored: Some(Stored {
            name: output,
            bytes: made.file,
        }),
    })
}

/// What `transform` answers over the bytes of its input.
pub fn answer_transform(
    alloc: Global,
    bytes: &[u8],
    output: Name,
    options: &Options,
) -> Result<Answer, AllocError>
    requires { AreSoundOptions options.now }
    ensures { IfOk result (MakesOutput bytes.now options.now (Delivers output)) }
{
    match transform(alloc, bytes, options) {
        Ok(made) => Ok(deliver(alloc, made, output)?),
        Err(error) => Ok(refused(alloc, &error)?),
    }
}

/// What `plan` answers for a plan.
fn tell(alloc: Global, plan: &Plan) -> Result<Answer, AllocError>
    ensures { IfOk result (PrintsOnly Status.Done (plan_text plan.now)) }
{
    let text = plan_text(alloc, plan)?;
    Ok(plain(Status::Done, text))
}

/// What `plan` answers over the bytes of its input.
pub fn answer_plan(alloc: Global, bytes: &[u8], options: &Options) -> Result<Answer, AllocError>
    requires { AreSoundOptions options.now }
    ensures { IfOk result (MakesOutput bytes.now options.now TellsPlan) }
{
    match transform(alloc, bytes, options) {
        Ok(made) => Ok(tell(alloc, &made.plan)?),
        Err(error) => Ok(refused(alloc, &error)?),
    }
}
