//! What orders call for.
ghost use Rattle.std.specs.Prelude.{◌≡◌, ◌≤◌, false, IfOk, length};
ghost use Rattle.std.specs.Option.{option_copied};
ghost use Rattle.machine.specs.Limits.{limit_of};
ghost use Rattle.qed_words.specs.Sound.{IsSoundOrder};
ghost use Rattle.qed_top.specs.Orders.{AnswersOver, IsUsage, reads_several, source_limit as source_limit_of, source_name as source_name_of};

use crate::answer::{Answer, plain};
use crate::asm::answer_asm;
use crate::campaigns::{Asked, answer_campaign, answer_slips};
use crate::explained::answer_explain;
use crate::generated::answer_gen;
use crate::list::answer_list;
use crate::outputs::{answer_plan, answer_transform};
use crate::run::{Way, answer_run};
use crate::status::Status;
use campaign::Progress;
use elf_types::Bytes;
use qed_model::Limit;
use qed_words::{Order, Reason};
use report::{help_text, usage_text};
use std::alloc::{AllocError, Global};

/// The name of the file that an order reads, if it reads one.
pub fn source_name(order: &Order) -> Option<&str>
    ensures { option_copied result ≡ source_name_of order.now }
{
    match order {
        Order::Transform(input, _, _) => Some(input.as_str()),
        Order::Plan(input, _) => Some(input.as_str()),
        Order::Explain(input, _, _) => Some(input.as_str()),
        Order::Run(file, _, _, _, _) => Some(file.as_str()),
        Order::Campaign(input, _, _, _) => Some(input.as_str()),
        Order::Slips(input, _, _, _) => Some(input.as_str()),
        Order::Gen(_, _, _) => None,
        Order::List(file) => Some(file.as_str()),
        Order::Asm(text, _) => Some(text.as_str()),
        Order::Harts(_, _, _) => None,
        Order::Tell(_) => None,
    }
}

/// The limit on the bytes of the file that an order reads.
pub fn source_limit(order: &Order) -> Limit
    ensures { result ≡ source_limit_of order.now }
{
    match order {
        Order::Run(_, _, _, _, _) | Order::List(_) => Limit::RunFileBytes,
        _ => Limit::FileBytes,
    }
}

/// The answer if the words ask for nothing.
pub fn usage(alloc: Global, reason: Reason) -> Result<Answer, AllocError>
    ensures { IfOk result (IsUsage reason) }
{
    let text = usage_text(alloc, reason)?;
    Ok(plain(Status::Usage, text))
}

/// What an order that reads at most one file calls for over its bytes.
pub fn answer_order(
    alloc: Global,
    order: Order,
    bytes: Bytes,
    progress: &mut dyn Progress,
) -> Result<Answer, AllocError>
    requires sound { IsSoundOrder order }
    requires one { reads_several order ≡ false }
    requires within { length bytes ≤ limit_of (source_limit_of order) }
    ensures { IfOk result (AnswersOver order bytes) }
{
    match order {
        Order::Transform(_, output, options) => Ok(answer_transform(
            alloc,
            bytes.as_slice(),
            output,
            &options,
        )?),
        Order::Plan(_, options) => Ok(answer_plan(alloc, bytes.as_slice(), &options)?),
        Order::Explain(_, options, at) => {
            Ok(answer_explain(alloc, bytes.as_slice(), &options, at)?)
        }
        Order::Run(_, steps, changes, dump, watch) => {
            let shared = bytes.into_shared(alloc)?;
            let way = Way {
                steps,
                changes,
                dump,
                watch,
            };
            Ok(answer_run(alloc, &shared, &way, progress)?)
        }
        Order::Gen(output, seed, size) => Ok(answer_gen(alloc, output, seed, size)?),
        Order::List(_) => Ok(answer_list(alloc, bytes.as_slice())?),
        Order::Asm(_, output) => Ok(answer_asm(alloc, bytes.as_slice(), output)?),
        Order::Campaign(_, options, draws, results) => {
            let asked = Asked { draws, results };
            Ok(answer_campaign(alloc, bytes.as_slice(), &options, &asked, progress)?)
        }
        Order::Slips(_, options, draws, results) => {
            let asked = Asked { draws, results };
            Ok(answer_slips(alloc, bytes.as_slice(), &options, &asked, progress)?)
        }
        Order::Tell(topic) => {
            let text = help_text(alloc, topic)?;
            Ok(plain(Status::Done, text))
        }
        // It reads several files; one is too few.
        Order::Harts(_, _, _) => Ok(usage(alloc, Reason::MissingFile)?),
    }
}
