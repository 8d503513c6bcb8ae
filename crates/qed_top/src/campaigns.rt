//! What `campaign` answers.
ghost use Rattle.std.specs.Prelude.{◌≡◌, All, IfOk};
ghost use Rattle.qed_model.specs.Promise.Changed.{Ordered};
ghost use Rattle.qed_model.specs.Weave.SoundOptions.{AreSoundOptions};
ghost use Rattle.qed_top.specs.Campaign.{campaign_status, strikes_text_of as text_of_campaign, Campaigns, SlipCampaigns, TellsCampaign, TellsSlips};

use crate::answer::{Answer, plain};
use crate::refusal::refused;
use crate::status::Status;
use campaign::{Campaign, Course, Progress};
use elf_types::Bytes;
use qed_model::{Draws, Options};
use report::{campaign_text, slips_text};
use std::alloc::{AllocError, Global};

/// A campaign's request: its strikes, and whether to print which ends are right.
#[derive(Clone, Copy, Debug)]
pub struct Asked {
    pub draws: Draws,
    pub results: bool,
}

/// The status, by the pc at which the input trapped, if it did.
fn status_of(trapped: Option<u64>) -> Status
    ensures { result ≡ campaign_status trapped }
{
    match trapped {
        None => Status::Done,
        Some(_) => Status::Trapped,
    }
}

/// The text about strikes; with `results` it says which ends are right.
fn text_of(
    alloc: Global,
    course: &Course,
    campaign: &Campaign,
    results: bool,
) -> Result<Bytes, AllocError>
    requires { All (λ s. Ordered s.changes) campaign.now.struck.items }
    ensures { IfOk result (λ text. text ≡ text_of_campaign course.now results campaign.now.struck.items campaign.now.trapped) }
{
    let struck = campaign.struck.as_slice();
    if results {
        let rights = course.rights(alloc, struck)?;
        Ok(campaign_text(
            alloc,
            struck,
            Some(rights.as_slice()),
            course.plan(),
            campaign.trapped,
        )?)
    } else {
        Ok(campaign_text(alloc, struck, None, course.plan(), campaign.trapped)?)
    }
}

/// What `campaign` answers for a transformed test.
fn strike(
    alloc: Global,
    course: &Course,
    asked: &Asked,
    progress: &mut dyn Progress,
) -> Result<Answer, AllocError>
    ensures { IfOk result (TellsCampaign course.now asked.now.draws asked.now.results) }
{
    let strikes = course.draw(alloc, &asked.draws)?;
    let reach = course.reach();
    let campaign = course.strike_all(alloc, &strikes, progress)?;
    let text = text_of(alloc, course, &campaign, asked.results)?;
    Ok(plain(status_of(campaign.trapped), text))
}

/// What `campaign --only slips` answers for a transformed test.
fn slip(
    alloc: Global,
    course: &Course,
    asked: &Asked,
    progress: &mut dyn Progress,
) -> Result<Answer, AllocError>
    ensures { IfOk result (TellsSlips course.now asked.now.draws asked.now.results) }
{
    let found = course.slips(alloc, &asked.draws, asked.results, progress)?;
    let text = slips_text(alloc, &found, course.plan(), asked.results)?;
    Ok(plain(Status::Done, text))
}

/// What `campaign` answers over the bytes of its input.
pub fn answer_campaign(
    alloc: Global,
    bytes: &[u8],
    options: &Options,
    asked: &Asked,
    progress: &mut dyn Progress,
) -> Result<Answer, AllocError>
    requires { AreSoundOptions options.now }
    ensures { IfOk result (Campaigns bytes.now options.now asked.now.draws asked.now.results) }
{
    match Course::prepare(alloc, bytes, options) {
        Ok(course) => Ok(strike(alloc, &course, asked, progress)?),
        Err(error) => Ok(refused(alloc, &error)?),
    }
}

/// What `campaign --only slips` answers over the bytes of its input.
pub fn answer_slips(
    alloc: Global,
    bytes: &[u8],
    options: &Options,
    asked: &Asked,
    progress: &mut dyn Progress,
) -> Result<Answer, AllocError>
    requires { AreSoundOptions options.now }
    ensures { IfOk result (SlipCampaigns bytes.now options.now asked.now.draws asked.now.results) }
{
    match Course::prepare(alloc, bytes, options) {
        Ok(course) => Ok(slip(alloc, &course, asked, progress)?),
        Err(error) => Ok(refused(alloc, &error)?),
    }
}
