//! Rows about strikes: what single strikes show, and which places are closed.
ghost use Rattle.qed_model.specs.Weave.SoundOptions.{AreSoundOptions};

use crate::file_parts::{refusal, text_of};
use campaign::{Course, StrikeError};
use elf_read::read_elf;
use fault_inject::closed;
use qed_model::{Changes, Options, Place, Struck};
use report::campaign_text;
use rv_step::Machine;
use std::alloc::{AllocError, Global};

/// After how many steps the output of a test may be struck, and how many copies are kept.
pub(crate) fn reach(alloc: Global, bytes: &[u8], options: &Options) -> Result<String, AllocError>
    requires { AreSoundOptions options.now }
{
    let Ok(course) = Course::prepare(alloc, bytes, options) else {
        return String::from_str(alloc, "no output\n");
    };
    let (reach, snapshots) = (course.reach(), course.snapshots());
    format!(in alloc; "reach {reach} snapshots {snapshots}\n")
}

/// What changes of the run of a test's output show, as a campaign of that one strike prints it.
pub(crate) fn strike(
    alloc: Global,
    bytes: &[u8],
    options: &Options,
    changes: Changes,
) -> Result<String, AllocError>
    requires { AreSoundOptions options.now }
{
    let Ok(course) = Course::prepare(alloc, bytes, options) else {
        return String::from_str(alloc, "no output\n");
    };
    if !course.is_strike(changes.as_slice()) {
        return String::from_str(alloc, "no strike\n");
    }
    let text = match course.strike(alloc, changes.as_slice()) {
        Ok(verdict) => campaign_text(
            alloc,
            &[Struck { changes, verdict }],
            None,
            course.plan(),
            None,
        )?,
        Err(StrikeError::Trapped(pc)) => campaign_text(alloc, &[], None, course.plan(), Some(pc))?,
        Err(StrikeError::Memory) => return Err(AllocError),
    };
    text_of(alloc, &text)
}

/// Whether a place is closed after `steps` steps of a file.
pub(crate) fn closing(
    alloc: Global,
    bytes: &[u8],
    step: u64,
    place: &Place,
) -> Result<String, AllocError> {
    let file = match read_elf(alloc, bytes) {
        Ok(file) => file,
        Err(error) => return refusal(alloc, error),
    };
    let mut machine = Machine::start(alloc, &file, &[0; 32])?;
    machine.run(step)?;
    let word = if closed(&machine, place) {
        "closed\n"
    } else {
        "open\n"
    };
    String::from_str(alloc, word)
}
