//! The new code of a test, and the roles of its words.
ghost use Rattle.std.specs.Prelude.{◌≢◌, IfOk, IfErr};
ghost use Rattle.transform.specs.declared.error.TransformError.{TransformError as Refusal};
ghost use Rattle.qed_model.specs.Weave.SoundOptions.{AreSoundOptions};
ghost use Rattle.transform.specs.Explained.{IsExplained};
ghost use Rattle.transform.specs.Transform.{HasCause, IsTransformable, IsErrorOr, IsDoneOr};

use crate::code::code_of;
use crate::cut::cut_test;
use crate::error::TransformError;
use crate::unwritten::output_of;
use crate::whole::finish;
use elf_types::ElfFile;
use qed_model::{Options, RoleRow};
use std::alloc::Global;

/// The new code of a test, and the roles of its words.
#[derive(Debug, Drop)]
pub struct Explained {
    /// The test.
    pub file: ElfFile,
    /// The address of the first word.
    pub base: u64,
    pub words: Vec<u32>,
    /// Rows of words of one role, one behind the other from the first word on.
    pub roles: Vec<RoleRow>,
}

/// The new code of a test with its roles, if the test has an output.
fn explain_made(alloc: Global, bytes: &[u8], options: &Options) -> Result<Explained, TransformError>
    requires { AreSoundOptions options.now }
    ensures done { IfOk result (IsExplained bytes.now options.now) }
    ensures refused { IfErr result (HasCause bytes.now options.now) }
{
    let cut = cut_test(alloc, bytes, options)?;
    let code = code_of(alloc, &cut, options, true)?;
    let made = output_of(alloc, &cut, &code)?;
    finish(alloc, made)?;
    let (linked, roles) = (code.linked, code.roles);
    Ok(Explained {
        base: cut.test.base + 3 * cut.test.distance,
        file: cut.file,
        words: linked.words,
        roles,
    })
}

/// The new code of a test, and the roles of its words. The options are sound.
///
/// Errors: those of `transform`, under its conditions.
pub fn explain(alloc: Global, bytes: &[u8], options: &Options) -> Result<Explained, TransformError>
    requires { AreSoundOptions options.now }
    ensures done { IfOk result (IsExplained bytes.now options.now) }
    ensures refused { IfErr result (HasCause bytes.now options.now) }
    ensures exact { (e : Refusal) → e ≢ TransformError.Memory → HasCause bytes.now options.now e → IsErrorOr result e }
    ensures complete { IsTransformable bytes.now options.now → IsDoneOr result }
{
    explain_made(alloc, bytes, options)
}
