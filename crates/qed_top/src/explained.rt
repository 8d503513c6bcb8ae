//! What `explain` answers.
ghost use Rattle.std.specs.Prelude.{◌≡◌, ◌<◌, ◌+◌, ◌*◌, ◌^◌, IfOk, IfSome, length};
ghost use Rattle.qed_model.specs.Weave.SoundOptions.{AreSoundOptions};
ghost use Rattle.listing.specs.Roles.{rows_bytes};
ghost use Rattle.qed_top.specs.Explain.{Explains, TellsRoles, TellsWord, word_number as word_number_of};

use crate::answer::{Answer, plain};
use crate::refusal::refused;
use crate::status::Status;
use listing::{role_at, role_text, word_text};
use qed_model::Options;
use report::no_word_text;
use std::alloc::{AllocError, Global};
use transform::{Explained, explain};

/// The number of the word at an address, among `count` words from `base` on.
fn word_number(base: u64, count: usize, at: u64) -> Option<usize>
    ensures value { result ≡ word_number_of base count at }
    ensures place { IfSome result (λ number. at ≡ base + 4 * number) }
    ensures within { IfSome result (λ number. number < count) }
{
    let offset = at.checked_sub(base)?;
    let number = (offset / 4) as usize;
    (offset % 4 == 0 && number < count).then_some(number)
}

/// What `explain` answers about the word at an address.
fn tell_word(alloc: Global, code: &Explained, at: u64) -> Result<Answer, AllocError>
    requires { rows_bytes code.now.roles.items ≡ 4 * length code.now.words.items }
    ensures { IfOk result (TellsWord code.now at) }
{
    let words = code.words.as_slice();
    match word_number(code.base, words.len(), at) {
        Some(number) => {
            let role = role_at(code.roles.as_slice(), at - code.base).unwrap();
            let symbols = code.file.symbols.as_slice();
            let text = word_text(alloc, role, at, words[number], symbols)?;
            Ok(plain(Status::Done, text))
        }
        None => {
            let text = no_word_text(alloc, at)?;
            Ok(plain(Status::Refused, text))
        }
    }
}

/// What `explain` answers about new code.
fn tell(alloc: Global, code: &Explained, at: Option<u64>) -> Result<Answer, AllocError>
    requires fits { code.now.base + rows_bytes code.now.roles.items < 2 ^ 64 }
    requires whole { rows_bytes code.now.roles.items ≡ 4 * length code.now.words.items }
    ensures { IfOk result (TellsRoles code.now at) }
{
    match at {
        None => {
            let (roles, words) = (code.roles.as_slice(), code.words.as_slice());
            let text = role_text(alloc, roles, words, code.base)?;
            Ok(plain(Status::Done, text))
        }
        Some(at) => Ok(tell_word(alloc, code, at)?),
    }
}

/// What `explain` answers over the bytes of its input: about the word at an address, or about all words.
pub fn answer_explain(
    alloc: Global,
    bytes: &[u8],
    options: &Options,
    at: Option<u64>,
) -> Result<Answer, AllocError>
    requires { AreSoundOptions options.now }
    ensures { IfOk result (Explains bytes.now options.now at) }
{
    match explain(alloc, bytes, options) {
        Ok(code) => Ok(tell(alloc, &code, at)?),
        Err(error) => Ok(refused(alloc, &error)?),
    }
}
