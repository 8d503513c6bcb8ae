//! The line of a code word.
ghost use Rattle.std.specs.Prelude.{◌≡◌, ◌++◌, OnOk};
ghost use Rattle.listing.specs.Listing.{line};

use rv_text::{Address, Word, text_of};
use std::alloc::{AllocError, Global};

/// Appends the line of a word: its text, its address and the word.
#[tactic(auto, unfolding(crate::specs::Listing::line))]
pub fn push_line(
    alloc: Global,
    text: &mut Vec<u8>,
    address: u64,
    word: u32,
) -> Result<(), AllocError>
    ensures { OnOk result (text.new.items ≡ text.old.items ++ line address word) }
{
    let instruction = text_of(alloc, word)?;
    let place = format!(in alloc; " # {} {}\n", Address(address), Word(word))?;
    text.extend_from_slice(instruction.as_slice())?;
    text.extend_from_slice(place.as_bytes())?;
    Ok(())
}
