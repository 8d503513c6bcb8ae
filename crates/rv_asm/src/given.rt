//! What a line gives.
ghost use Rattle.std.specs.Prelude.{◌≡◌, ◌<◌, ◌^◌, unwrap_or, []};
ghost use Rattle.rv_asm.specs.Given.{in_code as in_code_of, in_data as in_data_of, alone, label_given, is_defined_before, given_by};
ghost use Rattle.rv_asm.specs.Lines.{label_in as label_in_of};
ghost use Rattle.rv_asm.specs.Named.{label_named};

use crate::error::Fault;
use crate::heads::Head;
use crate::labels::Labels;
use crate::lines::{Line, label_name};
use crate::operands::{raw_word_in, word_of};
use crate::place::Place;
use texts::number;

/// The most code words.
const MAX_CODE: u64 = 16_384;

/// The most data words.
const MAX_DATA: u64 = 131_072;

/// What a line gives.
#[derive(Clone, Copy)]
pub enum Given {
    /// An empty line or `.data`.
    Nothing,
    /// A code word.
    Code(u32),
    /// A data word of 64 bits.
    Data(u64),
    /// A label.
    Label,
}

/// A code word at a place: it stands before `.data`, and there is room for it.
fn in_code(place: Place, word: Result<u32, Fault>) -> Result<Given, Fault>
    ensures { result ≡ in_code_of place word }
{
    if place.in_data {
        return Err(Fault::Unrecognized);
    }
    let word = word?;
    if place.code_words < MAX_CODE {
        Ok(Given::Code(word))
    } else {
        Err(Fault::SectionFull)
    }
}

/// A data word at a place: it stands behind `.data`, and there is room for it.
fn in_data(place: Place, value: Option<u64>) -> Result<Given, Fault>
    ensures { result ≡ in_data_of place value }
{
    if !place.in_data {
        return Err(Fault::Unrecognized);
    }
    let value = value.ok_or(Fault::IllegalOperands)?;
    if place.data_words < MAX_DATA {
        Ok(Given::Data(value))
    } else {
        Err(Fault::SectionFull)
    }
}

/// A label on a line: nothing follows it, and no earlier line defines it.
fn label(labels: &Labels, line_number: u64, word: &[u8], rest: &[u8]) -> Result<Given, Fault>
    ensures { result ≡ alone rest.now (label_given (is_defined_before line_number (label_named labels.now (unwrap_or (label_in_of word.now) [])))) }
{
    if !rest.is_empty() {
        return Err(Fault::IllegalOperands);
    }
    match labels.find(label_name(word)) {
        Some(label) if label.line < line_number => Err(Fault::RedefinedLabel),
        _ => Ok(Given::Label),
    }
}

/// What a line at a place gives, or the first fault on it. Lines are numbered from 0.
#[tactic(auto, unfolding(crate::specs::Given::given_by))]
pub fn give(labels: &Labels, place: Place, line_number: u64, line: &Line) -> Result<Given, Fault>
    requires code { place.code_words < 2 ^ 32 }
    requires words { place.data_words < 2 ^ 32 }
    ensures { result ≡ given_by (label_named labels.now) place line_number line.now.head line.now.word.now line.now.rest.now }
{
    match line.head {
        Head::Blank => Ok(Given::Nothing),
        Head::Instruction(kind) => {
            in_code(place, word_of(labels, place.address(), kind, line.rest))
        }
        Head::Word => in_code(place, raw_word_in(line.rest).ok_or(Fault::IllegalOperands)),
        Head::DataStart if line.rest.is_empty() => Ok(Given::Nothing),
        Head::DataStart => Err(Fault::IllegalOperands),
        Head::DataWord => in_data(place, number(line.rest)),
        Head::Label => label(labels, line_number, line.word, line.rest),
        Head::Unknown => Err(Fault::Unrecognized),
    }
}
