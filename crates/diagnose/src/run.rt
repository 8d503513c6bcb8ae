//! The text on standard error about a run.
ghost use Rattle.std.specs.Prelude.{◌≡◌};

use crate::answers::{address_behind, read};
use crate::places::{is_output, is_word_mapped, push_place, word_at};
use crate::sentences::sentence_of;
use elf_types::ElfFile;
use listing::Found;
use qed_io::Shelf;
use qed_model::{Change, Place};
use qed_words::Order;
use rv_decode::decode;
use rv_isa::profile::{LAST_ORIGINAL, PAIR_DISTANCE, SIGNATURE, SPARE, TEMPORARY};
use rv_isa::{Class, Ins, Kind, Reg};
use std::alloc::{AllocError, Global};
use texts::digits;

/// The number of steps in the line about a run.
fn steps_of(line: &str) -> Option<u64> {
    let (_, rest) = line.split_once(" after ")?;
    let (steps, _) = rest.split_once(" ")?;
    digits(10, 20, steps.as_bytes())
}

/// Appends a warning if a change was not made, or if its word is not mapped whole.
fn push_warning(
    alloc: Global,
    text: &mut String,
    file: &ElfFile,
    made: u64,
    change: Change,
) -> Result<(), AllocError> {
    let step = change.step;
    if step >= made {
        text.push_str(&format!(in alloc; "qed: the fault after step {step} was not made\n")?)?;
        return Ok(());
    }
    if let Place::Word(address) = change.place {
        if !is_word_mapped(file, address) {
            text.push_str(&format!(in alloc;
                "qed: the fault at 0x{address:x} was not made whole: nothing is mapped there\n"
            )?)?;
        }
    }
    Ok(())
}

/// The instruction `bytes` bytes before an address.
fn before(file: &ElfFile, address: u64, bytes: u64) -> Option<Ins> {
    decode(word_at(file, address.wrapping_sub(bytes))?)
}

/// Whether a register is a pair, or x0.
fn is_pair(number: u8) -> bool {
    number == 0 || (number > PAIR_DISTANCE && number <= PAIR_DISTANCE + LAST_ORIGINAL)
}

/// What the comparison in front of an output's EBREAK found if it fires. `explain` finds this by
/// the role of the word; here only the words are known.
fn found_by_words(file: &ElfFile, ebreak: u64, one: Reg, other: Reg) -> Option<Found> {
    let nearest = before(file, ebreak, 8)?;
    match (one.number(), other.number()) {
        (SIGNATURE, TEMPORARY) => match nearest.kind {
            Kind::Andi => Some(Found::Ways),
            // The address that an AUIPC and this ADDI make.
            Kind::Addi => {
                let distance = before(file, ebreak, 12)?.imm.wrapping_add(nearest.imm);
                Some(Found::Signature(ebreak.wrapping_sub(12).wrapping_add_signed(distance)))
            }
            _ => Some(Found::Caller),
        },
        (TEMPORARY, SPARE) => match nearest.kind {
            // A look-up of the check begins with the signature, one of a jump with its target.
            Kind::Lui if before(file, ebreak, 40)?.rs1.number() == SIGNATURE => Some(
                Found::LookUps,
            ),
            Kind::Lui => Some(Found::Ways),
            _ => Some(Found::Word),
        },
        // The base of a store, with its pair in x31.
        (base, SPARE) if base <= LAST_ORIGINAL => Some(Found::pair(one)),
        (one, other) => Some(Found::Differ(one, other)),
    }
}

/// What the check in front of an EBREAK found if it fires; None if no check stands there. In a file
/// that is not an output, each BEQ is a check.
fn found(file: &ElfFile, ebreak: u64, check: &Ins) -> Option<Found> {
    let (one, other) = (check.rs1, check.rs2);
    if is_output(file) && is_pair(one.number()) && is_pair(other.number()) {
        return (check.class() == Class::Branch).then_some(Found::Ways);
    }
    if check.kind != Kind::Beq {
        return None;
    }
    if is_output(file) {
        return found_by_words(file, ebreak, one, other);
    }
    Some(Found::Differ(one.number(), other.number()))
}

/// Whether a branch is taken on two numbers.
fn is_taken(kind: Kind, one: u64, other: u64) -> bool {
    match kind {
        Kind::Beq => one == other,
        Kind::Bne => one != other,
        Kind::Blt => one.cast_signed() < other.cast_signed(),
        Kind::Bge => one.cast_signed() >= other.cast_signed(),
        Kind::Bltu => one < other,
        _ => one >= other,
    }
}

/// The value of a register, as the lines about a run print it.
fn printed_value(printed: &str, number: u8) -> Option<u64> {
    if number == 0 {
        return Some(0);
    }
    for line in printed.lines() {
        let (name, value) = line.split_once(" 0x").unwrap_or(("", ""));
        if let Some(rest) = name.strip_prefix("x") {
            if digits(10, 2, rest.as_bytes()) == Some(u64::from(number)) {
                return digits(16, 16, value.as_bytes());
            }
        }
    }
    None
}

/// What differed when a check fired, or that nothing did; empty if the text does not show the registers.
fn fired(alloc: Global, file: &ElfFile, printed: &str) -> Result<String, AllocError> {
    let line = printed.lines().next().unwrap_or("");
    let ebreak = address_behind(line, " at 0x").unwrap_or(0);
    let Some(check) = before(file, ebreak, 4) else {
        return Ok(String::new(alloc));
    };
    let (first, second) = (check.rs1.number(), check.rs2.number());
    let values = (
        printed_value(printed, first),
        printed_value(printed, second),
    );
    let (Some(found), (Some(one), Some(other))) = (found(file, ebreak, &check), values) else {
        return Ok(String::new(alloc));
    };
    if is_taken(check.kind, one, other) {
        return passed(alloc, check.kind, first, second);
    }
    format!(in alloc; "qed: a check fired: {found}\n")
}

/// That the registers pass the check in front of an EBREAK that the run reached.
fn passed(alloc: Global, kind: Kind, first: u8, second: u8) -> Result<String, AllocError> {
    if kind == Kind::Beq {
        return format!(in alloc;
            "qed: x{first} and x{second} are equal at the ebreak behind their check: a jump may have led there\n"
        );
    }
    format!(in alloc;
        "qed: x{first} and x{second} pass the check before the ebreak: a jump may have led there\n"
    )
}

/// What mends the end of a run, by the first two words of its line, and the place.
fn ending(alloc: Global, file: &ElfFile, printed: &str) -> Result<String, AllocError> {
    let line = printed.lines().next().unwrap_or("");
    if line.starts_with("fired") {
        return fired(alloc, file, printed);
    }
    let mut text = String::new(alloc);
    let (kind, rest) = line.split_once(" ").unwrap_or((line, ""));
    let (cause, _) = rest.split_once(" ").unwrap_or((rest, ""));
    let Some(sentence) = sentence_of(kind).or(sentence_of(cause)) else {
        return Ok(text);
    };
    text.push_str(&format!(in alloc; "qed: {sentence}\n")?)?;
    if let Some(address) = address_behind(line, " at 0x") {
        push_place(alloc, &mut text, file, address)?;
        text.push_str("\n")?;
    }
    Ok(text)
}

/// If a check fired: what differed. If a run trapped or did not end: why, what mends it, and the
/// place. Then the changes that were not made.
pub(crate) fn of_run<S: Shelf>(
    alloc: Global,
    asked: &Order,
    printed: &str,
    shelf: &mut S,
) -> Result<String, AllocError>
    ensures { S.files shelf.new ≡ S.files shelf.old }
{
    let line = printed.lines().next().unwrap_or("");
    let (Order::Run(name, _, changes, _, _), Some(steps)) = (asked, steps_of(line)) else {
        return Ok(String::new(alloc));
    };
    if line.starts_with("ended") && changes.as_slice().is_empty() {
        return Ok(String::new(alloc));
    }
    let Some(file) = read(alloc, name.as_str(), shelf)? else {
        return Ok(String::new(alloc));
    };
    let mut text = ending(alloc, &file, printed)?;
    // A run that goes on has also made the changes behind its last step.
    let made = steps.saturating_add(u64::from(line.starts_with("going")));
    for change in changes.as_slice() {
        push_warning(alloc, &mut text, &file, made, *change)?;
    }
    Ok(text)
}
