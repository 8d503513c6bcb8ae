//! Operands and words of instructions.
ghost use Rattle.std.specs.Prelude.{◌≡◌, length};
ghost use Rattle.machine.specs.Table.{ins, encode_of};
ghost use Rattle.texts.specs.Read.{digits as digits_of};
ghost use Rattle.rv_asm.specs.Named.{label_named};
ghost use Rattle.rv_asm.specs.Operands.{register_in as register_in_of, immediate_in as immediate_in_of, raw_word_in as raw_word_in_of, registers_from};
ghost use Rattle.rv_asm.specs.Operands.{immediate_from, load_from, store_from, upper_from, none_in as none_in_of, target_in as target_in_of, branch_from};
ghost use Rattle.rv_asm.specs.Operands.{jump_from, operands_in as operands_in_of, upper_imm as upper_imm_of, encoded as encoded_of};
ghost use Rattle.rv_asm.specs.Operands.{assembled_word as word_of_text};
ghost use Rattle.rv_asm.specs.Lines.{pair_in as pair_in_of, triple_in as triple_in_of};

use crate::error::Fault;
use crate::labels::Labels;
use crate::lines::{bracketed_in, is_name, pair_in, triple_in};
use rv_encode::encode;
use rv_isa::{Ins, Kind, Reg};
use rv_text::{Form, form_of};
use texts::{digits, number, register};

/// The operands of an instruction.
#[derive(Clone, Copy)]
pub struct Operands {
    pub rd: Reg,
    pub rs1: Reg,
    pub rs2: Reg,
    /// As it is written, in bytes for addresses.
    pub imm: i128,
}

/// The register x0.
fn zero() -> Reg
    ensures { result ≡ 0 }
{
    Reg::new(0).unwrap()
}

/// A register: `x` and a number from 0 to 31, in decimal without leading zeros.
#[tactic(auto, unfolding(crate::specs::Operands::register_in))]
fn register_in(text: &[u8]) -> Option<Reg>
    ensures { result ≡ register_in_of text.now }
{
    match text {
        [b'x', b'0'] => Some(zero()),
        [b'x', rest @ ..] => register(rest),
        _ => None,
    }
}

/// An immediate: a number, with `-` in front or without.
#[tactic(auto, unfolding(crate::specs::Operands::immediate_in))]
fn immediate_in(text: &[u8]) -> Option<i128>
    ensures { result ≡ immediate_in_of text.now }
{
    match text {
        [] => None,
        [b'-', rest @ ..] => Some(-i128::from(number(rest)?)),
        _ => Some(i128::from(number(text)?)),
    }
}

/// The number of 8 hexadecimal digits.
fn word_of_digits(text: &[u8]) -> Option<u32>
    requires { length text.now ≡ 8 }
    ensures { result ≡ digits_of 16 8 text.now }
{
    let word = digits(16, 8, text)?;
    Some(word as u32)
}

/// A word: `0x` and 8 hexadecimal digits.
#[tactic(auto, unfolding(crate::specs::Operands::raw_word_in))]
pub fn raw_word_in(text: &[u8]) -> Option<u32>
    ensures { result ≡ raw_word_in_of text.now }
{
    match text {
        [b'0', b'x', rest @ ..] if rest.len() == 8 => word_of_digits(rest),
        _ => None,
    }
}

/// These operands.
fn taken(d: Reg, a: Reg, b: Reg, imm: i128) -> Operands
    ensures { result ≡ record { rd = d; rs1 = a; rs2 = b; imm = imm } }
{
    Operands {
        rd: d,
        rs1: a,
        rs2: b,
        imm,
    }
}

fn registers(text: &[u8]) -> Option<Operands>
    ensures { result ≡ registers_from (triple_in_of text.now) }
{
    let (rd, rs1, rs2) = triple_in(text)?;
    Some(taken(register_in(rd)?, register_in(rs1)?, register_in(rs2)?, 0))
}

fn immediate(text: &[u8]) -> Option<Operands>
    ensures { result ≡ immediate_from (triple_in_of text.now) }
{
    let (rd, rs1, imm) = triple_in(text)?;
    Some(taken(
        register_in(rd)?,
        register_in(rs1)?,
        zero(),
        immediate_in(imm)?,
    ))
}

fn load(text: &[u8]) -> Option<Operands>
    ensures { result ≡ load_from (pair_in_of text.now) }
{
    let (rd, place) = pair_in(text)?;
    let (offset, base) = bracketed_in(place)?;
    Some(taken(
        register_in(rd)?,
        register_in(base)?,
        zero(),
        immediate_in(offset)?,
    ))
}

fn store(text: &[u8]) -> Option<Operands>
    ensures { result ≡ store_from (pair_in_of text.now) }
{
    let (rs2, place) = pair_in(text)?;
    let (offset, base) = bracketed_in(place)?;
    Some(taken(
        zero(),
        register_in(base)?,
        register_in(rs2)?,
        immediate_in(offset)?,
    ))
}

fn upper(text: &[u8]) -> Option<Operands>
    ensures { result ≡ upper_from (pair_in_of text.now) }
{
    let (rd, imm) = pair_in(text)?;
    Some(taken(register_in(rd)?, zero(), zero(), immediate_in(imm)?))
}

fn none(text: &[u8]) -> Option<Operands>
    ensures { result ≡ none_in_of text.now }
{
    text.is_empty().then_some(taken(zero(), zero(), zero(), 0))
}

/// The last operand of a branch or a jump at an address: an immediate, or the distance to a label, in bytes.
#[tactic(auto, unfolding(crate::specs::Operands::target_in))]
fn target_in(labels: &Labels, at: u64, text: &[u8]) -> Result<i128, Fault>
    ensures { result ≡ target_in_of (label_named labels.now) at text.now }
{
    if let Some(imm) = immediate_in(text) {
        return Ok(imm);
    }
    if !is_name(text) {
        return Err(Fault::IllegalOperands);
    }
    let label = labels.find(text).ok_or(Fault::UndefinedLabel)?;
    Ok(i128::from(label.address) - i128::from(at))
}

fn branch(labels: &Labels, at: u64, text: &[u8]) -> Result<Operands, Fault>
    ensures { result ≡ branch_from (label_named labels.now) at (triple_in_of text.now) }
{
    let (rs1, rs2, target) = triple_in(text).ok_or(Fault::IllegalOperands)?;
    let rs1 = register_in(rs1).ok_or(Fault::IllegalOperands)?;
    let rs2 = register_in(rs2).ok_or(Fault::IllegalOperands)?;
    let imm = target_in(labels, at, target)?;
    Ok(taken(zero(), rs1, rs2, imm))
}

fn jump(labels: &Labels, at: u64, text: &[u8]) -> Result<Operands, Fault>
    ensures { result ≡ jump_from (label_named labels.now) at (pair_in_of text.now) }
{
    let (rd, target) = pair_in(text).ok_or(Fault::IllegalOperands)?;
    let rd = register_in(rd).ok_or(Fault::IllegalOperands)?;
    let imm = target_in(labels, at, target)?;
    Ok(taken(rd, zero(), zero(), imm))
}

/// The operands of an instruction at an address.
#[tactic(auto, unfolding(crate::specs::Operands::operands_in))]
fn operands_in(labels: &Labels, at: u64, form: Form, text: &[u8]) -> Result<Operands, Fault>
    ensures { result ≡ operands_in_of (label_named labels.now) at form text.now }
{
    match form {
        Form::Registers => registers(text).ok_or(Fault::IllegalOperands),
        Form::Immediate => immediate(text).ok_or(Fault::IllegalOperands),
        Form::Load => load(text).ok_or(Fault::IllegalOperands),
        Form::Store => store(text).ok_or(Fault::IllegalOperands),
        Form::Branch => branch(labels, at, text),
        Form::Upper => upper(text).ok_or(Fault::IllegalOperands),
        Form::Jump => jump(labels, at, text),
        Form::Bare => none(text).ok_or(Fault::IllegalOperands),
    }
}

/// The immediate that is encoded, where the upper 20 bits are written.
fn upper_imm(imm: i128) -> Option<i128>
    ensures { result ≡ upper_imm_of imm }
{
    if imm < 0 || imm >= 1 << 20 {
        None
    } else if imm < 1 << 19 {
        Some(imm * 4096)
    } else {
        Some((imm - (1 << 20)) * 4096)
    }
}

/// The word of an instruction with these registers and an immediate in bytes.
fn word_with(kind: Kind, operands: &Operands, imm: i128) -> Option<u32>
    ensures { result ≡ encode_of (ins kind operands.now.rd operands.now.rs1 operands.now.rs2 imm) }
{
    match i64::try_from(imm) {
        Ok(imm) => encode(&Ins {
            kind,
            rd: operands.rd,
            rs1: operands.rs1,
            rs2: operands.rs2,
            imm,
        }),
        Err(_) => None,
    }
}

/// The word of an instruction with these operands, None where the immediate is out of its range or off its grain.
#[tactic(auto, unfolding(crate::specs::Operands::encoded))]
fn encoded(kind: Kind, operands: &Operands) -> Option<u32>
    ensures { result ≡ encoded_of kind operands.now }
{
    match form_of(kind) {
        Form::Upper => word_with(kind, operands, upper_imm(operands.imm)?),
        _ => word_with(kind, operands, operands.imm),
    }
}

/// The word of an instruction at an address, or the first fault of its operands.
#[tactic(auto, unfolding(crate::specs::Operands::assembled_word))]
pub fn word_of(labels: &Labels, at: u64, kind: Kind, text: &[u8]) -> Result<u32, Fault>
    ensures { result ≡ word_of_text (label_named labels.now) at kind text.now }
{
    let operands = operands_in(labels, at, form_of(kind), text)?;
    encoded(kind, &operands).ok_or(Fault::OutOfRange)
}
