//! The text of a word.
ghost use Rattle.std.specs.Prelude.{◌≡◌, Some, IfOk};
ghost use Rattle.rv_text.specs.Text.{register_text, operands_text, text_of};

use crate::forms::{Form, form_of};
use crate::hex::Word;
use crate::names::name_of;
use elf_types::Bytes;
use rv_decode::decode;
use rv_isa::{Field, Ins, Reg};
use std::alloc::{AllocError, Global};
use std::fmt;

/// A register, printed as `x5`.
#[derive(Clone, Copy)]
struct Register(Reg);

impl fmt::Display for Register {
    ghost output = { λ r. Some (register_text r.0) };

    fn fmt<W: fmt::Write>(&self, f: &mut fmt::Formatter<W>) -> fmt::Result {
        write!(f, "x{}", self.0.number())
    }
}

/// The operands of an instruction and its word, printed behind a space.
#[derive(Clone, Copy)]
struct Operands(Ins, u32);

impl fmt::Display for Operands {
    ghost use Rattle.rv_text.specs.Forms.{text_form as form_of_kind};

    ghost output = { λ o. Some (operands_text (form_of_kind o.0.kind) o.0 o.1) };

    #[tactic(auto, unfolding(crate::specs::Text::operands_text))]
    fn fmt<W: fmt::Write>(&self, f: &mut fmt::Formatter<W>) -> fmt::Result {
        let ins = self.0;
        let (rd, rs1, rs2) = (Register(ins.rd), Register(ins.rs1), Register(ins.rs2));
        let imm = ins.imm;
        match form_of(ins.kind) {
            Form::Registers => write!(f, " {rd}, {rs1}, {rs2}"),
            Form::Immediate => write!(f, " {rd}, {rs1}, {imm}"),
            Form::Load => write!(f, " {rd}, {imm}({rs1})"),
            Form::Store => write!(f, " {rs2}, {imm}({rs1})"),
            Form::Branch => write!(f, " {rs1}, {rs2}, {imm}"),
            Form::Upper => write!(f, " {rd}, 0x{:05x}", Field::<12, 20>::get(self.1)),
            Form::Jump => write!(f, " {rd}, {imm}"),
            Form::Bare => Ok(()),
        }
    }
}

/// The text of a word, without a newline: the name of its instruction and the operands, `zero` for the zero word, and
/// `word 0x` and 8 hexadecimal digits for a word that is not an instruction.
#[tactic(auto, unfolding(crate::specs::Text::text_of))]
pub fn text_of(alloc: Global, word: u32) -> Result<Bytes, AllocError>
    ensures { IfOk result (λ text. text ≡ text_of word) }
{
    let Some(ins) = decode(word) else {
        let text = format!(in alloc; "word {}", Word(word))?;
        return Ok(Bytes::of(text.into_bytes()));
    };
    let text = format!(in alloc; "{}{}", name_of(ins.kind), Operands(ins, word))?;
    Ok(Bytes::of(text.into_bytes()))
}
