//! First words.
ghost use Rattle.std.specs.Prelude.{◌≡◌};
ghost use Rattle.rv_asm.specs.Heads.{kind_named as kind_named_of, head_of};

use crate::lines::label_in;
use rv_isa::Kind;
use rv_isa::Kind::*;
use rv_text::name_of;

/// What the first word of a line says.
#[derive(Clone, Copy)]
pub enum Head {
    /// There is none.
    Blank,
    /// An instruction; `zero` is that of the zero word.
    Instruction(Kind),
    /// `word`
    Word,
    /// `.data`
    DataStart,
    /// `.word64`
    DataWord,
    /// A label, `NAME:`.
    Label,
    /// Anything else.
    Unknown,
}

/// All kinds.
const KINDS: [Kind; 66] = [
    Illegal, Ecall, Ebreak, Lui, Auipc, Jal, Jalr, Fence, Beq, Bne, Blt, Bge, Bltu, Bgeu, Lb, Lh,
    Lw, Ld, Lbu, Lhu, Lwu, Sb, Sh, Sw, Sd, Addi, Slti, Sltiu, Xori, Ori, Andi, Addiw, Slli, Srli,
    Srai, Slliw, Srliw, Sraiw, Add, Sub, Sll, Slt, Sltu, Xor, Srl, Sra, Or, And, Addw, Subw, Sllw,
    Srlw, Sraw, Mul, Mulh, Mulhsu, Mulhu, Div, Divu, Rem, Remu, Mulw, Divw, Divuw, Remw, Remuw,
];

/// The kind of instruction of a name.
#[tactic(auto, unfolding(crate::specs::Heads::kind_named))]
fn kind_named(word: &[u8]) -> Option<Kind>
    ensures { result ≡ kind_named_of word.now }
{
    let mut kinds = KINDS.iter().copied();
    kinds.find(|kind| name_of(*kind).as_bytes() == word)
}

/// What a first word says.
#[tactic(auto, unfolding(crate::specs::Heads::head_of))]
pub fn recognize(word: &[u8]) -> Head
    ensures { result ≡ head_of word.now }
{
    if word.is_empty() {
        return Head::Blank;
    }
    if label_in(word).is_some() {
        return Head::Label;
    }
    if word == "word".as_bytes() {
        return Head::Word;
    }
    if word == ".data".as_bytes() {
        return Head::DataStart;
    }
    if word == ".word64".as_bytes() {
        return Head::DataWord;
    }
    match kind_named(word) {
        Some(kind) => Head::Instruction(kind),
        None => Head::Unknown,
    }
}
