//! How operands are written.
ghost use Rattle.std.specs.Prelude.{◌≡◌};
ghost use Rattle.rv_text.specs.Forms.{text_form};

use rv_isa::Kind;

/// How the operands of an instruction are written. An immediate is a signed decimal number where nothing else is said.
#[derive(Clone, Copy, Debug, PartialEq, Eq)]
pub enum Form {
    /// `xd, xs1, xs2`
    Registers,
    /// `xd, xs1, imm`
    Immediate,
    /// `xd, imm(xs1)`: loads and JALR
    Load,
    /// `xs2, imm(xs1)`
    Store,
    /// `xs1, xs2, imm`
    Branch,
    /// `xd, imm`, with the upper 20 bits as `0x` and 5 digits
    Upper,
    /// `xd, imm`
    Jump,
    /// No operands.
    Bare,
}

/// How the operands of instructions of a kind are written.
#[tactic(auto, unfolding(crate::specs::Forms::text_form))]
pub fn form_of(kind: Kind) -> Form
    ensures { result ≡ text_form kind }
{
    match kind {
        Kind::Illegal | Kind::Ecall | Kind::Ebreak => Form::Bare,
        Kind::Lui | Kind::Auipc => Form::Upper,
        Kind::Jal => Form::Jump,
        Kind::Beq | Kind::Bne | Kind::Blt | Kind::Bge | Kind::Bltu | Kind::Bgeu => Form::Branch,
        Kind::Lb | Kind::Lh | Kind::Lw | Kind::Ld | Kind::Lbu | Kind::Lhu | Kind::Lwu => Form::Load,
        Kind::Jalr => Form::Load,
        Kind::Sb | Kind::Sh | Kind::Sw | Kind::Sd => Form::Store,
        Kind::Addi | Kind::Slti | Kind::Sltiu | Kind::Xori | Kind::Ori | Kind::Andi =>
            Form::Immediate,
        Kind::Addiw | Kind::Fence => Form::Immediate,
        Kind::Slli | Kind::Srli | Kind::Srai | Kind::Slliw | Kind::Srliw | Kind::Sraiw =>
            Form::Immediate,
        _ => Form::Registers,
    }
}
