//! Instructions: what each reads, writes and does.
ghost use Rattle.std.specs.Prelude.{◌≡◌};
ghost use Rattle.rv_isa.specs.Kind.{class_of, writes_rd, reads_rs1, reads_rs2, has_immediate};
ghost use Rattle.rv_isa.specs.Ins.{nop, named_register, writes, reads};

use crate::{Class, Kind, Reg};

/// An instruction. A field that the kind's format does not have is 0.
#[derive(Clone, Copy, Debug, PartialEq, Eq)]
pub struct Ins {
    /// The row of the instruction table.
    pub kind: Kind,
    /// The destination register.
    pub rd: Reg,
    /// The first source register.
    pub rs1: Reg,
    /// The second source register.
    pub rs2: Reg,
    /// The immediate, in the unit of bytes where it is an offset.
    pub imm: i64,
}

/// The register where the instruction has the field, None for x0.
fn named(has_field: bool, r: Reg) -> Option<Reg>
    ensures { result ≡ named_register has_field r }
{
    if has_field && r.number() != 0 {
        Some(r)
    } else {
        None
    }
}

impl Ins {
    /// `addi x0, x0, 0`, the instruction that changes nothing but the pc (RISC-V unprivileged
    /// manual, "NOP Instruction").
    pub fn nop() -> Ins
        ensures { result ≡ nop }
    {
        let zero = Reg::new(0).unwrap();
        Ins {
            kind: Kind::Addi,
            rd: zero,
            rs1: zero,
            rs2: zero,
            imm: 0,
        }
    }

    /// The register that the instruction writes. It is None where that is x0, where the format has
    /// no rd, and for FENCE.
    pub fn writes(&self) -> Option<Reg>
        ensures { result ≡ writes self.now }
    {
        named(self.writes_rd(), self.rd)
    }

    /// The registers that the instruction reads: rs1 and rs2. Each is None where it is x0, where
    /// the format does not have it, and for FENCE.
    pub fn reads(&self) -> (Option<Reg>, Option<Reg>)
        ensures { result ≡ reads self.now }
    {
        (
            named(self.reads_rs1(), self.rs1),
            named(self.reads_rs2(), self.rs2),
        )
    }

    /// What the instruction does, by its kind.
    pub fn class(&self) -> Class
        ensures { result ≡ class_of self.now.kind }
    {
        match self.kind {
            Kind::Illegal => Class::Illegal,
            Kind::Jal => Class::Jump,
            Kind::Jalr => Class::JumpReg,
            Kind::Beq | Kind::Bne | Kind::Blt | Kind::Bge | Kind::Bltu | Kind::Bgeu =>
                Class::Branch,
            Kind::Lb | Kind::Lh | Kind::Lw | Kind::Ld | Kind::Lbu | Kind::Lhu | Kind::Lwu => {
                Class::Load
            }
            Kind::Sb | Kind::Sh | Kind::Sw | Kind::Sd => Class::Store,
            Kind::Fence => Class::Fence,
            Kind::Ecall => Class::End,
            Kind::Ebreak => Class::Break,
            _ => Class::Compute,
        }
    }

    fn writes_rd(&self) -> bool
        ensures { result ≡ writes_rd (class_of self.now.kind) }
    {
        match self.class() {
            Class::Compute | Class::Load | Class::Jump | Class::JumpReg => true,
            _ => false,
        }
    }

    fn reads_rs1(&self) -> bool
        ensures { result ≡ reads_rs1 (class_of self.now.kind) self.now.kind }
    {
        match self.class() {
            Class::Compute => !matches!(self.kind, Kind::Lui | Kind::Auipc),
            Class::Load | Class::Store | Class::Branch | Class::JumpReg => true,
            _ => false,
        }
    }

    fn reads_rs2(&self) -> bool
        ensures { result ≡ reads_rs2 (class_of self.now.kind) self.now.kind }
    {
        match self.class() {
            Class::Compute => !self.has_immediate(),
            Class::Store | Class::Branch => true,
            _ => false,
        }
    }

    /// Whether a computing instruction has an immediate in the place of rs2. False for the other
    /// classes.
    pub fn has_immediate(&self) -> bool
        ensures { result ≡ has_immediate self.now.kind }
    {
        match self.kind {
            Kind::Lui | Kind::Auipc => true,
            Kind::Addi | Kind::Slti | Kind::Sltiu | Kind::Xori | Kind::Ori | Kind::Andi => true,
            Kind::Slli | Kind::Srli | Kind::Srai => true,
            Kind::Addiw | Kind::Slliw | Kind::Srliw | Kind::Sraiw => true,
            _ => false,
        }
    }
}
