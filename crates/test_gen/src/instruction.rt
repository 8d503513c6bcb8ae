//! Instructions.
ghost use Rattle.std.specs.Prelude.{◌≡◌, ◌<◌};
ghost use Rattle.machine.specs.Table.{ins as ins_of};

use rv_isa::{Ins, Kind, register};

/// An instruction, by its kind, the numbers of its registers, and its immediate.
pub fn instruction(kind: Kind, rd: u8, rs1: u8, rs2: u8, imm: i64) -> Ins
    requires rd { rd < 32 }
    requires rs1 { rs1 < 32 }
    requires rs2 { rs2 < 32 }
    ensures { result ≡ ins_of kind rd rs1 rs2 imm }
{
    Ins {
        kind,
        rd: register(rd),
        rs1: register(rs1),
        rs2: register(rs2),
        imm,
    }
}
