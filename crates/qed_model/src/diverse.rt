//! The words of mirror parts of other kinds, before their instruction is known.

use rv_isa::Kind;

/// A register of a mirror part: x0, the pair of rd, of rs1 or of rs2, or a temporary.
#[derive(Clone, Copy, Debug)]
pub enum Place {
    X0,
    RD,
    RS1,
    RS2,
    X30,
    X31,
}

/// A word of a mirror part.
#[derive(Clone, Copy, Debug)]
pub struct Part {
    pub kind: Kind,
    /// Where it writes.
    pub to: Place,
    /// What it reads: x0 if its format has no such field.
    pub left: Place,
    pub right: Place,
    pub imm: i64,
}
