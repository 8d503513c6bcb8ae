//! The rows of the instruction listings, each at its places (RISC-V unprivileged manual,
//! "RV32/64G Instruction Set Listings").

use crate::format::Format;
use rv_isa::Kind;

/// A row: a word whose bits under the mask are the fixed bits is an instruction of the kind.
#[derive(Clone, Copy)]
pub struct Row {
    /// The bits that are fixed in the format.
    pub mask: u32,
    /// What these bits are.
    pub fixed: u32,
    /// The kind of the words that have them.
    pub kind: Kind,
    /// The format of the other bits.
    pub format: Format,
}

// A row: its kind, format, mask and fixed bits.
macro_rules! row {
    ($kind:ident $format:ident $mask:literal $fixed:literal) => {
        Row {
            mask: $mask,
            fixed: $fixed,
            kind: Kind::$kind,
            format: Format::$format,
        }
    };
}

/// The rows that a word may fit: by its bits 2 to 6, and then by its bits 12 to 14.
pub type Table = [[&'static [Row]; 8]; 32];

/// The rows of all kinds. A row whose mask does not have bits 12 to 14 stands at all eight places.
pub static TABLE: Table = [
    LOADS,
    NONE,
    NONE,
    FENCES,
    IMMEDIATES,
    AUIPC,
    WORD_IMMEDIATES,
    NONE,
    STORES,
    NONE,
    NONE,
    NONE,
    REGISTERS,
    LUI,
    WORD_REGISTERS,
    NONE,
    NONE,
    NONE,
    NONE,
    NONE,
    NONE,
    NONE,
    NONE,
    NONE,
    BRANCHES,
    JALR,
    NONE,
    JAL,
    SYSTEM,
    NONE,
    NONE,
    NONE,
];

/// No rows.
const NONE: [&[Row]; 8] = [&[]; 8];

/// The loads, and the zero word.
const LOADS: [&[Row]; 8] = [
    &[
        row!(Lb Immediate 0x0000_707f 0x0000_0003),
        row!(Illegal Bare 0xffff_ffff 0x0000_0000),
    ],
    &[row!(Lh Immediate 0x0000_707f 0x0000_1003)],
    &[row!(Lw Immediate 0x0000_707f 0x0000_2003)],
    &[row!(Ld Immediate 0x0000_707f 0x0000_3003)],
    &[row!(Lbu Immediate 0x0000_707f 0x0000_4003)],
    &[row!(Lhu Immediate 0x0000_707f 0x0000_5003)],
    &[row!(Lwu Immediate 0x0000_707f 0x0000_6003)],
    &[],
];

/// FENCE.
const FENCES: [&[Row]; 8] = [
    &[row!(Fence Immediate 0x0000_707f 0x0000_000f)],
    &[],
    &[],
    &[],
    &[],
    &[],
    &[],
    &[],
];

/// The computations with an immediate.
const IMMEDIATES: [&[Row]; 8] = [
    &[row!(Addi Immediate 0x0000_707f 0x0000_0013)],
    &[row!(Slli Shift 0xfc00_707f 0x0000_1013)],
    &[row!(Slti Immediate 0x0000_707f 0x0000_2013)],
    &[row!(Sltiu Immediate 0x0000_707f 0x0000_3013)],
    &[row!(Xori Immediate 0x0000_707f 0x0000_4013)],
    &[
        row!(Srli Shift 0xfc00_707f 0x0000_5013),
        row!(Srai Shift 0xfc00_707f 0x4000_5013),
    ],
    &[row!(Ori Immediate 0x0000_707f 0x0000_6013)],
    &[row!(Andi Immediate 0x0000_707f 0x0000_7013)],
];

/// AUIPC.
const AUIPC: [&[Row]; 8] = [&[row!(Auipc Upper 0x0000_007f 0x0000_0017)]; 8];

/// The computations with an immediate on 32 bits.
const WORD_IMMEDIATES: [&[Row]; 8] = [
    &[row!(Addiw Immediate 0x0000_707f 0x0000_001b)],
    &[row!(Slliw WordShift 0xfe00_707f 0x0000_101b)],
    &[],
    &[],
    &[],
    &[
        row!(Srliw WordShift 0xfe00_707f 0x0000_501b),
        row!(Sraiw WordShift 0xfe00_707f 0x4000_501b),
    ],
    &[],
    &[],
];

/// The stores.
const STORES: [&[Row]; 8] = [
    &[row!(Sb Store 0x0000_707f 0x0000_0023)],
    &[row!(Sh Store 0x0000_707f 0x0000_1023)],
    &[row!(Sw Store 0x0000_707f 0x0000_2023)],
    &[row!(Sd Store 0x0000_707f 0x0000_3023)],
    &[],
    &[],
    &[],
    &[],
];

/// The computations with two registers.
const REGISTERS: [&[Row]; 8] = [
    &[
        row!(Add Register 0xfe00_707f 0x0000_0033),
        row!(Sub Register 0xfe00_707f 0x4000_0033),
        row!(Mul Register 0xfe00_707f 0x0200_0033),
    ],
    &[
        row!(Sll Register 0xfe00_707f 0x0000_1033),
        row!(Mulh Register 0xfe00_707f 0x0200_1033),
    ],
    &[
        row!(Slt Register 0xfe00_707f 0x0000_2033),
        row!(Mulhsu Register 0xfe00_707f 0x0200_2033),
    ],
    &[
        row!(Sltu Register 0xfe00_707f 0x0000_3033),
        row!(Mulhu Register 0xfe00_707f 0x0200_3033),
    ],
    &[
        row!(Xor Register 0xfe00_707f 0x0000_4033),
        row!(Div Register 0xfe00_707f 0x0200_4033),
    ],
    &[
        row!(Srl Register 0xfe00_707f 0x0000_5033),
        row!(Sra Register 0xfe00_707f 0x4000_5033),
        row!(Divu Register 0xfe00_707f 0x0200_5033),
    ],
    &[
        row!(Or Register 0xfe00_707f 0x0000_6033),
        row!(Rem Register 0xfe00_707f 0x0200_6033),
    ],
    &[
        row!(And Register 0xfe00_707f 0x0000_7033),
        row!(Remu Register 0xfe00_707f 0x0200_7033),
    ],
];

/// LUI.
const LUI: [&[Row]; 8] = [&[row!(Lui Upper 0x0000_007f 0x0000_0037)]; 8];

/// The computations with two registers on 32 bits.
const WORD_REGISTERS: [&[Row]; 8] = [
    &[
        row!(Addw Register 0xfe00_707f 0x0000_003b),
        row!(Subw Register 0xfe00_707f 0x4000_003b),
        row!(Mulw Register 0xfe00_707f 0x0200_003b),
    ],
    &[row!(Sllw Register 0xfe00_707f 0x0000_103b)],
    &[],
    &[],
    &[row!(Divw Register 0xfe00_707f 0x0200_403b)],
    &[
        row!(Srlw Register 0xfe00_707f 0x0000_503b),
        row!(Sraw Register 0xfe00_707f 0x4000_503b),
        row!(Divuw Register 0xfe00_707f 0x0200_503b),
    ],
    &[row!(Remw Register 0xfe00_707f 0x0200_603b)],
    &[row!(Remuw Register 0xfe00_707f 0x0200_703b)],
];

/// The branches.
const BRANCHES: [&[Row]; 8] = [
    &[row!(Beq Branch 0x0000_707f 0x0000_0063)],
    &[row!(Bne Branch 0x0000_707f 0x0000_1063)],
    &[],
    &[],
    &[row!(Blt Branch 0x0000_707f 0x0000_4063)],
    &[row!(Bge Branch 0x0000_707f 0x0000_5063)],
    &[row!(Bltu Branch 0x0000_707f 0x0000_6063)],
    &[row!(Bgeu Branch 0x0000_707f 0x0000_7063)],
];

/// JALR.
const JALR: [&[Row]; 8] = [
    &[row!(Jalr Immediate 0x0000_707f 0x0000_0067)],
    &[],
    &[],
    &[],
    &[],
    &[],
    &[],
    &[],
];

/// JAL.
const JAL: [&[Row]; 8] = [&[row!(Jal Jump 0x0000_007f 0x0000_006f)]; 8];

/// ECALL and EBREAK.
const SYSTEM: [&[Row]; 8] = [
    &[
        row!(Ecall Bare 0xffff_ffff 0x0000_0073),
        row!(Ebreak Bare 0xffff_ffff 0x0010_0073),
    ],
    &[],
    &[],
    &[],
    &[],
    &[],
    &[],
    &[],
];
