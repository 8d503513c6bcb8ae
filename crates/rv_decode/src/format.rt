//! The fields of a word in each format (RISC-V unprivileged manual, "Base Instruction Formats" and
//! "Immediate Encoding Variants"): rd in bits 7 to 11, rs1 in 15 to 19, rs2 in 20 to 24.
ghost use Rattle.std.specs.Prelude.{◌≡◌, ℕ, ◌^◌, ◌<◌, ◌≤◌};
ghost use Rattle.machine.specs.Table.{R, I, H, G, S, B, U, J, N, ins_of, signed as signed_of};
ghost use Rattle.rv_decode.specs.Formats.{format_of};

use rv_isa::{Field, Ins, Kind, Reg};

/// A format of words.
#[derive(Clone, Copy)]
pub enum Format {
    /// R.
    Register,
    /// I.
    Immediate,
    /// I with a shift amount of 6 bits.
    Shift,
    /// I with a shift amount of 5 bits.
    WordShift,
    /// S.
    Store,
    /// B.
    Branch,
    /// U.
    Upper,
    /// J.
    Jump,
    /// No fields.
    Bare,
}

impl Format {
    /// The instruction of a kind with the fields that a word has in this format.
    #[inline(always)]
    pub fn ins(self, kind: Kind, word: u32) -> Ins
        ensures { result ≡ ins_of (format_of self) kind word }
    {
        match self {
            Format::Register => register_format(kind, word),
            Format::Immediate => immediate_format(kind, word),
            Format::Shift => shift_format(kind, word),
            Format::WordShift => word_shift_format(kind, word),
            Format::Store => store_format(kind, word),
            Format::Branch => branch_format(kind, word),
            Format::Upper => upper_format(kind, word),
            Format::Jump => jump_format(kind, word),
            Format::Bare => no_fields(kind),
        }
    }
}

/// The register of five bits.
fn register(bits: u32) -> Reg
    requires { bits < 32 }
    ensures { result ≡ bits }
{
    rv_isa::register(bits as u8)
}

/// The signed number that stands in the low bits of a word.
fn signed(width: u32, bits: u32) -> i64
    requires some { 1 ≤ width }
    requires most { width ≤ 32 }
    requires fits { bits < 2 ^ width }
    ensures { result ≡ signed_of width bits }
{
    let half = 1u64 << (width - 1);
    if u64::from(bits) < half {
        i64::from(bits)
    } else {
        i64::from(bits) - (2 * half) as i64
    }
}

/// Format R: three registers.
#[tactic(auto, unfolding(machine::specs::Table::ins_of))]
fn register_format(kind: Kind, word: u32) -> Ins
    ensures { result ≡ ins_of R kind word }
{
    Ins {
        kind,
        rd: register(Field::<7, 5>::get(word)),
        rs1: register(Field::<15, 5>::get(word)),
        rs2: register(Field::<20, 5>::get(word)),
        imm: 0,
    }
}

/// Format I: a signed number of 12 bits.
#[tactic(auto, unfolding(machine::specs::Table::ins_of))]
fn immediate_format(kind: Kind, word: u32) -> Ins
    ensures { result ≡ ins_of I kind word }
{
    Ins {
        kind,
        rd: register(Field::<7, 5>::get(word)),
        rs1: register(Field::<15, 5>::get(word)),
        rs2: register(0),
        imm: signed(12, Field::<20, 12>::get(word)),
    }
}

/// Format I with a shift amount of 6 bits.
#[tactic(auto, unfolding(machine::specs::Table::ins_of))]
fn shift_format(kind: Kind, word: u32) -> Ins
    ensures { result ≡ ins_of H kind word }
{
    Ins {
        kind,
        rd: register(Field::<7, 5>::get(word)),
        rs1: register(Field::<15, 5>::get(word)),
        rs2: register(0),
        imm: i64::from(Field::<20, 6>::get(word)),
    }
}

/// Format I with a shift amount of 5 bits.
#[tactic(auto, unfolding(machine::specs::Table::ins_of))]
fn word_shift_format(kind: Kind, word: u32) -> Ins
    ensures { result ≡ ins_of G kind word }
{
    Ins {
        kind,
        rd: register(Field::<7, 5>::get(word)),
        rs1: register(Field::<15, 5>::get(word)),
        rs2: register(0),
        imm: i64::from(Field::<20, 5>::get(word)),
    }
}

/// Format S: a signed number of 12 bits in two places.
#[tactic(auto, unfolding(machine::specs::Table::ins_of))]
fn store_format(kind: Kind, word: u32) -> Ins
    ensures { result ≡ ins_of S kind word }
{
    let bits = (Field::<25, 7>::get(word) << 5) + Field::<7, 5>::get(word);
    Ins {
        kind,
        rd: register(0),
        rs1: register(Field::<15, 5>::get(word)),
        rs2: register(Field::<20, 5>::get(word)),
        imm: signed(12, bits),
    }
}

/// Format B: a signed, even number of 13 bits in four places.
#[tactic(auto, unfolding(machine::specs::Table::ins_of))]
fn branch_format(kind: Kind, word: u32) -> Ins
    ensures { result ≡ ins_of B kind word }
{
    let bits = (Field::<31, 1>::get(word) << 12)
        + (Field::<7, 1>::get(word) << 11)
        + (Field::<25, 6>::get(word) << 5)
        + (Field::<8, 4>::get(word) << 1);
    Ins {
        kind,
        rd: register(0),
        rs1: register(Field::<15, 5>::get(word)),
        rs2: register(Field::<20, 5>::get(word)),
        imm: signed(13, bits),
    }
}

/// Format U: the upper 20 of 32 bits.
#[tactic(auto, unfolding(machine::specs::Table::ins_of))]
fn upper_format(kind: Kind, word: u32) -> Ins
    ensures { result ≡ ins_of U kind word }
{
    Ins {
        kind,
        rd: register(Field::<7, 5>::get(word)),
        rs1: register(0),
        rs2: register(0),
        imm: signed(32, Field::<12, 20>::get(word) << 12),
    }
}

/// Format J: a signed, even number of 21 bits in four places.
#[tactic(auto, unfolding(machine::specs::Table::ins_of))]
fn jump_format(kind: Kind, word: u32) -> Ins
    ensures { result ≡ ins_of J kind word }
{
    let bits = (Field::<31, 1>::get(word) << 20)
        + (Field::<12, 8>::get(word) << 12)
        + (Field::<20, 1>::get(word) << 11)
        + (Field::<21, 10>::get(word) << 1);
    Ins {
        kind,
        rd: register(Field::<7, 5>::get(word)),
        rs1: register(0),
        rs2: register(0),
        imm: signed(21, bits),
    }
}

/// No fields.
#[tactic(auto, unfolding(machine::specs::Table::ins_of))]
fn no_fields(kind: Kind) -> Ins
    ensures { (w : ℕ) → result ≡ ins_of N kind w }
{
    Ins {
        kind,
        rd: register(0),
        rs1: register(0),
        rs2: register(0),
        imm: 0,
    }
}
