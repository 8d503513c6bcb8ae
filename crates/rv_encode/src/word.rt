//! Words of the fixed bits of a row and its fields, each put in its place by `Field::set` (RISC-V
//! unprivileged manual, "Base Instruction Formats" and "Immediate Encoding Variants").
ghost use Rattle.std.specs.Prelude.{◌≡◌, ◌^◌, ◌<◌};
ghost use Rattle.machine.specs.Table.{R, I, H, G, S, B, U, J, word_R, word_I, word_S, word_B, word_U, word_J};
ghost use Rattle.rv_encode.specs.Rows.{IsMatch};

use rv_isa::{Field, Reg};

fn number(register: Reg) -> u32
    ensures value { result ≡ register }
    ensures bound { result < 2 ^ 5 }
{
    u32::from(register.number())
}

/// Format R: rd, rs1 and rs2.
pub fn register_word(fixed: u32, rd: Reg, rs1: Reg, rs2: Reg) -> u32
    requires { IsMatch R fixed }
    ensures word { result ≡ word_R fixed rd rs1 rs2 }
    ensures registers { (rd < 32) × (rs1 < 32) × (rs2 < 32) }
{
    let with_rd = Field::<7, 5>::set(fixed, number(rd));
    let with_rs1 = Field::<15, 5>::set(with_rd, number(rs1));
    Field::<20, 5>::set(with_rs1, number(rs2))
}

/// Format I: rd, rs1 and the 12 bits of the immediate.
#[inline(always)]
pub fn immediate_word(fixed: u32, rd: Reg, rs1: Reg, bits: u32) -> u32
    requires fixed_bits { IsMatch I fixed }
    requires fits { bits < 2 ^ 12 }
    ensures word { result ≡ word_I fixed rd rs1 bits }
    ensures registers { (rd < 32) × (rs1 < 32) }
{
    let with_rd = Field::<7, 5>::set(fixed, number(rd));
    let with_rs1 = Field::<15, 5>::set(with_rd, number(rs1));
    Field::<20, 12>::set(with_rs1, bits)
}

/// Format I with a shift amount of 6 bits.
pub fn shift_word(fixed: u32, rd: Reg, rs1: Reg, amount: u32) -> u32
    requires fixed_bits { IsMatch H fixed }
    requires fits { amount < 2 ^ 6 }
    ensures word { result ≡ word_I fixed rd rs1 amount }
    ensures registers { (rd < 32) × (rs1 < 32) }
{
    let with_rd = Field::<7, 5>::set(fixed, number(rd));
    let with_rs1 = Field::<15, 5>::set(with_rd, number(rs1));
    Field::<20, 6>::set(with_rs1, amount)
}

/// Format I with a shift amount of 5 bits.
pub fn word_shift_word(fixed: u32, rd: Reg, rs1: Reg, amount: u32) -> u32
    requires fixed_bits { IsMatch G fixed }
    requires fits { amount < 2 ^ 5 }
    ensures word { result ≡ word_I fixed rd rs1 amount }
    ensures registers { (rd < 32) × (rs1 < 32) }
{
    let with_rd = Field::<7, 5>::set(fixed, number(rd));
    let with_rs1 = Field::<15, 5>::set(with_rd, number(rs1));
    Field::<20, 5>::set(with_rs1, amount)
}

/// Format S: rs1, rs2 and the 12 bits of the immediate.
pub fn store_word(fixed: u32, rs1: Reg, rs2: Reg, bits: u32) -> u32
    requires fixed_bits { IsMatch S fixed }
    requires fits { bits < 2 ^ 12 }
    ensures word { result ≡ word_S fixed rs1 rs2 bits }
    ensures registers { (rs1 < 32) × (rs2 < 32) }
{
    let with_low = Field::<7, 5>::set(fixed, Field::<0, 5>::get(bits));
    let with_rs1 = Field::<15, 5>::set(with_low, number(rs1));
    let with_rs2 = Field::<20, 5>::set(with_rs1, number(rs2));
    Field::<25, 7>::set(with_rs2, Field::<5, 7>::get(bits))
}

/// Format B: rs1, rs2 and the 13 bits of the immediate, whose bit 0 has no place.
#[inline(always)]
pub fn branch_word(fixed: u32, rs1: Reg, rs2: Reg, bits: u32) -> u32
    requires { IsMatch B fixed }
    ensures word { result ≡ word_B fixed rs1 rs2 bits }
    ensures registers { (rs1 < 32) × (rs2 < 32) }
{
    let with_11 = Field::<7, 1>::set(fixed, Field::<11, 1>::get(bits));
    let with_1_to_4 = Field::<8, 4>::set(with_11, Field::<1, 4>::get(bits));
    let with_rs1 = Field::<15, 5>::set(with_1_to_4, number(rs1));
    let with_rs2 = Field::<20, 5>::set(with_rs1, number(rs2));
    let with_5_to_10 = Field::<25, 6>::set(with_rs2, Field::<5, 6>::get(bits));
    Field::<31, 1>::set(with_5_to_10, Field::<12, 1>::get(bits))
}

/// Format U: rd and the upper 20 of the immediate's 32 bits.
#[inline(always)]
pub fn upper_word(fixed: u32, rd: Reg, bits: u32) -> u32
    requires { IsMatch U fixed }
    ensures word { result ≡ word_U fixed rd bits }
    ensures registers { rd < 32 }
{
    let with_rd = Field::<7, 5>::set(fixed, number(rd));
    Field::<12, 20>::set(with_rd, Field::<12, 20>::get(bits))
}

/// Format J: rd and the 21 bits of the immediate, whose bit 0 has no place.
pub fn jump_word(fixed: u32, rd: Reg, bits: u32) -> u32
    requires { IsMatch J fixed }
    ensures word { result ≡ word_J fixed rd bits }
    ensures registers { rd < 32 }
{
    let with_rd = Field::<7, 5>::set(fixed, number(rd));
    let with_12_to_19 = Field::<12, 8>::set(with_rd, Field::<12, 8>::get(bits));
    let with_11 = Field::<20, 1>::set(with_12_to_19, Field::<11, 1>::get(bits));
    let with_1_to_10 = Field::<21, 10>::set(with_11, Field::<1, 10>::get(bits));
    Field::<31, 1>::set(with_1_to_10, Field::<20, 1>::get(bits))
}
