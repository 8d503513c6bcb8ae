//! The word of an instruction in each format: the fixed bits of its row, and its fields. None where
//! the immediate is out of its range or off its grain, or where a field that the format does not
//! have is not 0.
ghost use Rattle.std.specs.Prelude.{◌≡◌};
ghost use Rattle.machine.specs.Table.{R, I, H, G, S, B, U, J, N, word_of};
ghost use Rattle.rv_encode.specs.Rows.{IsMatch};

use crate::immediate::{fits_below, fits_signed, to_bits};
use crate::word::{
    branch_word, immediate_word, jump_word, register_word, shift_word, store_word, upper_word,
    word_shift_word,
};
use rv_isa::Ins;

/// Format R: three registers.
#[inline]
#[tactic(auto, unfolding(machine::specs::Table::word_of))]
pub fn register_format(fixed: u32, ins: &Ins) -> Option<u32>
    requires { IsMatch R fixed }
    ensures { result ≡ word_of R fixed ins.now }
{
    if ins.imm != 0 {
        return None;
    }
    Some(register_word(fixed, ins.rd, ins.rs1, ins.rs2))
}

/// Format I: a signed number of 12 bits.
#[inline(always)]
#[tactic(auto, unfolding(machine::specs::Table::word_of))]
pub fn immediate_format(fixed: u32, ins: &Ins) -> Option<u32>
    requires { IsMatch I fixed }
    ensures { result ≡ word_of I fixed ins.now }
{
    let imm = ins.imm;
    if ins.rs2.number() != 0 || !fits_signed(12, imm) {
        return None;
    }
    Some(immediate_word(fixed, ins.rd, ins.rs1, to_bits(12, imm)))
}

/// Format I with a shift amount of 6 bits.
#[inline]
#[tactic(auto, unfolding(machine::specs::Table::word_of))]
pub fn shift_format(fixed: u32, ins: &Ins) -> Option<u32>
    requires { IsMatch H fixed }
    ensures { result ≡ word_of H fixed ins.now }
{
    let imm = ins.imm;
    if ins.rs2.number() != 0 || !fits_below(6, imm) {
        return None;
    }
    Some(shift_word(fixed, ins.rd, ins.rs1, imm as u32))
}

/// Format I with a shift amount of 5 bits.
#[inline]
#[tactic(auto, unfolding(machine::specs::Table::word_of))]
pub fn word_shift_format(fixed: u32, ins: &Ins) -> Option<u32>
    requires { IsMatch G fixed }
    ensures { result ≡ word_of G fixed ins.now }
{
    let imm = ins.imm;
    if ins.rs2.number() != 0 || !fits_below(5, imm) {
        return None;
    }
    Some(word_shift_word(fixed, ins.rd, ins.rs1, imm as u32))
}

/// Format S: a signed number of 12 bits in two places.
#[inline]
#[tactic(auto, unfolding(machine::specs::Table::word_of))]
pub fn store_format(fixed: u32, ins: &Ins) -> Option<u32>
    requires { IsMatch S fixed }
    ensures { result ≡ word_of S fixed ins.now }
{
    let imm = ins.imm;
    if ins.rd.number() != 0 || !fits_signed(12, imm) {
        return None;
    }
    Some(store_word(fixed, ins.rs1, ins.rs2, to_bits(12, imm)))
}

/// Format B: a signed, even number of 13 bits in four places.
#[inline(always)]
#[tactic(auto, unfolding(machine::specs::Table::word_of))]
pub fn branch_format(fixed: u32, ins: &Ins) -> Option<u32>
    requires { IsMatch B fixed }
    ensures { result ≡ word_of B fixed ins.now }
{
    let imm = ins.imm;
    if ins.rd.number() != 0 || !fits_signed(13, imm) {
        return None;
    }
    let bits = to_bits(13, imm);
    if bits % 2 != 0 {
        return None;
    }
    Some(branch_word(fixed, ins.rs1, ins.rs2, bits))
}

/// Format U: the upper 20 of 32 bits.
#[inline(always)]
#[tactic(auto, unfolding(machine::specs::Table::word_of))]
pub fn upper_format(fixed: u32, ins: &Ins) -> Option<u32>
    requires { IsMatch U fixed }
    ensures { result ≡ word_of U fixed ins.now }
{
    let imm = ins.imm;
    if ins.rs1.number() != 0 || ins.rs2.number() != 0 || !fits_signed(32, imm) {
        return None;
    }
    let bits = to_bits(32, imm);
    if bits % 4096 != 0 {
        return None;
    }
    Some(upper_word(fixed, ins.rd, bits))
}

/// Format J: a signed, even number of 21 bits in four places.
#[inline]
#[tactic(auto, unfolding(machine::specs::Table::word_of))]
pub fn jump_format(fixed: u32, ins: &Ins) -> Option<u32>
    requires { IsMatch J fixed }
    ensures { result ≡ word_of J fixed ins.now }
{
    let imm = ins.imm;
    if ins.rs1.number() != 0 || ins.rs2.number() != 0 || !fits_signed(21, imm) {
        return None;
    }
    let bits = to_bits(21, imm);
    if bits % 2 != 0 {
        return None;
    }
    Some(jump_word(fixed, ins.rd, bits))
}

/// No fields: each is 0.
#[inline]
#[tactic(auto, unfolding(machine::specs::Table::word_of))]
pub fn no_fields(fixed: u32, ins: &Ins) -> Option<u32>
    ensures { result ≡ word_of N fixed ins.now }
{
    let is_empty = ins.rd.number() == 0 && ins.rs1.number() == 0 && ins.rs2.number() == 0;
    if is_empty && ins.imm == 0 {
        Some(fixed)
    } else {
        None
    }
}
