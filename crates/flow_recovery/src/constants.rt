//! Addresses that LUI, AUIPC and additions to x0 make, with at most two more immediates.
ghost use Rattle.std.specs.Prelude.{◌≡◌, OnOk};
ghost use Rattle.machine.specs.Step.{target};
ghost use Rattle.flow_recovery.specs.Found.{CoversFound};
ghost use Rattle.tests.specs.Admission.Reached.{leads, is_sum, adds_to, sum_leads, one_pass, sums_lead, users, near_by, twice, is_upper, makes_constant};
ghost use Rattle.tests.specs.Admission.Reached.{constant, made_by, is_made};

use crate::found::{Code, Found, add_constant, add_pointer};
use crate::words::target_from;
use qed_model::CodeWord;
use rv_isa::{Ins, Kind, Reg};
use std::alloc::AllocError;

/// How many words behind the word that makes a constant are searched.
const NEAR: usize = 16;

/// The global pointer, which is set once (RISC-V psABI, register convention).
pub(crate) const GP: u8 = 3;

/// Whether an instruction adds its immediate to the register of this number: ADDI, ADDIW and JALR.
pub(crate) fn adds_to(register: u8, ins: &Ins) -> bool
    ensures { result ≡ adds_to register ins.now }
{
    matches!(ins.kind, Kind::Addi | Kind::Addiw | Kind::Jalr) && ins.rs1.number() == register
}

/// A value that a register has, and the words that may use it.
#[derive(Clone, Copy)]
struct Known<'a> {
    near: &'a [CodeWord],
    register: Reg,
    value: u64,
}

/// Adds what a word makes of a register's value.
fn add_sum(
    found: &mut Found,
    code: &Code<'_>,
    known: &Known<'_>,
    word: &CodeWord,
) -> Result<(), AllocError>
    ensures { OnOk result (CoversFound code.now found.old found.new (λ a. sum_leads code.now.test.now known.now.register known.now.value a word.now)) }
{
    if adds_to(known.register.number(), &word.ins) {
        add_constant(found, code, target_from(&word.ins, known.value))?;
    }
    Ok(())
}

/// Adds a register's value, and what the immediate of one word near by makes of it.
#[tactic(auto, using(crate::proofs::SetLaws::adds_more, crate::proofs::SetLaws::adds_all), unfolding(tests::specs::Admission::Reached::one_pass))]
fn add_once(found: &mut Found, code: &Code<'_>, known: &Known<'_>) -> Result<(), AllocError>
    ensures { OnOk result (CoversFound code.now found.old found.new (one_pass code.now.test.now known.now.near.now known.now.register known.now.value)) }
{
    add_constant(found, code, known.value)?;
    for word in known.near {
        add_sum(found, code, known, word)?;
    }
    Ok(())
}

/// The nearby words that may use a register; none for x0.
fn users(register: Reg, near: &[CodeWord]) -> &[CodeWord]
    ensures { result.now ≡ users register near.now }
{
    if register.number() == 0 { &[] } else { near }
}

/// Adds what a register's value leads to, with one nearby word. Sums of the global pointer, with any word, come later.
fn add_held(
    found: &mut Found,
    code: &Code<'_>,
    near: &[CodeWord],
    register: Reg,
    value: u64,
) -> Result<(), AllocError>
    ensures { OnOk result (CoversFound code.now found.old found.new (one_pass code.now.test.now (near_by code.now.test.now near.now register) register value)) }
{
    if register.number() == GP {
        return add_pointer(found, code, value);
    }
    let known = Known {
        near: users(register, near),
        register,
        value,
    };
    add_once(found, code, &known)
}

/// Adds what a word, and one more nearby, make of a register's value.
fn add_sums(
    found: &mut Found,
    code: &Code<'_>,
    known: &Known<'_>,
    word: &CodeWord,
) -> Result<(), AllocError>
    ensures { OnOk result (CoversFound code.now found.old found.new (λ a.
        sums_lead code.now.test.now known.now.near.now known.now.register known.now.value a word.now)) }
{
    if adds_to(known.register.number(), &word.ins) {
        let value = target_from(&word.ins, known.value);
        add_held(found, code, known.near, word.ins.rd, value)?;
    }
    Ok(())
}

/// Adds a register's value, and what the immediates of at most two nearby words make of it.
fn add_twice(found: &mut Found, code: &Code<'_>, known: &Known<'_>) -> Result<(), AllocError>
    ensures { OnOk result (CoversFound code.now found.old found.new (twice code.now.test.now known.now.near.now known.now.register known.now.value)) }
{
    add_constant(found, code, known.value)?;
    for word in known.near {
        add_sums(found, code, known, word)?;
    }
    Ok(())
}

/// Whether an instruction makes a constant: LUI, AUIPC, and an addition to x0.
fn makes_constant(ins: &Ins) -> bool
    ensures { result ≡ makes_constant ins.now }
{
    matches!(ins.kind, Kind::Lui | Kind::Auipc) || adds_to(0, ins)
}

/// The constant that a word makes.
fn constant(word: &CodeWord) -> u64
    ensures { result ≡ constant word.now.ins.kind word.now }
{
    match word.ins.kind {
        Kind::Auipc => target_from(&word.ins, word.at),
        _ => word.ins.imm.cast_unsigned(),
    }
}

/// Adds the constants that a word makes with those near it.
#[tactic(auto, unfolding(tests::specs::Admission::Reached::made_by))]
fn add_made(
    found: &mut Found,
    code: &Code<'_>,
    near: &[CodeWord],
    word: &CodeWord,
) -> Result<(), AllocError>
    ensures { OnOk result (CoversFound code.now found.old found.new (made_by code.now.test.now near.now word.now)) }
{
    if makes_constant(&word.ins) {
        let known = Known {
            near: users(word.ins.rd, near),
            register: word.ins.rd,
            value: constant(word),
        };
        add_twice(found, code, &known)?;
    }
    Ok(())
}

/// Adds the constants that the code makes.
pub(crate) fn add_constants(found: &mut Found, code: &Code<'_>) -> Result<(), AllocError>
    ensures { OnOk result (CoversFound code.now found.old found.new (λ a. is_made code.now.test.now a code.now.test.now.code)) }
{
    let mut left = code.test.code.as_slice();
    while let [word, rest @ ..] = left {
        let near = &rest[..rest.len().min(NEAR)];
        add_made(found, code, near, word)?;
        left = rest;
    }
    Ok(())
}
