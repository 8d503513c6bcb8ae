//! The code.
ghost use Rattle.std.specs.Prelude.{◌≡◌, ℕ, ◌≤◌, ◌<◌, ◌++◌, ◌∷◌, [], IfOk, OnOk, length, map};
ghost use Rattle.machine.specs.Below.{each};
ghost use Rattle.machine.specs.Numbers.{bytes_of};
ghost use Rattle.test_gen.specs.Random.{drawn as drawn_of, after};
ghost use Rattle.test_gen.specs.Code.{body_instruction as body_instruction_of, function_count as function_count_of, return, main as main_of, code as code_of};
ghost use Rattle.test_gen.specs.Generated.{generated_word as word_of_instruction};

use crate::body::body_instruction;
use crate::instruction::instruction;
use crate::{drawn, seeded};
use rand_pcg::Pcg64;
use rv_encode::encode;
use rv_isa::{Ins, Kind};
use std::alloc::{AllocError, Global};

/// How many body instructions a function has.
const BODY_SIZE: u64 = 32;

/// How many functions a test of this size has: its size in body instructions, rounded up to whole functions.
#[tactic(auto, unfolding(crate::specs::Code::function_count))]
pub fn function_count(size: u64) -> u64
    requires { size ≤ 60000 }
    ensures value { result ≡ function_count_of size }
    ensures bound { result ≤ 1875 }
{
    size.div_ceil(BODY_SIZE)
}

/// Appends a function made of the next random words.
#[tactic(auto, using(machine::proofs::Lemmas::each_front, machine::proofs::Lemmas::push_after))]
fn push_function(code: &mut Vec<Ins>, rng: &mut Pcg64) -> Result<(), AllocError>
    ensures code { OnOk result (code.new.items ≡ code.old.items ++ (each 32 (λ k. body_instruction_of (drawn_of (after k rng.old))) ++ return ∷ [])) }
    ensures rng { OnOk result (rng.new ≡ after 32 rng.old) }
{
    for _ in 0..BODY_SIZE {
        code.push(body_instruction(drawn(rng)))?;
    }
    code.push(instruction(Kind::Jalr, 0, 1, 0, 0))?;
    Ok(())
}

/// The code of `main`, which calls each function of the table three times.
#[tactic(auto, unfolding(crate::specs::Code::main))]
fn main_code(functions: u64) -> [Ins; 12]
    requires { functions ≤ 1875 }
    ensures { result ≡ main_of functions }
{
    [
        instruction(Kind::Lui, 2, 0, 0, 0x90000),
        instruction(Kind::Addi, 8, 0, 0, 3),
        instruction(Kind::Lui, 4, 0, 0, 0x80000),
        instruction(Kind::Addi, 9, 0, 0, functions as i64),
        instruction(Kind::Ld, 5, 4, 0, 0),
        instruction(Kind::Jalr, 1, 5, 0, 0),
        instruction(Kind::Addi, 4, 4, 0, 8),
        instruction(Kind::Addi, 9, 9, 0, -1),
        instruction(Kind::Bne, 0, 9, 0, -16),
        instruction(Kind::Addi, 8, 8, 0, -1),
        instruction(Kind::Bne, 0, 8, 0, -32),
        instruction(Kind::Ecall, 0, 0, 0, 0),
    ]
}

/// The code of `functions` functions, with `main` in front.
#[tactic(auto, using(crate::proofs::Functions::function_from, crate::proofs::Functions::none_yet, crate::proofs::Functions::one_more), unfolding(crate::specs::Code::code))]
pub fn code(alloc: Global, seed: u64, functions: u64) -> Result<Vec<Ins>, AllocError>
    requires { functions ≤ 1875 }
    ensures { IfOk result (λ code. code.items ≡ code_of seed functions) }
{
    let mut code = Vec::from_slice(alloc, &main_code(functions))?;
    let mut rng = seeded(seed);
    for _ in 0..functions {
        push_function(&mut code, &mut rng)?;
    }
    Ok(code)
}

/// The bytes of the words of instructions, each the lowest first. Each instruction of a generated test has a word.
#[tactic(auto, unfolding(machine::specs::Numbers::number_bytes, crate::specs::Generated::generated_word))]
pub fn words_bytes(alloc: Global, code: &[Ins]) -> Result<Vec<u8>, AllocError>
    ensures { IfOk result (λ bytes. bytes.items ≡ bytes_of (map word_of_instruction code.now)) }
{
    let mut bytes = Vec::new(alloc);
    for ins in code {
        bytes.extend_from_slice(&encode(ins).unwrap_or(0).to_le_bytes())?;
    }
    Ok(bytes)
}

/// How many words the code of a test of this size has: 12 of `main` and 33 of each function.
pub fn code_words(size: u64) -> u64
    requires { size ≤ 60000 }
    ensures { (seed : ℕ) → result ≡ length (code_of seed (function_count_of size)) }
{
    12 + (BODY_SIZE + 1) * function_count(size)
}
