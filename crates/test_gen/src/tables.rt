//! The table of functions, and the data.
ghost use Rattle.std.specs.Prelude.{◌≡◌, ◌<◌, ◌≤◌, ◌++◌, IfOk, OnOk};
ghost use Rattle.machine.specs.Numbers.{number_bytes};
ghost use Rattle.test_gen.specs.Generated.{function_at as function_at_of, generated_table_bytes as table_bytes_of, data_bytes as data_bytes_of};

use std::alloc::{AllocError, Global};

/// Where the code begins.
pub const CODE: u64 = 0x10000;

/// The size of `main`, in bytes.
const MAIN_SIZE: u64 = 48;

/// The size of a function, in bytes: 32 body instructions and the return.
const FUNCTION_SIZE: u64 = 132;

/// How many data words there are.
const DATA_WORDS: u64 = 256;

/// The address of a function.
pub fn function_at(number: u64) -> u64
    requires { number < 1875 }
    ensures { result ≡ function_at_of number }
{
    CODE + MAIN_SIZE + FUNCTION_SIZE * number
}

/// Appends a number, in 8 bytes.
#[tactic(auto, unfolding(machine::specs::Numbers::number_bytes))]
fn push_number(bytes: &mut Vec<u8>, number: u64) -> Result<(), AllocError>
    ensures { OnOk result (bytes.new.items ≡ bytes.old.items ++ number_bytes 8 number) }
{
    bytes.extend_from_slice(&number.to_le_bytes())?;
    Ok(())
}

/// The addresses of `functions` functions, 8 bytes each.
#[tactic(auto, using(machine::proofs::BelowLaws::gather_none, machine::proofs::BelowLaws::gather_more), unfolding(crate::specs::Generated::generated_table_bytes))]
pub fn table_bytes(alloc: Global, functions: u64) -> Result<Vec<u8>, AllocError>
    requires { functions ≤ 1875 }
    ensures { IfOk result (λ bytes. bytes.items ≡ table_bytes_of functions) }
{
    let mut bytes = Vec::new(alloc);
    for number in 0..functions {
        push_number(&mut bytes, function_at(number))?;
    }
    Ok(bytes)
}

/// The data words; each holds its number.
#[tactic(auto, using(machine::proofs::BelowLaws::gather_none, machine::proofs::BelowLaws::gather_more), unfolding(crate::specs::Generated::data_bytes))]
pub fn data_bytes(alloc: Global) -> Result<Vec<u8>, AllocError>
    ensures { IfOk result (λ bytes. bytes.items ≡ data_bytes_of) }
{
    let mut bytes = Vec::new(alloc);
    for number in 0..DATA_WORDS {
        push_number(&mut bytes, number)?;
    }
    Ok(bytes)
}
