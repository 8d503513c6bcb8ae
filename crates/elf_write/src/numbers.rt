//! Little-endian numbers in bytes.
ghost use Rattle.std.specs.Prelude.{◌≡◌, ◌++◌, OnOk, map, replicate, [], ◌∷◌};
ghost use Rattle.tests.specs.Elf.Written.{fields_bytes};
ghost use Rattle.elf_write.specs.Numbers.{size_and_value};

use byteorder::{ByteOrder, LittleEndian};
use std::alloc::AllocError;

/// A number with its size.
#[derive(Clone, Copy)]
pub enum Number {
    Byte(u8),
    Half(u16),
    Word(u32),
    Long(u64),
}

/// Appends a number's bytes, the lowest first.
#[tactic(auto, unfolding(machine::specs::Numbers::number_bytes))]
fn push_number(file: &mut Vec<u8>, number: Number) -> Result<(), AllocError>
    ensures { OnOk result (file.new.items ≡ file.old.items ++ fields_bytes (size_and_value number ∷ [])) }
{
    match number {
        Number::Byte(x) => file.extend_from_slice(&[x]),
        Number::Half(x) => {
            let mut bytes = [0; 2];
            LittleEndian::write_u16(&mut bytes, x);
            file.extend_from_slice(&bytes)
        }
        Number::Word(x) => {
            let mut bytes = [0; 4];
            LittleEndian::write_u32(&mut bytes, x);
            file.extend_from_slice(&bytes)
        }
        Number::Long(x) => {
            let mut bytes = [0; 8];
            LittleEndian::write_u64(&mut bytes, x);
            file.extend_from_slice(&bytes)
        }
    }
}

/// Appends numbers one after the other.
pub fn push_numbers(file: &mut Vec<u8>, numbers: &[Number]) -> Result<(), AllocError>
    ensures { OnOk result (file.new.items ≡ file.old.items ++ fields_bytes (map size_and_value numbers.now)) }
{
    for number in numbers {
        push_number(file, *number)?;
    }
    Ok(())
}

/// Appends zeros.
pub fn push_zeros(file: &mut Vec<u8>, count: u64) -> Result<(), AllocError>
    ensures { OnOk result (file.new.items ≡ file.old.items ++ replicate count 0) }
{
    for _ in 0..count {
        file.push(0)?;
    }
    Ok(())
}
