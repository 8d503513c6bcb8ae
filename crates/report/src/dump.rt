//! The bytes of a machine's memory, as a dump shows them.
ghost use Rattle.std.specs.Prelude.{◌≡◌, ◌+◌, ◌^◌, ◌≤◌, Some, IfOk, option_map, string_bytes};
ghost use Rattle.std.specs.FinMap.{get};
ghost use Rattle.qed_words.specs.Text.Run.{byte_text, byte_texts, dump_line, dump_text as text_of};

use rv_step::Machine;
use rv_text::Address;
use std::alloc::{AllocError, Global};

/// How many bytes stand in a line.
const WIDTH: u64 = 16;

/// The byte at an address, in two lower-case digits, or `--` if it is not mapped.
fn byte_text(alloc: Global, machine: &Machine, address: u64) -> Result<String, AllocError>
    ensures { IfOk result (λ text. string_bytes text ≡ byte_text (option_map (λ c. c.byte) (get machine.now.state.memory address))) }
{
    match machine.byte(address) {
        None => format!(in alloc; " --"),
        Some(byte) => format!(in alloc; " {byte:02x}"),
    }
}

/// The bytes from an address on.
#[tactic(auto, using(crate::proofs::DumpLines::no_byte, crate::proofs::DumpLines::next_byte))]
fn byte_texts(
    alloc: Global,
    machine: &Machine,
    address: u64,
    count: u64,
) -> Result<Vec<u8>, AllocError>
    requires { address + count ≤ 2 ^ 64 }
    ensures { IfOk result (λ text. text.items ≡ byte_texts machine.now.state.memory address count) }
{
    let mut text = Vec::new(alloc);
    for i in 0..count {
        let byte = byte_text(alloc, machine, address + i)?;
        text.extend_from_slice(byte.as_bytes())?;
    }
    Ok(text)
}

/// A line: an address, and the bytes from there on.
fn dump_line(
    alloc: Global,
    machine: &Machine,
    address: u64,
    count: u64,
) -> Result<Vec<u8>, AllocError>
    requires { address + count ≤ 2 ^ 64 }
    ensures { IfOk result (λ line. line.items ≡ dump_line machine.now.state.memory address count) }
{
    let first = Address(address);
    let mut line = format!(in alloc; "{first}")?.into_bytes();
    let bytes = byte_texts(alloc, machine, address, count)?;
    line.extend_from_slice(&bytes)?;
    line.push(b'\n')?;
    Ok(line)
}

/// A dump of `length` bytes from an address on: 16 bytes to a line, each line with its first address.
#[tactic(auto, using(crate::proofs::DumpLines::no_line, crate::proofs::DumpLines::next_line))]
pub fn dump_text(
    alloc: Global,
    machine: &Machine,
    address: u64,
    length: u64,
) -> Result<Vec<u8>, AllocError>
    requires { address + length ≤ 2 ^ 64 }
    ensures { IfOk result (λ text. text.items ≡ text_of machine.now.state.memory (Some (address, length))) }
{
    let mut text = Vec::new(alloc);
    for k in 0..length.div_ceil(WIDTH) {
        let start = WIDTH * k;
        let count = WIDTH.min(length - start);
        let line = dump_line(alloc, machine, address + start, count)?;
        text.extend_from_slice(&line)?;
    }
    Ok(text)
}
