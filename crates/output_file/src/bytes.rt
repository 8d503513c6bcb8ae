//! Bytes at places, with zeros between them.
ghost use Rattle.std.specs.Prelude.{◌≡◌, ◌≤◌, ◌++◌, IfOk, OnOk, length, replicate};
ghost use Rattle.machine.specs.Numbers.{bytes_of as bytes_of_words};

use byteorder::{ByteOrder, LittleEndian};
use elf_write::push_zeros;
use std::alloc::{AllocError, Global};

/// How many words are turned into bytes at once.
const BATCH: usize = 64;

/// Appends the bytes of at most 64 words.
fn push_batch(bytes: &mut Vec<u8>, words: &[u32]) -> Result<(), AllocError>
    requires { length words.now ≤ 64 }
    ensures { OnOk result (bytes.new.items ≡ bytes.old.items ++ bytes_of_words words.now) }
{
    let mut batch = [0; 4 * BATCH];
    let (part, _) = batch.split_at_mut(4 * words.len());
    LittleEndian::write_u32_into(words, part);
    bytes.extend_from_slice(part)?;
    Ok(())
}

/// The bytes of 32-bit words, each the lowest first. They are made in batches, since appending
/// takes much longer than making the bytes of a word.
pub fn bytes_of(alloc: Global, words: &[u32]) -> Result<Vec<u8>, AllocError>
    ensures { IfOk result (λ bytes. bytes.items ≡ bytes_of_words words.now) }
{
    let mut bytes = Vec::new(alloc);
    let mut left = words;
    while left.len() > BATCH {
        let (batch, rest) = left.split_at(BATCH);
        push_batch(&mut bytes, batch)?;
        left = rest;
    }
    push_batch(&mut bytes, left)?;
    Ok(bytes)
}

/// Appends `zeros` zeros, and more bytes behind them.
pub fn push_behind(bytes: &mut Vec<u8>, zeros: u64, more: &[u8]) -> Result<(), AllocError>
    ensures { OnOk result (bytes.new.items ≡ bytes.old.items ++ (replicate zeros 0 ++ more.now)) }
{
    push_zeros(bytes, zeros)?;
    bytes.extend_from_slice(more)?;
    Ok(())
}
