//! The table, by which a JALR finds the entry of an input address.
ghost use Rattle.std.specs.Prelude.{◌≡◌, ℕ, ◌+◌, ◌*◌, ◌^◌, ◌<◌, IfOk, map};
ghost use Rattle.qed_model.specs.Weave.OutputFile.{looks_up as looks_up_of, has_table as has_table_of, first_input as first_input_of};
ghost use Rattle.qed_model.specs.Weave.OutputFile.{table_bytes as table_bytes_of, table_segment as table_segment_of};
ghost use Rattle.block_split.specs.Listed.{end_of, block_of};
ghost use Rattle.output_file.specs.Laid.{laid};
ghost use Rattle.output_file.specs.Entries.{AreEntries, entry_distance, entry_word};

use crate::bytes::push_behind;
use crate::segments::{moved, whole_segment};
use block_split::CodeBlock;
use elf_types::abi::PF_R;
use elf_types::{Bytes, Segment};
use flow_recovery::is_indirect;
use qed_model::EntryRow;
use rv_isa::Ins;
use std::alloc::{AllocError, Global};

/// Whether a block with this end looks its target up in the table.
fn looks_up(end: &Option<Ins>) -> bool
    ensures { result ≡ looks_up_of (end_of end.now) }
{
    match end {
        Some(ins) => is_indirect(ins.class()),
        None => false,
    }
}

/// Whether the output has a table: if a block ends with a JALR.
pub fn has_table(blocks: &[CodeBlock]) -> bool
    ensures { result ≡ has_table_of (map block_of blocks.now) }
{
    for block in blocks {
        if looks_up(&block.end) {
            return true;
        }
    }
    false
}

/// The input address of the first entry; 0 if there is none.
fn first_input(entries: &[EntryRow]) -> u64
    ensures { result ≡ first_input_of entries.now }
{
    match entries {
        [first, ..] => first.input,
        [] => 0,
    }
}

/// How far an entry is behind its place in the table.
fn far(row: &EntryRow, distance: u64) -> u64
    ensures { result ≡ entry_distance distance row.now }
{
    let from_input = row.output.saturating_sub(row.input);
    from_input.saturating_sub(distance).saturating_sub(distance)
}

/// The bytes of the word of an entry.
#[tactic(auto, unfolding(machine::specs::Numbers::number_bytes))]
fn word_bytes(row: &EntryRow, distance: u64) -> [u8; 4]
    ensures { result ≡ (entry_word distance row.now).1 }
{
    let [first, second, third, fourth, ..] = far(row, distance).to_le_bytes();
    [first, second, third, fourth]
}

/// The words of entries, from an input address on, with zeros between them.
fn table_words(
    alloc: Global,
    start: u64,
    entries: &[EntryRow],
    distance: u64,
) -> Result<Vec<u8>, AllocError>
    ensures { IfOk result (λ bytes. bytes.items ≡ laid start 0 (map (entry_word distance) entries.now)) }
{
    let mut bytes = Vec::new(alloc);
    for row in entries {
        let before = row.input.saturating_sub(start);
        let zeros = before.saturating_sub(bytes.len() as u64);
        push_behind(&mut bytes, zeros, &word_bytes(row, distance))?;
    }
    Ok(bytes)
}

/// The bytes of the table: a word for each 4 bytes of the input from the first entry to the last.
/// Without entries it is one word of 0.
#[tactic(auto, using(crate::proofs::Tables::laid_is_table, crate::proofs::Tables::no_entries))]
fn table_bytes(alloc: Global, entries: &[EntryRow], distance: u64) -> Result<Vec<u8>, AllocError>
    ensures { IfOk result (λ bytes. (high : ℕ) → AreEntries high entries.now → bytes.items ≡ table_bytes_of distance entries.now) }
{
    if entries.is_empty() {
        let bytes = Vec::from_slice(alloc, &[0, 0, 0, 0])?;
        return Ok(bytes);
    }
    let bytes = table_words(alloc, first_input(entries), entries, distance)?;
    Ok(bytes)
}

/// The table as a segment.
pub fn table_segment(
    alloc: Global,
    entries: &[EntryRow],
    distance: u64,
) -> Result<Segment, AllocError>
    ensures { IfOk result (λ s. (high : ℕ) → AreEntries high entries.now → high + 2 * distance < 2 ^ 64 → s ≡ table_segment_of distance entries.now) }
{
    let bytes = table_bytes(alloc, entries, distance)?;
    let address = moved(moved(first_input(entries), distance), distance);
    Ok(whole_segment(PF_R, address, Bytes::of(bytes)))
}
