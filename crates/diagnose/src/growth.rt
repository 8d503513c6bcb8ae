//! How much longer an output is than its test.
ghost use Rattle.std.specs.Prelude.{◌≡◌, ◌≤◌};
ghost use Rattle.qed_model.specs.Weave.SoundOptions.{AreSoundOptions};

use block_split::{CodeBlock, blocks};
use bound_calc::bounds;
use elf_read::read_elf;
use qed_io::Shelf;
use qed_model::limits::MAX_FILE_BYTES;
use qed_model::{Options, Shape, Test};
use std::alloc::{AllocError, Global};
use test_admission::admit;

/// How many times as large as `part` a number is, to tenths, rounded up.
fn times(alloc: Global, number: u64, part: u64) -> Result<String, AllocError> {
    let tenths = (10 * u128::from(number)).div_ceil(u128::from(part.max(1)));
    format!(in alloc; "{}.{}", tenths / 10, tenths % 10)
}

/// The most steps per instruction of a piece of `length` instructions, with its entry and its leave.
fn steps(alloc: Global, test: &Test, options: &Options, length: u64) -> Result<String, AllocError>
    requires { 1 ≤ options.now.round }
{
    // Here it only matters whether there are data words.
    let ranges = test.span.as_slice().len() as u64;
    let shape = Shape {
        words: ranges,
        ranges,
        round: options.round,
        inst_max: length,
        far: false,
        sweep: false,
        diverse: options.diverse,
        land: false,
    };
    match bounds(&shape) {
        Some(bounds) => times(alloc, bounds.piece, length),
        None => Ok(String::new(alloc)),
    }
}

/// The least and the greatest length of the pieces that have instructions; None if no piece has any.
fn lengths(blocks: &[CodeBlock]) -> Option<(u64, u64)> {
    let mut found = None;
    for block in blocks {
        for &length in block.lengths.as_slice() {
            if length > 0 {
                let (least, most) = found.unwrap_or((length, length));
                found = Some((length.min(least), length.max(most)));
            }
        }
    }
    found
}

/// The text about the output of a test with these bytes; the output has `words` words of code.
fn growth_of(
    alloc: Global,
    bytes: &[u8],
    options: &Options,
    words: u64,
) -> Result<String, AllocError>
    requires { AreSoundOptions options.now }
{
    let Ok(file) = read_elf(alloc, bytes) else {
        return Ok(String::new(alloc));
    };
    let Ok(test) = admit(alloc, &file, options) else {
        return Ok(String::new(alloc));
    };
    let blocks = blocks(alloc, &test, &file, options)?;
    let code = times(alloc, words, test.code.as_slice().len() as u64)?;
    // A comparison stands only behind these pieces, and in the lean form behind none.
    let compared = match options.lean {
        None => lengths(blocks.as_slice()),
        Some(_) => None,
    };
    let Some((least, most)) = compared else {
        return format!(in alloc; "qed: the code is {code} times that of the test\n");
    };
    let low = steps(alloc, &test, options, most)?;
    let high = steps(alloc, &test, options, least)?;
    format!(in alloc;
        "qed: the code is {code} times that of the test, and a piece makes at most {low} to {high} steps for each instruction\n"
    )
}

/// How much longer the output of the test `name` is, in code and steps. It has `words` words of code.
pub(crate) fn growth<S: Shelf>(
    alloc: Global,
    name: &str,
    options: &Options,
    words: u64,
    shelf: &mut S,
) -> Result<String, AllocError>
    requires { AreSoundOptions options.now }
    ensures { S.files shelf.new ≡ S.files shelf.old }
{
    match shelf.load(alloc, name, MAX_FILE_BYTES) {
        Ok(bytes) => growth_of(alloc, bytes.as_slice(), options, words),
        Err(_) => Ok(String::new(alloc)),
    }
}
