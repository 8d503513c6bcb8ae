//! Lines about the layers below the whole program.
ghost use Rattle.qed_model.specs.Weave.SoundOptions.{AreSoundOptions};

use crate::asked::{changes, planned};
use crate::bench::Bench;
use crate::file_parts::read;
use crate::shapes::bounds_line;
use crate::struck::{closing, reach, strike};
use crate::test_lines::test;
use qed_words::fault;
use std::alloc::{AllocError, Global};

/// `read NAME`.
fn read_line(alloc: Global, bench: &Bench, name: &str) -> Result<Option<String>, AllocError> {
    match bench.shelf.file(name) {
        Some(bytes) => Ok(Some(read(alloc, bytes)?)),
        None => Ok(None),
    }
}

/// `test NAME [OPTIONS]`, `reached NAME [OPTIONS]` and `course NAME [OPTIONS]`.
fn test_line(
    alloc: Global,
    bench: &Bench,
    what: &str,
    rest: &str,
) -> Result<Option<String>, AllocError> {
    let Some(asked) = planned(alloc, rest)? else {
        return Ok(None);
    };
    let Some(bytes) = bench.shelf.file(asked.name.as_str()) else {
        return Ok(None);
    };
    match what {
        "test" | "reached" => {
            let text = test(alloc, bytes, &asked.options, what == "reached")?;
            Ok(Some(text))
        }
        _ => Ok(Some(reach(alloc, bytes, &asked.options)?)),
    }
}

/// `strike NAME [OPTIONS] with CHANGE..`.
fn strike_line(alloc: Global, bench: &Bench, rest: &str) -> Result<Option<String>, AllocError> {
    let Some((test, strike_words)) = rest.split_once(" with ") else {
        return Ok(None);
    };
    let (Some(asked), Some(changes)) = (planned(alloc, test)?, changes(alloc, strike_words)?) else {
        return Ok(None);
    };
    let Some(bytes) = bench.shelf.file(asked.name.as_str()) else {
        return Ok(None);
    };
    Ok(Some(strike(alloc, bytes, &asked.options, changes)?))
}

/// `closed NAME STEP PLACE`.
fn closed_line(alloc: Global, bench: &Bench, rest: &str) -> Result<Option<String>, AllocError> {
    let (name, rest) = rest.split_once(' ').unwrap_or((rest, ""));
    let (step, place) = rest.split_once(' ').unwrap_or((rest, ""));
    let change = format!(in alloc; "{step}:{place}=0")?;
    let (Some(bytes), Some(change)) = (bench.shelf.file(name), fault(change.as_bytes())) else {
        return Ok(None);
    };
    Ok(Some(closing(alloc, bytes, change.step, &change.place)?))
}

/// The answer to a line about a layer; None for any other line.
pub(crate) fn tell_layer(
    alloc: Global,
    bench: &Bench,
    what: &str,
    rest: &str,
) -> Result<Option<String>, AllocError> {
    match what {
        "read" => read_line(alloc, bench, rest),
        "test" | "reached" | "course" => test_line(alloc, bench, what, rest),
        "strike" => strike_line(alloc, bench, rest),
        "closed" => closed_line(alloc, bench, rest),
        "bounds" => bounds_line(alloc, rest),
        _ => Ok(None),
    }
}
