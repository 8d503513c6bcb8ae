//! The bounds of outputs by what they depend on.

use crate::line::Lines;
use bound_calc::bounds;
use qed_model::{Bounds, Shape};
use std::alloc::{AllocError, Global};
use texts::number;

/// The shape that `WORDS RANGES ROUND MOST` and the words behind them describe; None if they describe none.
fn shape_of(text: &str) -> Option<Shape> {
    let mut words = text.split(' ');
    let mut shape = Shape {
        words: number(words.next()?.as_bytes())?,
        ranges: number(words.next()?.as_bytes())?,
        round: number(words.next()?.as_bytes())?,
        inst_max: number(words.next()?.as_bytes())?,
        far: false,
        sweep: false,
        diverse: false,
        land: false,
    };
    for word in words {
        match word {
            "far" => shape.far = true,
            "sweep" => shape.sweep = true,
            "diverse" => shape.diverse = true,
            _ => return None,
        }
    }
    Some(shape)
}

fn line(lines: &mut Lines, bounds: &Bounds) -> Result<(), AllocError> {
    lines.text("piece")?;
    lines.number(bounds.piece)?;
    lines.count("register", bounds.register)?;
    match bounds.word {
        Some(word) => lines.count("word", word)?,
        None => lines.text(" word none")?,
    }
    lines.count("start", bounds.start)?;
    lines.end()
}

/// The bounds of outputs of a shape, in steps.
pub(crate) fn bounds_line(alloc: Global, text: &str) -> Result<Option<String>, AllocError> {
    let Some(shape) = shape_of(text) else {
        return Ok(None);
    };
    if shape.round == 0 {
        return Ok(None);
    }
    let mut lines = Lines::new(alloc);
    match bounds(&shape) {
        Some(bounds) => line(&mut lines, &bounds)?,
        None => lines.text("none\n")?,
    }
    Ok(Some(lines.into_text()))
}
