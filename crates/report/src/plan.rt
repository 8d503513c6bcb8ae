//! The printed plan: one JSON object on one line.
ghost use Rattle.std.specs.Prelude.{◌≡◌, map, IfOk, string_bytes};
ghost use Rattle.serde_json.specs.Data.{array};
ghost use Rattle.serde_json.specs.View.{view, items_of, members_view};
ghost use Rattle.serde_json.specs.Written.{compact_text};
ghost use Rattle.report.specs.Plan.{bounds_data, entry_data, piece_data, plan_data, plan_numbers, plan_text};

use elf_types::Bytes;
use qed_model::{Bounds, EntryRow, PieceRow, Plan};
use serde_json::{Map, Value, json, put};
use std::alloc::{AllocError, Global};

/// The bounds; those of words only if there are data words, those of early changes only in the lean form.
fn bounds_value(alloc: Global, bounds: &Bounds) -> Result<Value, AllocError>
    ensures { IfOk result (λ v. view v ≡ bounds_data bounds.now) }
{
    match bounds.early_register {
        Some(early) => json!(in alloc; {"early_register": early, "early_word": bounds.early_word,
            "piece": bounds.piece, "register": bounds.register, "word": bounds.word}),
        None =>
            json!(in alloc; {"piece": bounds.piece, "register": bounds.register, "word": bounds.word}),
    }
}

/// The entries in their order, each as a pair.
fn entries_value(alloc: Global, rows: &[EntryRow]) -> Result<Value, AllocError>
    ensures { IfOk result (λ v. view v ≡ array (items_of (map entry_data rows.now))) }
{
    let mut entries = Vec::new(alloc);
    for row in rows {
        entries.push(json!(in alloc; [row.input, row.output])?)?;
    }
    Ok(Value::Array(entries))
}

/// The pieces in their order, each as a triple.
fn pieces_value(alloc: Global, rows: &[PieceRow]) -> Result<Value, AllocError>
    ensures { IfOk result (λ v. view v ≡ array (items_of (map piece_data rows.now))) }
{
    let mut pieces = Vec::new(alloc);
    for row in rows {
        pieces.push(json!(in alloc; [row.entry, row.first, row.length])?)?;
    }
    Ok(Value::Array(pieces))
}

/// The numbers of a plan, as members of its object.
fn plan_numbers(alloc: Global, plan: &Plan) -> Result<Map<String, Value>, AllocError>
    ensures { IfOk result (λ map. members_view map.entries ≡ plan_numbers plan.now) }
{
    let mut map = Map::new(alloc);
    put(&mut map, alloc, "base", Value::from(plan.base))?;
    put(&mut map, alloc, "code", Value::from(plan.code_bytes))?;
    put(&mut map, alloc, "half", Value::from(plan.distance))?;
    put(&mut map, alloc, "words", Value::from(plan.words))?;
    Ok(map)
}

/// A plan as one object, which keeps its keys in the order of their bytes.
fn plan_value(alloc: Global, plan: &Plan) -> Result<Value, AllocError>
    ensures { IfOk result (λ v. view v ≡ plan_data plan.now) }
{
    let mut map = plan_numbers(alloc, plan)?;
    let bounds = bounds_value(alloc, &plan.bounds)?;
    put(&mut map, alloc, "bounds", bounds)?;
    let entries = entries_value(alloc, plan.entries.as_slice())?;
    put(&mut map, alloc, "entries", entries)?;
    let pieces = pieces_value(alloc, plan.pieces.as_slice())?;
    put(&mut map, alloc, "pieces", pieces)?;
    Ok(Value::Object(map))
}

/// The text of a plan's object.
fn plan_json(alloc: Global, plan: &Plan) -> Result<String, AllocError>
    ensures { IfOk result (λ text. string_bytes text ≡ compact_text (plan_data plan.now)) }
{
    plan_value(alloc, plan)?.to_string(alloc)
}

/// A plan as one line of JSON: addresses and sizes in bytes, entries as pairs of input and output address, pieces as
/// triples of entry, first instruction and length.
pub fn plan_text(alloc: Global, plan: &Plan) -> Result<Bytes, AllocError>
    ensures { IfOk result (λ text. text ≡ plan_text plan.now) }
{
    let mut text = plan_json(alloc, plan)?;
    text.push_str("\n")?;
    Ok(Bytes::of(text.into_bytes()))
}
