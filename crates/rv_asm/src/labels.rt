//! Labels.
ghost use Rattle.std.specs.Prelude.{◌≡◌, ◌≤◌, ℕ, List, Option, IfOk, OnOk, Some, None, if◌then◌else◌, length};
ghost use Rattle.std.specs.Option.{option_or};
ghost use Rattle.std.specs.Str.{bytes_eq};
ghost use Rattle.rv_asm.specs.Assembled.{is_same_label, label_of};
ghost use Rattle.rv_asm.specs.Lines.{label_in as label_in_of, lines_of};
ghost use Rattle.rv_asm.specs.Named.{label_named};

use crate::lines::{label_in, parts};
use crate::place::Place;
use std::alloc::{AllocError, Global};
use std::collections::HashMap;

/// The first definition of a label.
#[derive(Clone, Copy)]
pub struct Label {
    /// The address of the word that follows it.
    pub address: u64,
    /// The number of the line, from 0.
    pub line: u64,
}

/// Labels by their names.
#[derive(Drop)]
pub struct Labels<'a> {
    by_name: HashMap<&'a [u8], Label>,
}

impl<'a> Labels<'a> {
    /// No label.
    fn new(alloc: Global) -> Labels<'a>
        ensures { (q : List ℕ) → label_named result q ≡ None }
    {
        Labels {
            by_name: HashMap::new(alloc),
        }
    }

    /// The label of a name.
    pub fn find(&self, name: &[u8]) -> Option<Label>
        ensures { result ≡ label_named self.now name.now }
    {
        self.by_name.get(name).copied()
    }

    /// Adds a label where none has its name.
    fn define(&mut self, name: &'a [u8], label: Label) -> Result<(), AllocError>
        ensures { OnOk result ((q : List ℕ) → label_named self.new q ≡ option_or (label_named self.old q) (if bytes_eq q name.now then Some label else None)) }
    {
        match self.find(name) {
            Some(_) => Ok(()),
            None => {
                self.by_name.insert(name, label)?;
                Ok(())
            }
        }
    }
}

/// Adds the label that a first word defines, where it defines one and none has its name.
fn define_by<'a>(labels: &mut Labels<'a>, word: &'a [u8], label: Label) -> Result<(), AllocError>
    ensures { OnOk result ((q : List ℕ) → label_named labels.new q
        ≡ option_or (label_named labels.old q) (if is_same_label q (label_in_of word.now) then Some label else None)) }
{
    match label_in(word) {
        Some(name) => labels.define(name, label),
        None => Ok(()),
    }
}

/// The labels of a text's lines, by first words alone.
pub fn labels_of<'a>(alloc: Global, text: &'a [u8]) -> Result<Labels<'a>, AllocError>
    requires { length text.now ≤ 67108864 }
    ensures { IfOk result (λ labels. (q : List ℕ) → label_named labels q ≡ label_of (lines_of text.now) q) }
{
    let mut labels = Labels::new(alloc);
    let mut place = Place::FIRST;
    let mut number = 0;
    for line in text.split(|byte| *byte == b'\n') {
        let line = parts(line);
        let label = Label {
            address: place.address(),
            line: number,
        };
        define_by(&mut labels, line.word, label)?;
        place = place.behind(line.head);
        number += 1;
    }
    Ok(labels)
}
