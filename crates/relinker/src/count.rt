//! Counting: how many bytes items take, and where their marks stand.
ghost use Rattle.std.specs.Prelude.{◌≡◌, ◌+◌, ◌-◌, ◌^◌, ◌<◌, ◌≤◌, ◌++◌, [], List, OnOk, OnErr, IfOk};
ghost use Rattle.qed_model.specs.declared.item.Item.{Item};
ghost use Rattle.qed_model.specs.Weave.Placed.{size_of, sum_of_sizes, rows_from};
ghost use Rattle.relinker.specs.Counted.{capped, HasCounted};

use crate::ItemSink;
use passes::Emit;
use qed_model::{EntryRow, Item, Role};
use std::alloc::{AllocError, Global};

/// The bytes that an item takes in the near or the far form.
pub(crate) fn size(far: bool, item: &Item) -> u64
    ensures value { result ≡ size_of far item.now }
    ensures bound { result ≤ 8 }
{
    match item {
        Item::Mark(_) => 0,
        Item::Plain(_) => 4,
        Item::Constant(_, _) => 8,
        Item::Go(_) => if far { 8 } else { 4 },
    }
}

/// The bytes that items take; at most 2^64 - 1.
fn size_of_all(far: bool, items: &[Item]) -> u64
    ensures { result ≡ capped (sum_of_sizes far items.now) }
{
    let mut total = 0u64;
    for item in items {
        total = total.saturating_add(size(far, item));
    }
    total
}

/// The marks among items that stand from `base` on, with their places.
fn marks(alloc: Global, far: bool, items: &[Item], base: u64) -> Result<Vec<EntryRow>, AllocError>
    ensures { IfOk result (λ marks. base + sum_of_sizes far items.now < 2 ^ 64 - 1 → marks.items ≡ rows_from far base items.now) }
{
    let mut marks = Vec::new(alloc);
    let mut at = base;
    for item in items {
        if let Item::Mark(input) = *item {
            marks.push(EntryRow { input, output: at })?;
        }
        at = at.saturating_add(size(far, item));
    }
    Ok(marks)
}

/// Items that were counted: the bytes that they take, at most 2^64 - 1, and each mark with its place, from 0 on.
#[derive(Debug, Drop)]
pub struct Count {
    pub(crate) far: bool,
    pub(crate) bytes: u64,
    pub(crate) marks: Vec<EntryRow>,
}

impl Count {
    /// No items, of the near or of the far form.
    pub fn new(alloc: Global, far: bool) -> Count
        ensures form { result.far ≡ far }
        ensures none { HasCounted result [] }
    {
        Count {
            far,
            bytes: 0,
            marks: Vec::new(alloc),
        }
    }

    /// The count of items with known bytes and marks; the places count from 0.
    pub fn of(far: bool, bytes: u64, marks: Vec<EntryRow>) -> Count
        ensures form { result.far ≡ far }
        ensures counted { (items : List Item) → bytes ≡ capped (sum_of_sizes far items)
            → (sum_of_sizes far items < 2 ^ 64 - 1 → marks.items ≡ rows_from far 0 items) → HasCounted result items }
    {
        Count { far, bytes, marks }
    }

    /// Counts more items. Without memory the count stays as it was.
    pub fn add(&mut self, items: &Emit) -> Result<(), AllocError>
        ensures form { self.new.far ≡ self.old.far }
        ensures more { OnOk result ((done : List Item) → HasCounted self.old done → HasCounted self.new (done ++ items.now)) }
        ensures same_bytes { OnErr result (self.new.bytes ≡ self.old.bytes) }
        ensures same_marks { OnErr result (self.new.marks.items ≡ self.old.marks.items) }
    {
        self.add_all(items.items())
    }

    fn add_all(&mut self, items: &[Item]) -> Result<(), AllocError>
        ensures form { self.new.far ≡ self.old.far }
        ensures more { OnOk result ((done : List Item) → HasCounted self.old done → HasCounted self.new (done ++ items.now)) }
        ensures same_bytes { OnErr result (self.new.bytes ≡ self.old.bytes) }
        ensures same_marks { OnErr result (self.new.marks.items ≡ self.old.marks.items) }
    {
        let marks = marks(*self.marks.allocator(), self.far, items, self.bytes)?;
        self.marks.extend_from_slice(&marks)?;
        self.bytes = self.bytes.saturating_add(size_of_all(self.far, items));
        Ok(())
    }
}

impl ItemSink for Count {
    ghost use Rattle.std.specs.Prelude.{◌≡◌};
    ghost use Rattle.qed_model.specs.Weave.Parts.{joined};
    ghost use Rattle.relinker.specs.Counted.{HasCounted};

    ghost took = { λ count form done rest. (count.far ≡ form.0) × HasCounted count (joined done) };

    fn take(&mut self, _role: Role, items: &Emit) -> Result<(), AllocError> {
        self.add(items)?;
        Ok(())
    }
}
