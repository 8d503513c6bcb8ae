//! Items one after the other.
ghost use Rattle.std.specs.Prelude.{◌≡◌, [], ◌∷◌, ◌++◌, OnOk, OnErr};

use qed_model::Item;
use std::alloc::{AllocError, Global};
use std::marker::Model;

/// A list of items that passes append to.
#[derive(Drop)]
pub struct Emit {
    items: Vec<Item>,
}

impl Model for Emit {
    ghost use Rattle.std.specs.Prelude.{List};
    ghost use Rattle.qed_model.specs.declared.item.Item.{Item};

    ghost Value = { List Item };

    ghost view = { λ e. e.items.items };
}

impl Emit {
    /// No items.
    pub fn new(alloc: Global) -> Emit
        ensures { result ≡ [] }
    {
        Emit {
            items: Vec::new(alloc),
        }
    }

    /// Appends an item. Without memory it appends nothing.
    pub fn push(&mut self, item: Item) -> Result<(), AllocError>
        ensures all { OnOk result (self.new ≡ self.old ++ item ∷ []) }
        ensures none { OnErr result (self.new ≡ self.old) }
    {
        self.items.push(item)?;
        Ok(())
    }

    /// Appends items. Without memory it appends nothing.
    pub fn put(&mut self, items: &[Item]) -> Result<(), AllocError>
        ensures all { OnOk result (self.new ≡ self.old ++ items.now) }
        ensures none { OnErr result (self.new ≡ self.old) }
    {
        self.items.extend_from_slice(items)?;
        Ok(())
    }

    /// The items in order.
    pub fn items(&self) -> &[Item]
        ensures { result.now ≡ self.now }
    {
        self.items.as_slice()
    }

    /// Removes all items. It needs no memory.
    pub fn clear(&mut self)
        ensures { self.new ≡ [] }
    {
        self.items.clear();
    }
}
