//! Bytes.
ghost use Rattle.std.specs.Prelude.{◌≡◌, ◌+◌, ◌≤◌, drop, take, length, List, ℕ, IfOk};

use std::alloc::{AllocError, Global};
use std::marker::Model;
use std::rc::Rc;

/// Bytes that other bytes may be parts of, which contracts see as their list.
#[derive(Debug, Drop)]
pub struct Shared {
    all: Rc<Vec<u8>>,
}

impl Model for Shared {
    ghost Value = { List ℕ };

    ghost view = { λ s. s.all.value.items };
}

impl Shared {
    /// These bytes, which are not copied.
    pub fn of(alloc: Global, items: Vec<u8>) -> Result<Shared, AllocError>
        ensures { IfOk result (λ shared. shared ≡ items.items) }
    {
        let all = Rc::new(alloc, items)?;
        Ok(Shared { all })
    }

    /// A copy of a slice.
    pub fn copied(alloc: Global, items: &[u8]) -> Result<Shared, AllocError>
        ensures { IfOk result (λ shared. shared ≡ items.now) }
    {
        let copy = Vec::from_slice(alloc, items)?;
        let shared = Shared::of(alloc, copy)?;
        Ok(shared)
    }

    /// The `count` bytes from number `from` on, which are not copied.
    pub fn part(&self, from: usize, count: usize) -> Result<Bytes, AllocError>
        requires { from + count ≤ length self.now }
        ensures { IfOk result (λ bytes. bytes ≡ take count (drop from self.now)) }
    {
        let all = self.all.clone()?;
        Ok(Bytes {
            stored: Stored::Part(all, from, from + count),
        })
    }

    /// The bytes as a slice.
    pub fn as_slice(&self) -> &[u8]
        ensures { result.now ≡ self.now }
    {
        &self.all
    }
}

/// Where bytes are.
#[derive(Debug, Drop)]
enum Stored {
    /// In memory of their own.
    Own(Vec<u8>),
    /// In shared bytes, from one number up to another.
    Part(Rc<Vec<u8>>, usize, usize),
}

/// Bytes, which contracts see as their list. They have memory of their own, or are a part of bytes that are shared.
#[derive(Debug, Drop)]
pub struct Bytes {
    stored: Stored,
}

impl Model for Bytes {
    ghost use Rattle.std.specs.Prelude.{List, ℕ};
    ghost use Rattle.elf_types.specs.Bytes.{bytes_in, IsInside};

    ghost Value = { List ℕ };

    ghost view = { λ b. bytes_in b.stored };

    ghost invariant = { λ b. IsInside b.stored };
}

impl Clone for Bytes {
    ghost is_clone = { λ bytes copy. copy ≡ bytes };

    /// Equal bytes. A part of shared bytes is not copied.
    fn clone(&self) -> Result<Bytes, AllocError> {
        match &self.stored {
            Stored::Own(items) => {
                let copy = items.clone()?;
                Ok(Bytes::of(copy))
            }
            Stored::Part(all, from, to) => {
                let all = all.clone()?;
                Ok(Bytes {
                    stored: Stored::Part(all, *from, *to),
                })
            }
        }
    }
}

impl Bytes {
    /// These bytes.
    pub fn of(items: Vec<u8>) -> Bytes
        ensures { result ≡ items.items }
    {
        Bytes {
            stored: Stored::Own(items),
        }
    }

    /// A copy of a slice, which its clones share.
    pub fn copied(alloc: Global, items: &[u8]) -> Result<Bytes, AllocError>
        ensures { IfOk result (λ bytes. bytes ≡ items.now) }
    {
        let shared = Shared::copied(alloc, items)?;
        let bytes = shared.part(0, items.len())?;
        Ok(bytes)
    }

    /// These bytes, to be shared. They are not copied if they have memory of their own.
    pub fn into_shared(self, alloc: Global) -> Result<Shared, AllocError>
        ensures { IfOk result (λ shared. shared ≡ self) }
    {
        match self.stored {
            Stored::Own(items) => {
                let shared = Shared::of(alloc, items)?;
                Ok(shared)
            }
            Stored::Part(all, from, to) => {
                let shared = Shared::copied(alloc, &all[from..to])?;
                Ok(shared)
            }
        }
    }

    /// The bytes as a slice.
    pub fn as_slice(&self) -> &[u8]
        ensures { result.now ≡ self.now }
    {
        match &self.stored {
            Stored::Own(items) => items,
            Stored::Part(all, from, to) => &all[*from..*to],
        }
    }
}
