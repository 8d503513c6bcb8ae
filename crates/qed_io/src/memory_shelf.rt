//! A shelf in memory whose calls fail as planned.
ghost use Rattle.std.specs.Prelude.{◌≡◌, ◌≢◌, ◌↔◌, ◌⊎◌, List, ℕ, [], ◌∷◌, ◌++◌, Some, None, IsSome, IsSomeAnd, IfSome, IsErr, OnOk, OnErr, IsErrOf, find};
ghost use Rattle.std.specs.Prelude.{take, ◌==◌};
ghost use Rattle.std.specs.Option.{option_map};
ghost use Rattle.std.specs.FinMap as map;
ghost use Rattle.qed_io.specs.Counts.{CountsFaults, counted_up};
ghost use Rattle.qed_io.specs.Shelf.{Loads, Stores};
ghost use Rattle.qed_io.specs.Memory.{planned, files_left};

use crate::stored_files::StoredFiles;
use crate::{LoadError, Shelf, StoreError};
use elf_types::Bytes;
use std::alloc::{AllocError, Global};
use std::marker::Model;

// A call that is to fail, and how many bytes of the new file it leaves if it is a store.
#[derive(Clone, Copy)]
struct FailCall {
    call: u64,
    keep: Option<u64>,
}

/// Files in memory. A load of a name that is not there fails, as do the calls that `fail_call` names.
///
/// Loads and stores are counted together, from 0. The number stays at 2^64 - 1 once it is there. One counter
/// serves as the count of faults of each name, of loads and of stores.
#[derive(Drop)]
pub struct MemoryShelf {
    stored: StoredFiles,
    failing: Vec<FailCall>,
    calls: u64,
    faults: u64,
}

impl Model for MemoryShelf {
    ghost use Rattle.qed_io.specs.Memory.{ShelfState, shelf_code};

    ghost Value = { ShelfState };

    ghost coded = { shelf_code };

    ghost view = { λ s. record { files = s.stored; failing = s.failing.items; calls = s.calls; faults = s.faults } };
}

// The plan for a call, if it is to fail.
fn planned_failure(failing: &[FailCall], call: u64) -> Option<FailCall>
    ensures { result ≡ planned failing.now call }
{
    for plan in failing {
        if plan.call == call {
            return Some(*plan);
        }
    }
    None
}

/// The first `count` bytes, or all where there are fewer.
pub(crate) fn first_bytes(bytes: &[u8], count: u64) -> &[u8]
    ensures { result.now ≡ take count bytes.now }
{
    if count < bytes.len() as u64 {
        &bytes[..count as usize]
    } else {
        bytes
    }
}

impl MemoryShelf {
    /// No files, no faults, and no call that is to fail.
    pub fn new(alloc: Global) -> Self
        ensures { result ≡ record { files = map.empty; failing = []; calls = 0; faults = 0 } }
    {
        MemoryShelf {
            stored: StoredFiles::new(alloc),
            failing: Vec::new(alloc),
            calls: 0,
            faults: 0,
        }
    }

    /// Sets a file. This call has no number, and only memory can fail it.
    pub fn put_file(&mut self, name: &str, bytes: &[u8]) -> Result<(), AllocError>
        ensures ok { OnOk result (self.new ≡ record self.old { files = map.insert self.old.files name.now bytes.now }) }
        ensures err { OnErr result (self.new ≡ self.old) }
    {
        self.stored.set(name, bytes)
    }

    /// Lets the load or store with this number fail. A store that fails leaves the first `keep` bytes of the new
    /// file, all where it has fewer, or with `None` the old file. Of two plans for a number the first counts.
    pub fn fail_call(&mut self, call: u64, keep: Option<u64>) -> Result<(), AllocError>
        ensures ok { OnOk result (self.new ≡ record self.old { failing = self.old.failing ++ record { call = call; keep = keep } ∷ [] }) }
        ensures err { OnErr result (self.new ≡ self.old) }
    {
        self.failing.push(FailCall { call, keep })?;
        Ok(())
    }

    /// A file's bytes, if it is there.
    pub fn file(&self, name: &str) -> Option<&[u8]>
        ensures { option_map (λ bytes. bytes.now) result ≡ map.get self.now.files name.now }
    {
        self.stored.get(name)
    }
}

impl Shelf for MemoryShelf {
    ghost files = { λ s. Some s.files };

    ghost load_faults = { λ s _. s.faults };

    ghost store_faults = { λ s _. s.faults };

    fn load(&mut self, alloc: Global, name: &str, limit: u64) -> Result<Bytes, LoadError>
        ensures loads { Loads (Some self.old.files) (λ _. self.old.faults) (λ _. self.new.faults) name.now limit result }
        ensures files { Some self.new.files ≡ Some self.old.files }
        ensures stores { CountsFaults (IsErrOf result LoadError.Failed) (λ _. self.old.faults) (λ _. self.new.faults) }

        // It fails exactly if the call was planned to, or the file does not exist.
        ensures fails { IsErrOf result LoadError.Failed ↔ (IsSome (planned self.old.failing self.old.calls) ⊎ (map.get self.old.files name.now ≡ None)) }
        ensures counted { IsErrOf result LoadError.Failed → self.new.faults ≡ counted_up self.old.faults }
        ensures uncounted { result ≢ Err LoadError.Failed → self.new.faults ≡ self.old.faults }

        ensures calls { self.new.calls ≡ counted_up self.old.calls }
        ensures plans { self.new.failing ≡ self.old.failing }
    {
        let call = self.calls;
        self.calls = call.saturating_add(1);
        if planned_failure(&self.failing, call).is_some() {
            self.faults = self.faults.saturating_add(1);
            return Err(LoadError::Failed);
        }
        match self.stored.get(name) {
            Some(bytes) => {
                if bytes.len() as u64 > limit {
                    return Err(LoadError::TooLong);
                }
                Ok(Bytes::copied(alloc, bytes)?)
            }
            None => {
                self.faults = self.faults.saturating_add(1);
                Err(LoadError::Failed)
            }
        }
    }

    fn store(&mut self, name: &str, bytes: &[u8]) -> Result<(), StoreError>
        ensures stores { Stores (Some self.old.files) (Some self.new.files) (λ _. self.old.faults) (λ _. self.new.faults) name.now bytes.now result }
        ensures loads { CountsFaults (IsErrOf result StoreError.Failed) (λ _. self.old.faults) (λ _. self.new.faults) }

        // It fails only if the call was planned to, and leaves what the plan says. Such a call is never Ok, and if the
        // plan keeps nothing it takes no memory.
        ensures fails { IsErrOf result StoreError.Failed → IsSomeAnd (planned self.old.failing self.old.calls) (λ plan.
            self.new.files ≡ files_left plan.keep self.old.files name.now bytes.now) }
        ensures planned { IsSome (planned self.old.failing self.old.calls) → IsErr result }
        ensures kept_nothing { IfSome (planned self.old.failing self.old.calls) (λ plan. plan.keep ≡ None → result ≡ Err StoreError.Failed) }
        ensures counted { IsErrOf result StoreError.Failed → self.new.faults ≡ counted_up self.old.faults }
        ensures uncounted { result ≢ Err StoreError.Failed → self.new.faults ≡ self.old.faults }

        ensures calls { self.new.calls ≡ counted_up self.old.calls }
        ensures plans { self.new.failing ≡ self.old.failing }
    {
        let call = self.calls;
        self.calls = call.saturating_add(1);
        match planned_failure(&self.failing, call) {
            Some(plan) => {
                if let Some(keep) = plan.keep {
                    self.stored.set(name, first_bytes(bytes, keep))?;
                }
                self.faults = self.faults.saturating_add(1);
                Err(StoreError::Failed)
            }
            None => Ok(self.stored.set(name, bytes)?),
        }
    }
}
