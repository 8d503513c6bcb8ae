//! Files in memory, by their names.
ghost use Rattle.std.specs.Prelude.{◌≡◌, OnOk, OnErr};
ghost use Rattle.std.specs.Option.{option_map};
ghost use Rattle.std.specs.FinMap as map;
ghost use Rattle.qed_io.specs.Files.{Files};

use elf_types::Bytes;
use std::alloc::{AllocError, Global};
use std::collections::BTreeMap;
use std::marker::Model;

// What both shelves in memory keep.
#[derive(Drop)]
pub struct StoredFiles {
    alloc: Global,
    by_name: BTreeMap<String, Bytes>,
}

impl Model for StoredFiles {
    ghost use Rattle.std.specs.FinMap as map;
    ghost use Rattle.std.specs.Coded.{coded_list, coded_ℕ};
    ghost use Rattle.qed_io.specs.Files.{Files, files_of};

    ghost Value = { Files };

    ghost coded = { map.code (coded_list coded_ℕ) (coded_list coded_ℕ) };

    ghost view = { λ s. files_of s.by_name.entries };
}

impl StoredFiles {
    pub fn new(alloc: Global) -> Self
        ensures { result ≡ map.empty }
    {
        StoredFiles {
            alloc,
            by_name: BTreeMap::new(alloc),
        }
    }

    pub fn get(&self, name: &str) -> Option<&[u8]>
        ensures { option_map (λ bytes. bytes.now) result ≡ map.get self.now name.now }
    {
        match self.by_name.get(name) {
            Some(bytes) => Some(bytes.as_slice()),
            None => None,
        }
    }

    pub fn set(&mut self, name: &str, bytes: &[u8]) -> Result<(), AllocError>
        ensures ok { OnOk result (self.new ≡ map.insert self.old name.now bytes.now) }
        ensures err { OnErr result (self.new ≡ self.old) }
    {
        let kept = Bytes::copied(self.alloc, bytes)?;
        self.by_name
            .insert(String::from_str(self.alloc, name)?, kept)?;
        Ok(())
    }
}
