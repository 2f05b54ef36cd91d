//! Files in memory.
ghost use Rattle.std.specs.Prelude.{◌≡◌, take, OnOk, OnErr};
ghost use Rattle.std.specs.Option.{option_copied};
ghost use Rattle.std.specs.FinMap as map;

use std::alloc::{AllocError, Global};
use std::collections::BTreeMap;
use std::marker::Model;

/// The bytes of files, by name.
#[derive(Drop)]
pub(crate) struct HeldFiles {
    by_name: BTreeMap<String, Vec<u8>>,
}

impl Model for HeldFiles {
    ghost use Rattle.pc_outside.specs.Shelf.{Files};
    ghost use Rattle.pc_outside.specs.models.Files.{files_of};
    ghost use Rattle.pc_outside.specs.models.Stored.{files_code};

    ghost Value = { Files };

    ghost coded = { files_code };

    ghost view = { λ a. files_of a.by_name };
}

impl HeldFiles {
    ghost use Rattle.std.specs.Prelude.{string_bytes};

    /// No file.
    pub(crate) fn new(alloc: Global) -> HeldFiles
        ensures { result ≡ map.empty }
    {
        HeldFiles {
            by_name: BTreeMap::new(alloc),
        }
    }

    /// The bytes of a file, where it is held.
    pub(crate) fn get(&self, name: &str) -> Option<&[u8]>
        ensures { option_copied result ≡ map.get self.now name.now }
    {
        match self.by_name.get(name) {
            Some(bytes) => Some(bytes.as_slice()),
            None => None,
        }
    }

    /// Makes the file with this name exactly these bytes.
    pub(crate) fn put(
        &mut self,
        alloc: Global,
        name: String,
        bytes: &[u8],
    ) -> Result<(), AllocError>
        ensures ok { OnOk result (self.new ≡ map.insert self.old (string_bytes name) bytes.now) }
        ensures err { OnErr result (self.new ≡ self.old) }
    {
        let copied = Vec::from_slice(alloc, bytes)?;
        self.by_name.insert(name, copied)?;
        Ok(())
    }
}

/// The first `most` of some bytes, or all of fewer.
pub(crate) fn first(bytes: &[u8], most: usize) -> &[u8]
    ensures { result.now ≡ take most bytes.now }
{
    &bytes[..most.min(bytes.len())]
}
