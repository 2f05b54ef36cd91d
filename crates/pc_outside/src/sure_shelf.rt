//! A shelf in memory that fails on no list.
ghost use Rattle.std.specs.Prelude.{◌≡◌, [], Some, IfOk, OnOk, OnErr, IsErrOf, IsSome, IsNone};
ghost use Rattle.std.specs.Option.{option_copied};
ghost use Rattle.std.specs.FinMap as map;
ghost use Rattle.pc_word.specs.Count.{one_more};
ghost use Rattle.pc_outside.specs.InMemory.{sure_shelved};
ghost use Rattle.pc_outside.specs.Shelf.{ReadFaultOf, WriteFaultOf, ReadKeeps, WriteKeeps, GivesFile, HoldsFile};

use crate::error::{OutsideError, ShelfError};
use crate::files::{HeldFiles, first};
use crate::named_faults::NamedFaults;
use crate::shelf::Shelf;
use std::alloc::Global;
use std::marker::Model;

/// A shelf in memory. A read fails exactly where the name is not held, and no write fails.
#[derive(Drop)]
pub struct SureShelf {
    files: HeldFiles,
    reads: NamedFaults,
}

impl Model for SureShelf {
    ghost use Rattle.pc_outside.specs.InMemory.{SureShelfState};
    ghost use Rattle.pc_outside.specs.models.Stored.{sure_shelf_code};

    ghost Value = { SureShelfState };

    ghost coded = { sure_shelf_code };

    ghost view = { λ a. record { files = a.files; read_faults = a.reads.count; read_name = a.reads.name } };
}

impl SureShelf {
    /// A shelf that holds no file.
    pub fn new(alloc: Global) -> SureShelf
        ensures { result ≡ record { files = map.empty; read_faults = 0; read_name = [] } }
    {
        SureShelf {
            files: HeldFiles::new(alloc),
            reads: NamedFaults::new(alloc),
        }
    }

    /// Makes the named file exactly these bytes.
    pub fn put(&mut self, alloc: Global, name: &str, bytes: &[u8]) -> Result<(), OutsideError>
        ensures ok { OnOk result (self.new ≡ record self.old { files = map.insert self.old.files name.now bytes.now }) }
        ensures err { OnErr result (self.new ≡ self.old) }
    {
        self.files
            .put(alloc, String::from_str(alloc, name)?, bytes)?;
        Ok(())
    }

    /// The bytes of a file, where it is held.
    pub fn held(&self, name: &str) -> Option<&[u8]>
        ensures { option_copied result ≡ map.get self.now.files name.now }
    {
        self.files.get(name)
    }
}

impl Shelf for SureShelf {
    ghost state = { sure_shelved };

    fn read_file(&mut self, alloc: Global, name: &str, most: usize) -> Result<Vec<u8>, ShelfError>
        ensures keeps { ReadKeeps (sure_shelved self.old) (sure_shelved self.new) }
        ensures file { IfOk result (λ bytes. GivesFile (Some self.old.files) name.now most bytes.items) }
        ensures fault { IsErrOf result ShelfError.Failed → ReadFaultOf (sure_shelved self.old) (sure_shelved self.new) name.now }
        ensures same_name { OnOk result (self.new.read_name ≡ self.old.read_name) }
        ensures memory { IsErrOf result ShelfError.Memory → self.new.read_name ≡ self.old.read_name }

        // Want of memory aside, a read fails exactly where the name is not held.
        ensures sound { OnOk result (IsSome (map.get self.old.files name.now)) }
        ensures failed { IsErrOf result ShelfError.Failed → IsNone (map.get self.old.files name.now) }

        ensures after { OnOk result (self.new ≡ self.old) }
        ensures refused { IsErrOf result ShelfError.Failed → self.new ≡ record self.old {
          read_faults = one_more self.old.read_faults;
          read_name = name.now;
        } }
        ensures lacked { IsErrOf result ShelfError.Memory → self.new ≡ self.old }
    {
        let copied = String::from_str(alloc, name)?;
        if let Some(bytes) = self.files.get(name) {
            return Ok(Vec::from_slice(alloc, first(bytes, most))?);
        }
        self.reads.add(copied);
        Err(ShelfError::Failed)
    }

    fn write_file(&mut self, alloc: Global, name: &str, bytes: &[u8]) -> Result<(), ShelfError>
        ensures keeps { WriteKeeps (sure_shelved self.old) (sure_shelved self.new) name.now }
        ensures file { OnOk result (HoldsFile (Some self.old.files) (Some self.new.files) name.now bytes.now) }
        ensures fault { IsErrOf result ShelfError.Failed → WriteFaultOf (sure_shelved self.old) (sure_shelved self.new) name.now }
        ensures same_name { OnOk result ((sure_shelved self.new).write_name ≡ (sure_shelved self.old).write_name) }
        ensures memory { IsErrOf result ShelfError.Memory → (sure_shelved self.new).write_name ≡ (sure_shelved self.old).write_name }

        // No write fails.
        ensures sure { OnErr result (result ≡ Err ShelfError.Memory) }
        ensures after { OnOk result (self.new ≡ record self.old { files = map.insert self.old.files name.now bytes.now }) }
        ensures lacked { OnErr result (self.new ≡ self.old) }
    {
        let key = String::from_str(alloc, name)?;
        self.files.put(alloc, key, bytes)?;
        Ok(())
    }
}
