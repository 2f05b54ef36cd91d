//! A shelf in memory, some of whose calls fail on purpose.
ghost use Rattle.std.specs.Prelude.{◌≡◌, ◌⊎◌, [], Some, IfOk, OnOk, OnErr, IsErrOf, false, true};
ghost use Rattle.std.specs.Option.{option_copied};
ghost use Rattle.std.specs.FinMap as map;
ghost use Rattle.pc_word.specs.Count.{one_more};
ghost use Rattle.pc_outside.specs.InMemory.{shelved, read_fails, next_is_listed};
ghost use Rattle.pc_outside.specs.Shelf.{ReadFaultOf, WriteFaultOf, ReadKeeps, WriteKeeps, GivesFile, HoldsFile};

use crate::CallList;
use crate::calls::Calls;
use crate::error::{OutsideError, ShelfError};
use crate::files::{HeldFiles, first};
use crate::named_faults::NamedFaults;
use crate::shelf::Shelf;
use std::alloc::Global;
use std::marker::Model;

/// A shelf in memory. It counts its reads and writes together from 1, and those that are listed fail,
/// as do the reads of names that it does not hold.
#[derive(Drop)]
pub struct MemoryShelf {
    files: HeldFiles,
    reads: NamedFaults,
    writes: NamedFaults,
    calls: Calls,
}

impl Model for MemoryShelf {
    ghost use Rattle.pc_outside.specs.InMemory.{ShelfState};
    ghost use Rattle.pc_outside.specs.models.Stored.{shelf_code};

    ghost Value = { ShelfState };

    ghost coded = { shelf_code };

    ghost view = { λ a. record {
      files = a.files;
      read_faults = a.reads.count;
      read_name = a.reads.name;
      write_faults = a.writes.count;
      write_name = a.writes.name;
      calls = a.calls.count;
      failing = a.calls.failing;
    } };
}

impl MemoryShelf {
    /// A shelf that holds no file, whose calls with these numbers fail.
    pub fn new(alloc: Global, failing: CallList) -> MemoryShelf
        ensures { result ≡ record {
          files = map.empty;
          read_faults = 0;
          read_name = [];
          write_faults = 0;
          write_name = [];
          calls = 0;
          failing = failing;
        } }
    {
        MemoryShelf {
            files: HeldFiles::new(alloc),
            reads: NamedFaults::new(alloc),
            writes: NamedFaults::new(alloc),
            calls: Calls::new(failing),
        }
    }

    /// Makes the named file exactly these bytes. It counts as no call.
    pub fn put(&mut self, alloc: Global, name: &str, bytes: &[u8]) -> Result<(), OutsideError>
        ensures ok { OnOk result (self.new ≡ record self.old { files = map.insert self.old.files name.now bytes.now }) }
        ensures err { OnErr result (self.new ≡ self.old) }
    {
        self.files
            .put(alloc, String::from_str(alloc, name)?, bytes)?;
        Ok(())
    }

    /// The bytes of a file, where it is held.
    pub fn held(&self, name: &str) -> Option<&[u8]>
        ensures { option_copied result ≡ map.get self.now.files name.now }
    {
        self.files.get(name)
    }
}

impl Shelf for MemoryShelf {
    ghost state = { shelved };

    fn read_file(&mut self, alloc: Global, name: &str, most: usize) -> Result<Vec<u8>, ShelfError>
        ensures keeps { ReadKeeps (shelved self.old) (shelved self.new) }
        ensures file { IfOk result (λ bytes. GivesFile (Some self.old.files) name.now most bytes.items) }
        ensures fault { IsErrOf result ShelfError.Failed → ReadFaultOf (shelved self.old) (shelved self.new) name.now }
        ensures same_name { OnOk result (self.new.read_name ≡ self.old.read_name) }
        ensures memory { IsErrOf result ShelfError.Memory → self.new.read_name ≡ self.old.read_name }

        // Want of memory aside, a read fails exactly where its number is listed or the name is not held.
        ensures sound { OnOk result (read_fails self.old name.now ≡ false) }
        ensures failed { IsErrOf result ShelfError.Failed → read_fails self.old name.now ≡ true }

        ensures after { OnOk result (self.new ≡ record self.old { calls = one_more self.old.calls }) }
        ensures refused { IsErrOf result ShelfError.Failed → self.new ≡ record self.old {
          read_faults = one_more self.old.read_faults;
          read_name = name.now;
          calls = one_more self.old.calls;
        } }
        // Want of memory for the name comes before all else; for the bytes, only where the read is sound.
        ensures lacked { IsErrOf result ShelfError.Memory → (self.new ≡ self.old)
            ⊎ ((read_fails self.old name.now ≡ false) × (self.new ≡ record self.old { calls = one_more self.old.calls })) }
    {
        let copied = String::from_str(alloc, name)?;
        if !self.calls.next_fails() {
            if let Some(bytes) = self.files.get(name) {
                return Ok(Vec::from_slice(alloc, first(bytes, most))?);
            }
        }
        self.reads.add(copied);
        Err(ShelfError::Failed)
    }

    fn write_file(&mut self, alloc: Global, name: &str, bytes: &[u8]) -> Result<(), ShelfError>
        ensures keeps { WriteKeeps (shelved self.old) (shelved self.new) name.now }
        ensures file { OnOk result (HoldsFile (Some self.old.files) (Some self.new.files) name.now bytes.now) }
        ensures fault { IsErrOf result ShelfError.Failed → WriteFaultOf (shelved self.old) (shelved self.new) name.now }
        ensures same_name { OnOk result (self.new.write_name ≡ self.old.write_name) }
        ensures memory { IsErrOf result ShelfError.Memory → self.new.write_name ≡ self.old.write_name }

        // Want of memory aside, a write fails exactly where its number is listed.
        ensures sound { OnOk result (next_is_listed self.old.failing self.old.calls ≡ false) }
        ensures failed { IsErrOf result ShelfError.Failed → next_is_listed self.old.failing self.old.calls ≡ true }

        ensures after { OnOk result (self.new ≡ record self.old {
          files = map.insert self.old.files name.now bytes.now;
          calls = one_more self.old.calls;
        }) }
        ensures refused { IsErrOf result ShelfError.Failed → self.new ≡ record self.old {
          write_faults = one_more self.old.write_faults;
          write_name = name.now;
          calls = one_more self.old.calls;
        } }
        // Want of memory for the name comes before all else; for the bytes, only where the write is sound.
        ensures lacked { IsErrOf result ShelfError.Memory → (self.new ≡ self.old)
            ⊎ ((next_is_listed self.old.failing self.old.calls ≡ false)
            × (self.new ≡ record self.old { calls = one_more self.old.calls })) }
    {
        let key = String::from_str(alloc, name)?;
        if self.calls.next_fails() {
            self.writes.add(key);
            return Err(ShelfError::Failed);
        }
        self.files.put(alloc, key, bytes)?;
        Ok(())
    }
}
