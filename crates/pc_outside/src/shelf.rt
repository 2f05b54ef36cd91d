//! Shelves of files with names.
ghost use Rattle.std.specs.Prelude.{◌≡◌, IfOk, OnOk, IsErrOf};
ghost use Rattle.pc_outside.specs.Shelf.{Shelved, ReadFaultOf, WriteFaultOf, ReadKeeps, WriteKeeps, GivesFile, HoldsFile};

use crate::error::ShelfError;
use std::alloc::Global;

/// Files by their names.
///
/// Reads and writes each have a count of faults. Beside it stands the name of the call that failed
/// last, so an implementation copies the name before it does anything else.
pub trait Shelf {
    /// What it holds, where it tells, and its faults.
    ghost state: { Self → Shelved };

    /// The first `most` bytes of a file, or the whole of a shorter one. A name that is not held is a
    /// failure.
    fn read_file(&mut self, alloc: Global, name: &str, most: usize) -> Result<Vec<u8>, ShelfError>
        ensures keeps { ReadKeeps (state self.old) (state self.new) }
        ensures file { IfOk result (λ bytes. GivesFile (state self.old).held name.now most bytes.items) }
        ensures fault { IsErrOf result ShelfError.Failed → ReadFaultOf (state self.old) (state self.new) name.now }

        // The name beside the count is that of the last call that failed.
        ensures same_name { OnOk result ((state self.new).read_name ≡ (state self.old).read_name) }
        ensures memory { IsErrOf result ShelfError.Memory → (state self.new).read_name ≡ (state self.old).read_name };

    /// Makes the named file exactly these bytes, whether it was held or not. After a refusal it may
    /// hold anything or be gone.
    fn write_file(&mut self, alloc: Global, name: &str, bytes: &[u8]) -> Result<(), ShelfError>
        ensures keeps { WriteKeeps (state self.old) (state self.new) name.now }
        ensures file { OnOk result (HoldsFile (state self.old).held (state self.new).held name.now bytes.now) }
        ensures fault { IsErrOf result ShelfError.Failed → WriteFaultOf (state self.old) (state self.new) name.now }

        // The name beside the count is that of the last call that failed.
        ensures same_name { OnOk result ((state self.new).write_name ≡ (state self.old).write_name) }
        ensures memory { IsErrOf result ShelfError.Memory → (state self.new).write_name ≡ (state self.old).write_name };
}
