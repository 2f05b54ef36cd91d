//! A real folder as a shelf. It tells no contents.
ghost use Rattle.std.specs.Prelude.{◌≤◌, length, None, IfOk};

use crate::error::ShelfError;
use crate::named_faults::NamedFaults;
use crate::shelf::Shelf;
use crate::std_stream::{StdSink, StdSource};
use crate::transfer::{send, take_all};
use std::alloc::Global;
use std::fs::File;
use std::io;
use std::path::Path;
use std::rt::Files;

/// The files of a folder, by their paths from there.
#[derive(Drop)]
pub struct DirShelf<R> {
    system: R,
    folder: String,
    reads: NamedFaults,
    writes: NamedFaults,
}

impl<R: Files> DirShelf<R> {
    /// The shelf over a folder; the empty path stands for the working folder.
    pub fn new(alloc: Global, system: R, folder: String) -> DirShelf<R> {
        DirShelf {
            system,
            folder,
            reads: NamedFaults::new(alloc),
            writes: NamedFaults::new(alloc),
        }
    }

    /// The first bytes of a file.
    fn read(&self, alloc: Global, name: &str, most: usize) -> Result<Vec<u8>, ShelfError>
        ensures { IfOk result (λ bytes. length bytes.items ≤ most) }
    {
        let path = Path::new(self.folder.as_str()).join(alloc, name)?;
        let file = File::open(&self.system, path).map_err(shelf_error)?;
        let bytes = take_all(alloc, &mut StdSource::new(file), most)?;
        Ok(bytes)
    }

    /// Makes a file anew, or empties the one that is there, and gives it exactly these bytes.
    fn write(&self, alloc: Global, name: &str, bytes: &[u8]) -> Result<(), ShelfError> {
        let path = Path::new(self.folder.as_str()).join(alloc, name)?;
        let file = File::create(&self.system, path).map_err(shelf_error)?;
        send(&mut StdSink::new(file), bytes)?;
        Ok(())
    }
}

/// What an error of the system is to a shelf.
fn shelf_error(error: io::Error) -> ShelfError {
    if error.kind() == io::ErrorKind::OutOfMemory {
        ShelfError::Memory
    } else {
        ShelfError::Failed
    }
}

impl<R: Files> Shelf for DirShelf<R> {
    ghost state = { λ s. record {
      held = None;
      read_faults = s.reads.count;
      read_name = s.reads.name;
      write_faults = s.writes.count;
      write_name = s.writes.name;
    } };

    fn read_file(&mut self, alloc: Global, name: &str, most: usize) -> Result<Vec<u8>, ShelfError> {
        let copied = String::from_str(alloc, name)?;
        let answer = self.read(alloc, name, most);
        if let Err(ShelfError::Failed) = answer {
            self.reads.add(copied);
        }
        answer
    }

    fn write_file(&mut self, alloc: Global, name: &str, bytes: &[u8]) -> Result<(), ShelfError> {
        let copied = String::from_str(alloc, name)?;
        let answer = self.write(alloc, name, bytes);
        if let Err(ShelfError::Failed) = answer {
            self.writes.add(copied);
        }
        answer
    }
}
