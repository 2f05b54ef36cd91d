//! Whole files of the shelf.
ghost use Rattle.std.specs.Prelude.{◌≤◌, length, MatchResult, IfOk};
ghost use Rattle.pc_outside.specs.Shelf.{ReadKeeps};
ghost use Rattle.pc_driver.specs.Files.{HasText, RefusesFile};
ghost use Rattle.pc_word.specs.MachineLimits.{most_object};

use pc_outside::{Shelf, ShelfError};
use std::alloc::Global;
use thiserror::Error;

/// Why a file was not read whole.
#[derive(Clone, Copy, Debug, PartialEq, Eq, Error)]
pub enum FileError {
    /// The shelf failed.
    #[error("the shelf failed")]
    Failed,
    /// It has more bytes than it may.
    #[error("the file has more bytes than it may")]
    TooLong,
    /// Memory ran out.
    #[error("out of memory")]
    Memory,
}

/// The text of a file that may have at most `most` bytes.
pub fn read_whole<H: Shelf>(
    alloc: Global,
    name: &str,
    most: usize,
    shelf: &mut H,
) -> Result<Vec<u8>, FileError>
    requires { most ≤ most_object }
    ensures keeps { ReadKeeps (H.state shelf.old) (H.state shelf.new) }
    ensures few { IfOk result (λ text. length text.items ≤ most) }
    ensures text { MatchResult result
        (λ text. HasText (H.state shelf.old).held name.now text.items)
        (λ error. RefusesFile error name.now most (H.state shelf.old) (H.state shelf.new)) }
{
    match shelf.read_file(alloc, name, most + 1) {
        Ok(text) if text.len() > most => Err(FileError::TooLong),
        Ok(text) => Ok(text),
        Err(ShelfError::Failed) => Err(FileError::Failed),
        Err(ShelfError::Memory) => Err(FileError::Memory),
    }
}
