//! What the assembler is called with.

use pc_outside::{CallList, MemoryShelf, MemorySink};
use std::alloc::{AllocError, Global};
use std::test::Fail;

/// The bytes that the error output may take here.
const ROOM: usize = 512;

/// A shelf and an error output.
#[derive(Drop)]
pub(crate) struct Room {
    pub(crate) shelf: MemoryShelf,
    pub(crate) err: MemorySink,
}

/// The calls that fail: this one alone, and none where it is 0.
fn only(alloc: Global, call: u64) -> Result<CallList, AllocError> {
    CallList::from_slice(alloc, &[call])
}

impl Room {
    /// A shelf with a text at `a.rows`, and an empty error output, of whose calls these fail.
    pub(crate) fn new(alloc: Global, text: &[u8], failing: [u64; 2]) -> Result<Room, Fail> {
        let mut shelf = MemoryShelf::new(alloc, only(alloc, failing[0])?);
        shelf.put(alloc, "a.rows", text)?;
        let err = MemorySink::new(alloc, ROOM, only(alloc, failing[1])?)?;
        Ok(Room { shelf, err })
    }

    /// The bytes of a file, where it is held.
    pub(crate) fn held(&self, name: &str) -> Option<&[u8]> {
        self.shelf.held(name)
    }
}

/// The words of a line.
pub(crate) fn words_of(alloc: Global, line: &str) -> Result<Vec<String>, AllocError> {
    let mut words = Vec::new(alloc);
    for word in line.split_ascii_whitespace() {
        words.push(word.to_string(alloc)?)?;
    }
    Ok(words)
}
