//! Files that are read whole, and a line that is sent.

use pc_driver::{FileError, read_whole, send_line};
use pc_outside::{CallList, MemoryShelf, MemorySink};
use pc_word::MOST_OBJECT;
use std::alloc::Global;
use std::test::Fail;

/// The bytes of a file.
const THREE: &[u8] = b"abc";

/// A line.
const LINE: &[u8] = b"a line\n";

/// Reads of a file of three bytes: the name, how many bytes it may have, the read that fails, counted from 1, and 0 for
/// none; and the error.
static READS: [(&str, usize, u64, Option<FileError>); 5] = [
    ("three", 3, 0, None),
    ("three", 4, 0, None),
    ("three", 2, 0, Some(FileError::TooLong)),
    ("none", 3, 0, Some(FileError::Failed)),
    ("three", 3, 1, Some(FileError::Failed)),
];

/// Whether a file is read so.
fn reads(
    alloc: Global,
    name: &str,
    most: usize,
    failing: u64,
    wanted: Option<FileError>,
) -> Result<bool, Fail> {
    if most > MOST_OBJECT {
        return Ok(false);
    }
    let mut shelf = MemoryShelf::new(alloc, CallList::from_slice(alloc, &[failing])?);
    shelf.put(alloc, "three", THREE)?;
    match read_whole(alloc, name, most, &mut shelf) {
        Ok(text) => Ok(wanted.is_none() && text.as_slice() == THREE),
        Err(error) => Ok(wanted == Some(error)),
    }
}

#[test]
fn reads_files_whole(rt: HostRuntime) -> Result<(), Fail> {
    for (name, most, failing, wanted) in READS.iter() {
        assert!(rt;
            reads(rt.alloc(), name, *most, *failing, *wanted)?,
            "{most}"
        );
    }
    Ok(())
}

#[test]
fn sends_a_line_with_its_status(rt: HostRuntime) -> Result<(), Fail> {
    let alloc = rt.alloc();
    let mut err = MemorySink::new(alloc, 16, CallList::from_slice(alloc, &[0])?)?;
    assert!(rt; send_line(LINE, 4, &mut err) == 4);
    assert!(rt; err.taken() == LINE);
    let mut full = MemorySink::new(alloc, 16, CallList::from_slice(alloc, &[1])?)?;
    assert!(rt; send_line(LINE, 4, &mut full) == 5);
    Ok(())
}
