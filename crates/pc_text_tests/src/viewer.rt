//! Each status of the viewer, with its line.

use crate::view::{SEVEN, SEVEN_GRAPH, SEVEN_LISTING};
use crate::words::words_of;
use pc_outside::{CallList, MemoryShelf, MemorySink};
use pc_viewer::{laws_of_the_viewer, view};
use std::alloc::{AllocError, Global};
use std::test::Fail;

/// The bytes that each output may take here.
const ROOM: usize = 512;

/// A call of the viewer: the words; the calls that fail, counted from 1, and 0 for none, of the shelf, the output and
/// the error output; the status; and what the outputs take.
type Call = (&'static str, [u64; 3], u8, &'static str, &'static str);

static CALLS: [Call; 10] = [
    ("o.tv", [0, 0, 0], 0, SEVEN_LISTING, ""),
    ("--dot o.tv", [0, 0, 0], 0, SEVEN_GRAPH, ""),
    ("", [0, 0, 0], 2, "", "usage: pview OBJ [--dot]\n"),
    ("o.tv --png", [0, 0, 0], 2, "", "usage: pview OBJ [--dot]\n"),
    ("p.tv", [0, 0, 0], 3, "", "pview: read failed: p.tv\n"),
    ("o.tv", [1, 0, 0], 3, "", "pview: read failed: o.tv\n"),
    ("bad.tv", [0, 0, 0], 4, "", "pview: object: bad magic\n"),
    (
        "short.tv",
        [0, 0, 0],
        4,
        "",
        "pview: object: truncated at offset 8\n",
    ),
    ("o.tv", [0, 1, 0], 5, "", "pview: write failed: output\n"),
    ("p.tv", [0, 0, 1], 5, "", ""),
];

/// The calls that fail: this one alone, and none where it is 0.
fn only(alloc: Global, call: u64) -> Result<CallList, AllocError> {
    CallList::from_slice(alloc, &[call])
}

/// A shelf with an object and two files that are none, of whose reads this one fails.
fn shelf_of_three(alloc: Global, failing: u64) -> Result<MemoryShelf, Fail> {
    let mut shelf = MemoryShelf::new(alloc, only(alloc, failing)?);
    shelf.put(alloc, "o.tv", &SEVEN)?;
    shelf.put(alloc, "bad.tv", b"PTV3")?;
    shelf.put(alloc, "short.tv", &SEVEN[..8])?;
    Ok(shelf)
}

/// What the viewer writes into.
#[derive(Drop)]
struct Outputs {
    out: MemorySink,
    err: MemorySink,
}

/// Two empty outputs, of whose writes these fail.
fn empty_outputs(alloc: Global, write: u64, tell: u64) -> Result<Outputs, Fail> {
    let out = MemorySink::new(alloc, ROOM, only(alloc, write)?)?;
    let err = MemorySink::new(alloc, ROOM, only(alloc, tell)?)?;
    Ok(Outputs { out, err })
}

/// Whether the viewer, called with these words, ends with the status and the texts that a call is to have.
fn ends_as(
    alloc: Global,
    words: &[String],
    shelf: &mut MemoryShelf,
    outputs: &mut Outputs,
    wanted: &Call,
) -> bool {
    let (_, _, code, out_text, err_text) = *wanted;
    let status = view(alloc, words, shelf, &mut outputs.out, &mut outputs.err);
    status == code
        && outputs.out.taken() == out_text.as_bytes()
        && outputs.err.taken() == err_text.as_bytes()
}

/// Whether the viewer answers a call so.
fn answers(alloc: Global, wanted: &Call) -> Result<bool, Fail> {
    let (line, [read, write, tell], _, _, _) = *wanted;
    let words = words_of(alloc, line)?;
    let mut shelf = shelf_of_three(alloc, read)?;
    let mut outputs = empty_outputs(alloc, write, tell)?;
    Ok(ends_as(alloc, words.as_slice(), &mut shelf, &mut outputs, wanted))
}

#[test]
fn answers_each_call(rt: HostRuntime) -> Result<(), Fail> {
    for call in CALLS.iter() {
        assert!(rt; answers(rt.alloc(), call)?, "{}", call.0);
    }
    laws_of_the_viewer();
    Ok(())
}
