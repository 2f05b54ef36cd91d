//! Each status of the assembler, with its line and what is left at OBJ.

use crate::room::{Room, words_of};
use pc_assembler::{assemble, laws_of_the_assembler};
use pc_report::{Speaker, out_of_memory_line};
use std::alloc::Global;
use std::test::Fail;

/// It prints 7.
const SEVEN: &str =
    "limits of a row: 8 items, 3 tests, 2 loads and stores; arrays: none\nrow 0\n    print(7)\n    stop\n";

/// How long its object is.
const SEVEN_BYTES: usize = 21;

/// A call of the assembler: the words; the calls that fail, counted from 1, and 0 for none, of the shelf and the error
/// output; the status; and what the error output takes.
type Call = (&'static str, [u64; 2], u8, &'static str);

static CALLS: [Call; 8] = [
    ("a.rows -o o.tv", [0, 0], 0, ""),
    ("-o o.tv a.rows", [0, 0], 0, ""),
    ("", [0, 0], 2, "usage: pasm TEXT -o OBJ\n"),
    ("a.rows", [0, 0], 2, "usage: pasm TEXT -o OBJ\n"),
    ("b.rows -o o.tv", [0, 0], 3, "pasm: read failed: b.rows\n"),
    ("a.rows -o o.tv", [1, 0], 3, "pasm: read failed: a.rows\n"),
    ("a.rows -o o.tv", [2, 0], 5, "pasm: write failed: o.tv\n"),
    ("b.rows -o o.tv", [0, 1], 5, ""),
];

/// Whether the assembler, called with these words, ends with the status and the line that a call is to have, and leaves
/// an object exactly where it ends with 0.
fn ends_as(alloc: Global, words: &[String], room: &mut Room, wanted: &Call) -> bool {
    let (_, _, code, line) = *wanted;
    let status = assemble(alloc, words, &mut room.shelf, &mut room.err);
    let length = room.held("o.tv").map(|bytes| bytes.len());
    status == code
        && room.err.taken() == line.as_bytes()
        && (length == Some(SEVEN_BYTES)) == (code == 0)
}

/// Whether the assembler answers a call so.
fn answers(alloc: Global, wanted: &Call) -> Result<bool, Fail> {
    let (line, failing, _, _) = *wanted;
    let words = words_of(alloc, line)?;
    let mut room = Room::new(alloc, SEVEN.as_bytes(), failing)?;
    Ok(ends_as(alloc, words.as_slice(), &mut room, wanted))
}

#[test]
fn answers_each_call(rt: HostRuntime) -> Result<(), Fail> {
    for call in CALLS.iter() {
        assert!(rt; answers(rt.alloc(), call)?, "{}", call.0);
    }
    assert!(rt; out_of_memory_line(Speaker::Pasm) == b"pasm: out of memory\n".as_slice());
    laws_of_the_assembler();
    Ok(())
}
