//! Each status of the profiler, with its line.

use crate::view::{SUM_SHADED, SUM_TALLIED};
use crate::words::words_of;
use pc_outside::{CallList, MemoryShelf, MemorySink, MemorySource};
use pc_profiler::{laws_of_the_profiler, profile};
use pc_specimen::SUM;
use std::alloc::{AllocError, Global};
use std::test::Fail;

/// The bytes that each output may take here.
const ROOM: usize = 1024;

/// What the sum of three numbers costs.
const SUM_COST: &str = "\
cycles: 8\n\
ended by: stop\n\
items: 11; 1.37 a cycle; 17.18 % of 8 in a row\n\
tests passed: 4; 0.50 a cycle; 16.66 % of 3 in a row\n\
loads and stores: 0; 0.00 a cycle; 0.00 % of 2 in a row\n\
prints: 1\n\
reads: 3\n\
cycles that did nothing but copies: 0; 0.00 %\n\
rows that ran: 3 of 3\n\
row 1 ran: 4; 50.00 %\n\
row 2 ran: 3; 37.50 %\n\
row 0 ran: 1; 12.50 %\n";

/// What its first cycle costs.
const ONE_CYCLE: &str = "\
cycles: 1\n\
ended by: budget of cycles spent\n\
items: 1; 1.00 a cycle; 12.50 % of 8 in a row\n\
tests passed: 0; 0.00 a cycle; 0.00 % of 3 in a row\n\
loads and stores: 0; 0.00 a cycle; 0.00 % of 2 in a row\n\
prints: 0\n\
reads: 0\n\
cycles that did nothing but copies: 0; 0.00 %\n\
rows that ran: 1 of 3\n\
row 0 ran: 1; 100.00 %\n";

/// What its first two cycles did.
const TWO_CYCLES: &str = "\
cycle 1: row 0; r1 = 1\n\
cycle 2: row 1; yes; read r0 = 4\n";

/// The facts of the sum of three numbers.
const SUM_JSON: &str = "\
{\"copy_cycles\":0,\"cycles\":8,\"end\":{\"kind\":\"stop\"},\"items\":11,\
\"limits\":{\"items\":8,\"loads_and_stores\":2,\"tests\":3},\"loads_and_stores\":0,\"prints\":1,\"reads\":3,\
\"rows\":[{\"cycles\":1,\"leaves\":[1]},{\"cycles\":4,\"leaves\":[3,1]},{\"cycles\":3,\"leaves\":[3]}],\"tests\":4}\n";

/// A call of the profiler: the words; the input; the calls that fail, counted from 1, and 0 for none, of the shelf,
/// the input, the output and the error output; the status; and what the outputs take.
type Call = (
    &'static str,
    &'static str,
    [u64; 4],
    u8,
    &'static str,
    &'static str,
);

const NONE: [u64; 4] = [0, 0, 0, 0];

static CALLS: [Call; 16] = [
    ("o.tv", "4 8 -6", NONE, 0, SUM_COST, ""),
    ("o.tv --cycles 1", "4 8 -6", NONE, 0, ONE_CYCLE, ""),
    ("o.tv --rows", "4 8 -6", NONE, 0, SUM_TALLIED, ""),
    ("--dot o.tv", "4 8 -6", NONE, 0, SUM_SHADED, ""),
    ("o.tv --json", "4 8 -6", NONE, 0, SUM_JSON, ""),
    ("o.tv --trace 2", "4 8 -6", NONE, 0, TWO_CYCLES, ""),
    (
        "o.tv --trace 9 --cycles 2",
        "4 8 -6",
        NONE,
        0,
        TWO_CYCLES,
        "",
    ),
    ("", "4", NONE, 2, "", USAGE),
    ("o.tv --dot --rows", "4", NONE, 2, "", USAGE),
    ("p.tv", "4", NONE, 3, "", "pstat: read failed: p.tv\n"),
    (
        "o.tv",
        "4",
        [1, 0, 0, 0],
        3,
        "",
        "pstat: read failed: o.tv\n",
    ),
    (
        "o.tv",
        "4",
        [0, 1, 0, 0],
        3,
        "",
        "pstat: read failed: input\n",
    ),
    ("bad.tv", "x", NONE, 4, "", "pstat: object: bad magic\n"),
    (
        "o.tv",
        "4 x",
        NONE,
        4,
        "",
        "pstat: input: not a number at offset 2\n",
    ),
    (
        "o.tv",
        "4",
        [0, 0, 1, 0],
        5,
        "",
        "pstat: write failed: output\n",
    ),
    ("p.tv", "4", [0, 0, 0, 1], 5, "", ""),
];

const USAGE: &str = "usage: pstat OBJ [--cycles N] [--rows | --trace N | --dot | --json]\n";

/// The calls that fail: this one alone, and none where it is 0.
fn only(alloc: Global, call: u64) -> Result<CallList, AllocError> {
    CallList::from_slice(alloc, &[call])
}

/// A shelf with an object and a file that is none, of whose reads this one fails.
fn shelf_of_two(alloc: Global, failing: u64) -> Result<MemoryShelf, Fail> {
    let mut shelf = MemoryShelf::new(alloc, only(alloc, failing)?);
    shelf.put(alloc, "o.tv", &SUM)?;
    shelf.put(alloc, "bad.tv", b"PTV3")?;
    Ok(shelf)
}

/// The streams of the profiler.
#[derive(Drop)]
struct Streams {
    input: MemorySource,
    out: MemorySink,
    err: MemorySink,
}

/// An input and two empty outputs, of whose calls these fail.
fn streams_of(alloc: Global, input: &str, failing: [u64; 4]) -> Result<Streams, Fail> {
    let [_, read, write, tell] = failing;
    let input = MemorySource::new(input.as_bytes().to_vec(alloc)?, only(alloc, read)?);
    let out = MemorySink::new(alloc, ROOM, only(alloc, write)?)?;
    let err = MemorySink::new(alloc, ROOM, only(alloc, tell)?)?;
    Ok(Streams { input, out, err })
}

/// Whether the profiler, called with these words, ends with the status and the texts that a call is to have.
fn ends_as(
    alloc: Global,
    words: &[String],
    shelf: &mut MemoryShelf,
    streams: &mut Streams,
    wanted: &Call,
) -> bool {
    let (_, _, _, code, out_text, err_text) = *wanted;
    let Streams { input, out, err } = streams;
    let status = profile(alloc, words, shelf, input, out, err);
    status == code && out.taken() == out_text.as_bytes() && err.taken() == err_text.as_bytes()
}

/// Whether the profiler answers a call so.
fn answers(alloc: Global, wanted: &Call) -> Result<bool, Fail> {
    let (line, input, failing, _, _, _) = *wanted;
    let words = words_of(alloc, line)?;
    let mut shelf = shelf_of_two(alloc, failing[0])?;
    let mut streams = streams_of(alloc, input, failing)?;
    Ok(ends_as(alloc, words.as_slice(), &mut shelf, &mut streams, wanted))
}

#[test]
fn answers_each_call(rt: HostRuntime) -> Result<(), Fail> {
    for call in CALLS.iter() {
        assert!(rt; answers(rt.alloc(), call)?, "{}", call.0);
    }
    laws_of_the_profiler();
    Ok(())
}
