//! Both programs over an outside in memory.
ghost use Rattle.std.specs.Prelude.{IfOk, IfSome};
ghost use Rattle.pc_object.specs.ObjectText.{IsObject, object_of};

use pc_compile::Compiled;
use pc_outside::{CallList, MemoryShelf, MemorySink, MemorySource, SlowSink, SlowSource};
use pc_pass::Pass;
use pc_tool::{Who, tool};
use std::alloc::{AllocError, Global};
use std::test::Fail;

/// The object of a program that prints 7.
pub(crate) const SEVEN_OBJECT: &[u8] =
    b"PTV1\x08\x03\x02\x00\x00\x00\x00\x01\x24\x01\x00\x00\x00\x07\x02\x00\x00";

/// Two names that change places in each turn.
pub(crate) const EXCHANGE: &[u8] =
    b"int main(void){int i;int t;int x=1;int y=2;\nfor(i=0;i<5;i++){t=x;x=y;y=t;print(x);}}";

/// The same in all turns but one.
pub(crate) const EXCHANGE_MOSTLY: &[u8] =
    b"int main(void){int i;int x=1;int y=2;int t;for(i=0;i<5;i++){if(i!=2){t=x;x=y;y=t;}print(x);}}";

/// A static array with data, of which one is negative and two are 0 at the end.
pub(crate) const SOME_DATA: &[u8] =
    b"int main(void){static int a[4]={5,-6,0,0};print(a[0]+a[1]+a[3]);}";

/// A static array whose values are 0, so that it has no data.
pub(crate) const NO_DATA: &[u8] = b"int main(void){static int a[2]={0};print(a[1]);}";

/// Two loops over arrays.
pub(crate) const DOT_PRODUCT: &[u8] = b"int main(void){int a[100];int b[100];int i;int s=0;\n\
    for(i=0;i<100;i++){a[i]=i;b[i]=i+1;}\nfor(i=0;i<100;i++)s=s+a[i]*b[i];\nprint(s);return 0;}";

/// The bytes that each output of a program may take here.
const ROOM: usize = 512;

/// The calls that fail, counted from 1, and 0 for none: of the shelf, the input, the output and the error
/// output.
#[derive(Clone, Copy)]
pub(crate) struct Failing {
    pub(crate) shelf: u64,
    pub(crate) input: u64,
    pub(crate) out: u64,
    pub(crate) err: u64,
}

/// No call fails.
pub(crate) const NONE_FAILS: Failing = Failing {
    shelf: 0,
    input: 0,
    out: 0,
    err: 0,
};

/// What a call of a program is to leave: its status, and what its two outputs take.
#[derive(Clone, Copy)]
pub(crate) struct Wanted<'a> {
    pub(crate) code: u8,
    pub(crate) out: &'a [u8],
    pub(crate) err: &'a str,
}

/// Success, without a word.
pub(crate) const SILENCE: Wanted<'static> = Wanted {
    code: 0,
    out: b"",
    err: "",
};

/// The words of a line.
fn words_of(alloc: Global, line: &str) -> Result<Vec<String>, AllocError> {
    let mut words = Vec::new(alloc);
    for word in line.split_ascii_whitespace() {
        words.push(word.to_string(alloc)?)?;
    }
    Ok(words)
}

/// The calls that fail: this one alone, and none where it is 0.
fn only(alloc: Global, call: u64) -> Result<CallList, AllocError> {
    CallList::from_slice(alloc, &[call])
}

/// The shelf with this file, of whose reads and writes, counted together from 1, this one fails.
pub(crate) fn shelf_with(
    alloc: Global,
    name: &str,
    text: &[u8],
    failing: u64,
) -> Result<MemoryShelf, Fail> {
    let mut shelf = MemoryShelf::new(alloc, only(alloc, failing)?);
    shelf.put(alloc, name, text)?;
    Ok(shelf)
}

/// Whether a shelf holds exactly these bytes under a name.
pub(crate) fn holds(shelf: &MemoryShelf, name: &str, bytes: &[u8]) -> bool {
    match shelf.held(name) {
        Some(held) => held == bytes,
        None => false,
    }
}

/// Whether a program, called with the words of a line and without passes, leaves what it is to.
pub(crate) fn answers(
    alloc: Global,
    who: Who,
    line: &str,
    shelf: &mut MemoryShelf,
    input: &[u8],
    failing: Failing,
    wanted: Wanted,
) -> Result<bool, Fail> {
    let mut passes = Vec::new(alloc);
    answers_with(alloc, who, line, &mut passes, shelf, input, failing, wanted)
}

/// The streams of a program.
#[derive(Drop)]
struct Streams {
    input: MemorySource,
    out: MemorySink,
    err: MemorySink,
}

/// The streams of a program that has this input, of whose calls these fail.
fn streams_of(alloc: Global, input: &[u8], failing: Failing) -> Result<Streams, Fail> {
    let input = Vec::from_slice(alloc, input)?;
    let input = MemorySource::new(input, only(alloc, failing.input)?);
    let out = MemorySink::new(alloc, ROOM, only(alloc, failing.out)?)?;
    let err = MemorySink::new(alloc, ROOM, only(alloc, failing.err)?)?;
    Ok(Streams { input, out, err })
}

/// Whether a program over these streams leaves what it is to.
fn leaves(
    alloc: Global,
    who: Who,
    words: &[String],
    passes: &mut Vec<Box<dyn Pass>>,
    shelf: &mut MemoryShelf,
    streams: &mut Streams,
    wanted: Wanted,
) -> bool {
    let status = tool(
        alloc,
        who,
        words,
        passes,
        shelf,
        &mut streams.input,
        &mut streams.out,
        &mut streams.err,
    );
    status.code == wanted.code
        && streams.out.taken() == wanted.out
        && streams.err.taken() == wanted.err.as_bytes()
}

/// The same with passes.
pub(crate) fn answers_with(
    alloc: Global,
    who: Who,
    line: &str,
    passes: &mut Vec<Box<dyn Pass>>,
    shelf: &mut MemoryShelf,
    input: &[u8],
    failing: Failing,
    wanted: Wanted,
) -> Result<bool, Fail> {
    let words = words_of(alloc, line)?;
    let mut streams = streams_of(alloc, input, failing)?;
    Ok(leaves(
        alloc,
        who,
        words.as_slice(),
        passes,
        shelf,
        &mut streams,
        wanted,
    ))
}

/// The streams of a program that move one byte a call.
#[derive(Drop)]
struct SlowStreams {
    input: SlowSource,
    out: SlowSink,
    err: SlowSink,
}

/// Those of a program that has this input.
fn slow_streams(alloc: Global, input: &[u8]) -> Result<SlowStreams, Fail> {
    let input = SlowSource::new(Vec::from_slice(alloc, input)?);
    let out = SlowSink::new(alloc, ROOM)?;
    let err = SlowSink::new(alloc, ROOM)?;
    Ok(SlowStreams { input, out, err })
}

/// Whether a program over these streams leaves what it is to.
fn leaves_slowly(
    alloc: Global,
    who: Who,
    words: &[String],
    passes: &mut Vec<Box<dyn Pass>>,
    shelf: &mut MemoryShelf,
    streams: &mut SlowStreams,
    wanted: Wanted,
) -> bool {
    let status = tool(
        alloc,
        who,
        words,
        passes,
        shelf,
        &mut streams.input,
        &mut streams.out,
        &mut streams.err,
    );
    status.code == wanted.code
        && streams.out.taken() == wanted.out
        && streams.err.taken() == wanted.err.as_bytes()
}

/// Whether a program leaves what it is to over streams that move one byte a call.
pub(crate) fn answers_slowly(
    alloc: Global,
    who: Who,
    line: &str,
    shelf: &mut MemoryShelf,
    input: &[u8],
    wanted: Wanted,
) -> Result<bool, Fail> {
    let words = words_of(alloc, line)?;
    let mut passes = Vec::new(alloc);
    let mut streams = slow_streams(alloc, input)?;
    Ok(leaves_slowly(
        alloc,
        who,
        words.as_slice(),
        &mut passes,
        shelf,
        &mut streams,
        wanted,
    ))
}

/// What the compiler, called with the words of a line and without passes, hands out.
pub(crate) fn compiled_of(
    alloc: Global,
    line: &str,
    shelf: &mut MemoryShelf,
) -> Result<Option<Compiled>, Fail>
    ensures { IfOk result (λ handed. IfSome handed (λ it. IsObject (object_of it.object))) }
{
    let words = words_of(alloc, line)?;
    let mut passes = Vec::new(alloc);
    let mut streams = streams_of(alloc, b"", NONE_FAILS)?;
    Ok(handed_out(alloc, words.as_slice(), &mut passes, shelf, &mut streams))
}

/// What the compiler hands out over these streams.
fn handed_out(
    alloc: Global,
    words: &[String],
    passes: &mut Vec<Box<dyn Pass>>,
    shelf: &mut MemoryShelf,
    streams: &mut Streams,
) -> Option<Compiled>
    ensures { IfSome result (λ it. IsObject (object_of it.object)) }
{
    let status = tool(
        alloc,
        Who::Pcc,
        words,
        passes,
        shelf,
        &mut streams.input,
        &mut streams.out,
        &mut streams.err,
    );
    status.compiled
}
