//! Sources, sinks and shelves.

use pc_outside::{
    CallList, DirShelf, Failed, MemoryShelf, MemorySink, MemorySource, Shelf, ShelfError, Sink,
    Source, StdSink, StdSource, SureShelf, SureSink, SureSource, TakeError, send, take_all,
};
use std::alloc::{AllocError, Global};
use std::io::{ErrorKind, Write};
use std::test::Fail;
use std::{fs, io};

/// A source that moves one byte a call, over a source that may move many.
#[derive(Drop)]
struct Slow<T> {
    inner: T,
}

impl<T: Source> Source for Slow<T> {
    ghost left = { λ s. T.left s.inner };

    ghost faults = { λ s. T.faults s.inner };

    fn read(&mut self, into: &mut [u8]) -> Result<usize, Failed> {
        self.inner.read(&mut into[..1])
    }
}

impl<T: Sink> Sink for Slow<T> {
    ghost taken = { λ s. T.taken s.inner };

    ghost faults = { λ s. T.faults s.inner };

    fn write(&mut self, from: &[u8]) -> Result<usize, Failed> {
        self.inner.write(&from[..1])
    }
}

/// Takes what a source has, up to some bytes, and sends it on.
fn carry<I: Source, O: Sink>(
    alloc: Global,
    from: &mut I,
    to: &mut O,
    most: usize,
) -> Result<(), TakeError> {
    let bytes = take_all(alloc, from, most)?;
    send(to, bytes.as_slice())?;
    Ok(())
}

/// A list of numbers of calls.
fn calls(alloc: Global, numbers: &[u64]) -> Result<CallList, AllocError> {
    CallList::from_slice(alloc, numbers)
}

const TEXT: &[u8] = b"print(7);";

/// Whether a sink has taken the first bytes of the text, and no others.
fn is_front(taken: &[u8], most: usize) -> bool {
    taken == &TEXT[..most.min(TEXT.len())]
}

/// Whether so many bytes are carried where each call moves one.
fn carries_slowly(alloc: Global, most: usize) -> Result<bool, Fail> {
    let mut from = Slow {
        inner: SureSource::new(TEXT.to_vec(alloc)?),
    };
    let mut to = Slow {
        inner: SureSink::new(alloc, 99)?,
    };
    carry(alloc, &mut from, &mut to, most)?;
    Ok(is_front(to.inner.taken(), most))
}

/// Whether so many bytes are carried where a call may move many.
fn carries(alloc: Global, most: usize) -> Result<bool, Fail> {
    let mut from = SureSource::new(TEXT.to_vec(alloc)?);
    let mut to = SureSink::new(alloc, 99)?;
    carry(alloc, &mut from, &mut to, most)?;
    Ok(is_front(to.taken(), most))
}

#[test]
fn one_byte_a_call_gives_the_same(rt: HostRuntime) -> Result<(), Fail> {
    for most in [0, 1, 4, 9, 10, 99] {
        assert!(rt; carries_slowly(rt.alloc(), most)?, "at most {most}");
        assert!(rt; carries(rt.alloc(), most)?, "at most {most}");
    }
    Ok(())
}

/// What `take_all` answers over a source whose reads with these numbers fail, one byte a call.
fn taken_slowly(
    alloc: Global,
    failing: &[u64],
    most: usize,
) -> Result<Result<Vec<u8>, TakeError>, AllocError> {
    let mut source = Slow {
        inner: MemorySource::new(TEXT.to_vec(alloc)?, calls(alloc, failing)?),
    };
    Ok(take_all(alloc, &mut source, most))
}

#[test]
fn listed_reads_fail(rt: HostRuntime) -> Result<(), Fail> {
    // Nine bytes take ten turns, and at most four bytes take four.
    let rows = [
        (1, 99, true),
        (10, 99, true),
        (11, 99, false),
        (4, 4, true),
        (5, 4, false),
        (1, 0, false),
    ];
    for (number, most, fails) in rows {
        let answer = taken_slowly(rt.alloc(), &[number], most)?;
        assert_eq!(rt; answer.is_err(), fails, "read {number} of at most {most}");
    }
    Ok(())
}

/// Whether a sink of this room, of which the write with this number fails, takes so many bytes one by one.
fn keeps(alloc: Global, failing: u64, room: usize, kept: usize) -> Result<bool, Fail> {
    let mut sink = Slow {
        inner: MemorySink::new(alloc, room, calls(alloc, &[failing])?)?,
    };
    let sent = send(&mut sink, TEXT).is_ok();
    Ok(sent == (kept == TEXT.len()) && is_front(sink.inner.taken(), kept))
}

/// Whether a sink of this room takes the whole text at once.
fn takes(alloc: Global, room: usize) -> Result<bool, Fail> {
    let mut sink = MemorySink::new(alloc, room, calls(alloc, &[2])?)?;
    Ok(send(&mut sink, TEXT).is_ok())
}

#[test]
fn sinks_keep_a_prefix(rt: HostRuntime) -> Result<(), Fail> {
    for (failing, room, kept) in [
        (99, 99, 9),
        (99, 9, 9),
        (99, 8, 8),
        (99, 0, 0),
        (1, 99, 0),
        (4, 99, 3),
        (10, 99, 9),
    ] {
        assert!(rt;
            keeps(rt.alloc(), failing, room, kept)?,
            "call {failing}, room {room}"
        );
        assert_eq!(rt; takes(rt.alloc(), room)?, room >= TEXT.len(), "room {room}");
    }
    Ok(())
}

/// Whether a read gives these bytes, or fails where none are given.
fn reads<H: Shelf>(
    alloc: Global,
    shelf: &mut H,
    name: &str,
    most: usize,
    want: Option<&[u8]>,
) -> bool {
    match (shelf.read_file(alloc, name, most), want) {
        (Ok(bytes), Some(want)) => bytes.as_slice() == want,
        (Err(error), None) => error == ShelfError::Failed,
        _ => false,
    }
}

/// Whether a write is done.
fn writes<H: Shelf>(alloc: Global, shelf: &mut H, name: &str, bytes: &[u8]) -> bool {
    shelf.write_file(alloc, name, bytes).is_ok()
}

#[test]
fn a_shelf_counts_its_calls(rt: HostRuntime) -> Result<(), Fail> {
    let alloc = rt.alloc();
    let mut shelf = MemoryShelf::new(alloc, calls(alloc, &[2, 4])?);
    assert!(rt; shelf.put(alloc, "a", TEXT).is_ok());
    assert!(rt; reads(alloc, &mut shelf, "a", 5, Some(b"print")));
    assert!(rt; reads(alloc, &mut shelf, "a", 5, None));
    assert!(rt; writes(alloc, &mut shelf, "b", b"new"));
    assert!(rt; !writes(alloc, &mut shelf, "a", b"lost"));
    assert!(rt; reads(alloc, &mut shelf, "c", 5, None));
    assert!(rt; reads(alloc, &mut shelf, "a", 99, Some(TEXT)));
    assert!(rt; shelf.held("b") == Some(b"new".as_slice()));
    Ok(())
}

#[test]
fn a_sure_shelf_reads_what_it_holds(rt: HostRuntime) {
    let alloc = rt.alloc();
    let mut shelf = SureShelf::new(alloc);
    assert!(rt; shelf.put(alloc, "a", b"old").is_ok());
    assert!(rt; writes(alloc, &mut shelf, "a", TEXT));
    assert!(rt; reads(alloc, &mut shelf, "a", 9, Some(TEXT)));
    assert!(rt; reads(alloc, &mut shelf, "b", 9, None));
    assert!(rt; shelf.held("a") == Some(TEXT));
}

#[test]
fn a_folder_is_a_shelf(rt: HostRuntime) -> Result<(), Fail> {
    let alloc = rt.alloc();
    let mut shelf = DirShelf::new(alloc, rt.clone()?, String::new(alloc));
    assert!(rt; writes(alloc, &mut shelf, "outside.test", b"something longer"));
    assert!(rt; writes(alloc, &mut shelf, "outside.test", TEXT));
    assert!(rt; reads(alloc, &mut shelf, "outside.test", 99, Some(TEXT)));
    assert!(rt; reads(alloc, &mut shelf, "outside.test", 5, Some(b"print")));
    assert!(rt; fs::remove_file(&rt, "outside.test").is_ok());
    assert!(rt; reads(alloc, &mut shelf, "outside.test", 99, None));
    assert!(rt; reads(alloc, &mut shelf, ".", 99, None));
    assert!(rt; !writes(alloc, &mut shelf, "no_such_folder/file", TEXT));
    Ok(())
}

/// A writer that takes so many bytes a call at most, and flushes or fails to.
#[derive(Drop)]
struct Fake {
    bytes: Vec<u8>,
    at_once: usize,
    flushes: bool,
}

impl Write for Fake {
    ghost use Rattle.std.specs.Prelude.{Some};

    ghost contents = { λ s. Some s.bytes.items };

    fn write(&mut self, from: &[u8]) -> io::Result<usize> {
        let n = from.len().min(self.at_once);
        self.bytes.extend_from_slice(&from[..n])?;
        Ok(n)
    }

    fn flush(&mut self) -> io::Result<()> {
        if self.flushes {
            return Ok(());
        }
        Err(io::Error::from(ErrorKind::BrokenPipe))
    }
}

#[test]
fn a_real_sink_tells_what_was_taken(rt: HostRuntime) -> Result<(), Fail> {
    // Where a flush fails, the write has failed, though the writer took bytes.
    let rows = [
        (1, true, true, 9),
        (4, true, true, 9),
        (99, true, true, 9),
        (0, true, false, 0),
        (1, false, false, 1),
        (4, false, false, 4),
        (99, false, false, 9),
    ];
    for (at_once, flushes, whole, taken) in rows {
        let mut fake = Fake {
            bytes: Vec::new(rt.alloc()),
            at_once,
            flushes,
        };
        let sent = send(&mut StdSink::new(&mut fake), TEXT);
        assert_eq!(rt; sent.is_ok(), whole, "{at_once} at once");
        assert_eq!(rt;
            fake.bytes.as_slice(),
            &TEXT[..taken.min(TEXT.len())],
            "{at_once} at once"
        );
    }
    Ok(())
}

#[test]
fn a_real_source_gives_what_is_left(rt: HostRuntime) -> Result<(), Fail> {
    let mut bytes = b"abc".as_slice();
    let taken = take_all(rt.alloc(), &mut StdSource::new(&mut bytes), 2)?;
    assert_eq!(rt; taken.as_slice(), b"ab".as_slice());
    assert_eq!(rt; bytes, b"c".as_slice());
    Ok(())
}
