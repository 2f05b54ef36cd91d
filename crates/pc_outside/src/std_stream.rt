//! The real streams as a source and sinks. They tell what std tells of the reader or the writer: nothing
//! of standard input, standard output, standard error and files, and all of bytes in memory.
ghost use Rattle.std.specs.Prelude.{◌≡◌, ◌<◌, ◌≤◌, length, IfOk, OnErr};
ghost use Rattle.std.specs.Io.KnownBytes.{Keeps, ReadConsumes, WriteAppends};
ghost use Rattle.pc_word.specs.Count.{Rose, one_more};
ghost use Rattle.pc_outside.specs.Stream.{KeepsRest, flushed};

use crate::error::Failed;
use crate::stream::{Sink, Source};
use std::io;
use std::io::{ErrorKind, Read, Write};

/// How many bytes are read at once, at most.
const PIECE: usize = 4096;

/// A real stream that is read.
#[derive(Drop)]
pub struct StdSource<R> {
    reader: R,
    faults: u64,
}

impl<R: Read> StdSource<R> {
    /// A source over an open stream, as standard input.
    pub fn new(reader: R) -> StdSource<R>
        ensures left { ⟦<StdSource<R> as Source>⟧.left result ≡ R.remaining reader }
        ensures faults { ⟦<StdSource<R> as Source>⟧.faults result ≡ 0 }
    {
        StdSource { reader, faults: 0 }
    }
}

impl<R: Read> Source for StdSource<R> {
    ghost left = { λ s. R.remaining s.reader };

    ghost faults = { λ s. s.faults };

    fn read(&mut self, into: &mut [u8]) -> Result<usize, Failed> {
        let mut piece = [0; PIECE];
        let room = PIECE.min(into.len());
        match read_on(&mut self.reader, &mut piece[..room]) {
            Ok(n) => {
                into[..n].copy_from_slice(&piece[..n]);
                Ok(n)
            }
            Err(_) => {
                self.faults = self.faults.saturating_add(1);
                Err(Failed)
            }
        }
    }
}

/// A real stream that is written.
///
/// It flushes after each write, before it answers: a failed flush is a failure of the write. What no
/// flush has confirmed does not count as taken, and nothing is written any more.
#[derive(Drop)]
pub struct StdSink<W> {
    writer: W,
    faults: u64,
    /// How many bytes the writer took last, where the flush after them failed.
    unflushed: usize,
}

impl<W: Write> StdSink<W> {
    /// A sink over an open stream, as standard output.
    pub fn new(writer: W) -> StdSink<W>
        ensures taken { ⟦<StdSink<W> as Sink>⟧.taken result ≡ W.contents writer }
        ensures faults { ⟦<StdSink<W> as Sink>⟧.faults result ≡ 0 }
    {
        StdSink {
            writer,
            faults: 0,
            unflushed: 0,
        }
    }

    /// Counts a failure.
    fn fail(&mut self) -> Failed
        ensures more { self.new.faults ≡ one_more self.old.faults }
        ensures counted { self.old.faults ≤ self.new.faults }
        ensures writer { self.new.writer ≡ self.old.writer }
        ensures unflushed { self.new.unflushed ≡ self.old.unflushed }
    {
        self.faults = self.faults.saturating_add(1);
        Failed
    }
}

impl<W: Write> Sink for StdSink<W> {
    ghost taken = { λ s. flushed s.unflushed (W.contents s.writer) };

    ghost faults = { λ s. s.faults };

    #[tactic(auto, using(crate::proofs::StreamLemmas::flushed_kept))]
    fn write(&mut self, from: &[u8]) -> Result<usize, Failed> {
        if self.unflushed > 0 {
            return Err(self.fail());
        }
        match write_on(&mut self.writer, from) {
            Ok(n) if n > 0 => match self.writer.flush() {
                Ok(()) => Ok(n),
                Err(_) => {
                    self.unflushed = n;
                    Err(self.fail())
                }
            },
            _ => Err(self.fail()),
        }
    }
}

/// Reads, and again where the system was interrupted before it read anything.
fn read_on<R: Read>(reader: &mut R, into: &mut [u8]) -> io::Result<usize>
    ensures bound { IfOk result (λ n. n ≤ length into.new) }
    ensures bytes { ReadConsumes (R.remaining reader.old) (R.remaining reader.new) result into.new }
{
    for _ in 0..u64::MAX {
        match reader.read(into) {
            Err(error) if error.kind() == ErrorKind::Interrupted => {}
            answer => return answer,
        }
    }
    Err(io::Error::from(ErrorKind::Interrupted))
}

/// Writes, and again where the system was interrupted before it wrote anything.
fn write_on<W: Write>(writer: &mut W, from: &[u8]) -> io::Result<usize>
    ensures bound { IfOk result (λ n. n ≤ length from.now) }
    ensures bytes { WriteAppends (W.contents writer.old) (W.contents writer.new) result from.now }
{
    for _ in 0..u64::MAX {
        match writer.write(from) {
            Err(error) if error.kind() == ErrorKind::Interrupted => {}
            answer => return answer,
        }
    }
    Err(io::Error::from(ErrorKind::Interrupted))
}
