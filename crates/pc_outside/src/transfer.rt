//! Whole transfers, made of single reads and writes.
ghost use Rattle.std.specs.Prelude.{◌≤◌, IfOk, OnOk, OnErr, IsErrOf};
ghost use Rattle.std.specs.Io.KnownBytes.{Appends};
ghost use Rattle.pc_word.specs.Count.{Rose};
ghost use Rattle.pc_outside.specs.Stream.{TakesFirst, LosesFront, AppendsPart};

use crate::error::{Failed, TakeError};
use crate::stream::{Sink, Source};
use std::alloc::Global;

/// How many bytes `take_all` asks for at once, at most.
const PIECE: usize = 4096;

/// Writes all the bytes. It takes no memory.
pub fn send<S: Sink>(sink: &mut S, bytes: &[u8]) -> Result<(), Failed>
    ensures all { OnOk result (Appends (S.taken sink.old) (S.taken sink.new) bytes.now) }
    ensures part { OnErr result (AppendsPart (S.taken sink.old) (S.taken sink.new) bytes.now) }
    ensures fault { OnErr result (Rose (S.faults sink.old) (S.faults sink.new)) }
    ensures counted { S.faults sink.old ≤ S.faults sink.new }
{
    let mut sent = 0;
    while sent < bytes.len() {
        sent += sink.write(&bytes[sent..])?;
    }
    Ok(())
}

/// Reads until the source has no more or `most` bytes were taken, and gives them.
///
/// After a refusal what was read is lost. Each turn but the last takes at least one byte, so there are
/// at most `most + 1`.
pub fn take_all<S: Source>(alloc: Global, source: &mut S, most: usize) -> Result<Vec<u8>, TakeError>
    ensures first { IfOk result (λ all. TakesFirst (S.left source.old) (S.left source.new) most all.items) }
    ensures lost { OnErr result (LosesFront (S.left source.old) (S.left source.new) most) }
    ensures fault { IsErrOf result TakeError.Failed → Rose (S.faults source.old) (S.faults source.new) }
    ensures counted { S.faults source.old ≤ S.faults source.new }
{
    let mut all = Vec::new(alloc);
    let mut piece = [0; PIECE];
    while all.len() < most {
        let room = PIECE.min(most - all.len());
        let n = source.read(&mut piece[..room])?;
        if n == 0 {
            break;
        }
        all.extend_from_slice(&piece[..n])?;
    }
    Ok(all)
}
