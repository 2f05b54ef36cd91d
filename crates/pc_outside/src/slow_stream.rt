//! A source and a sink in memory that move one byte a call.
ghost use Rattle.std.specs.Prelude.{◌≡◌, ◌<◌, ◌≤◌, ◌↔◌, [], ◌++◌, length, min, take, drop, Some, IfOk, OnErr, IsErr, IsOk};
ghost use Rattle.std.specs.Io.KnownBytes.{ReadConsumes, WriteAppends};
ghost use Rattle.pc_word.specs.Count.{Rose, one_more};
ghost use Rattle.pc_outside.specs.Stream.{KeepsRest};

use crate::error::{Failed, OutsideError};
use crate::rest::Rest;
use crate::room::Room;
use crate::stream::{Sink, Source};
use std::alloc::Global;
use std::marker::Model;

/// A source of given bytes that gives one byte a read, and never fails. Contracts see the bytes that
/// are left.
#[derive(Drop)]
pub struct SlowSource {
    rest: Rest,
}

impl Model for SlowSource {
    ghost use Rattle.std.specs.Prelude.{ℕ, List};

    ghost Value = { List ℕ };

    ghost view = { λ a. a.rest };
}

impl SlowSource {
    /// A source of these bytes.
    pub fn new(bytes: Vec<u8>) -> SlowSource
        ensures { result ≡ bytes.items }
    {
        SlowSource {
            rest: Rest::new(bytes),
        }
    }
}

impl Source for SlowSource {
    ghost left = { λ s. Some s };

    ghost faults = { λ _. 0 };

    fn read(&mut self, into: &mut [u8]) -> Result<usize, Failed>
        requires { 0 < length into.old }
        ensures bound { IfOk result (λ n. n ≤ length into.old) }
        ensures bytes { ReadConsumes (Some self.old) (Some self.new) result into.new }
        ensures rest { KeepsRest result into.old into.new }
        ensures fault { OnErr result (Rose 0 0) }
        ensures counted { 0 ≤ 0 }

        // It never fails, and gives one byte while any is left.
        ensures sure { IsOk result }
        ensures one { IfOk result (λ n. n ≡ min 1 (length self.old)) }
        ensures after { IfOk result (λ n. self.new ≡ drop n self.old) }
    {
        Ok(self.rest.give(&mut into[..1]))
    }
}

/// A sink with room for a number of bytes that takes one byte a write. Writes fail where it is full,
/// and only there.
#[derive(Drop)]
pub struct SlowSink {
    room: Room,
    faults: u64,
}

impl Model for SlowSink {
    ghost use Rattle.pc_outside.specs.InMemory.{SureSinkState};

    ghost Value = { SureSinkState };

    ghost view = { λ a. record { taken = a.room.taken; room = a.room.room; faults = a.faults } };
}

impl SlowSink {
    /// A sink with room for this many bytes, which it takes here.
    pub fn new(alloc: Global, room: usize) -> Result<SlowSink, OutsideError>
        ensures { IfOk result (λ sink. sink ≡ record { taken = []; room = room; faults = 0 }) }
    {
        let room = Room::new(alloc, room)?;
        Ok(SlowSink { room, faults: 0 })
    }

    /// The bytes that it has taken.
    pub fn taken(&self) -> &[u8]
        ensures { result.now ≡ self.now.taken }
    {
        self.room.taken()
    }
}

impl Sink for SlowSink {
    ghost taken = { λ s. Some s.taken };

    ghost faults = { λ s. s.faults };

    fn write(&mut self, from: &[u8]) -> Result<usize, Failed>
        requires { 0 < length from.now }
        ensures some { IfOk result (λ n. 0 < n) }
        ensures bound { IfOk result (λ n. n ≤ length from.now) }
        ensures bytes { WriteAppends (Some self.old.taken) (Some self.new.taken) result from.now }
        ensures fault { OnErr result (Rose self.old.faults self.new.faults) }
        ensures counted { self.old.faults ≤ self.new.faults }

        // A write fails exactly where the sink is full, and else takes one byte.
        ensures full { IsErr result ↔ (self.old.room ≤ length self.old.taken) }
        ensures one { IfOk result (λ n. n ≡ 1) }
        ensures after { IfOk result (λ n. self.new ≡ record self.old { taken = self.old.taken ++ take n from.now }) }
        ensures refused { OnErr result (self.new ≡ record self.old { faults = one_more self.old.faults }) }
    {
        let n = self.room.take(&from[..1]);
        if n > 0 {
            return Ok(n);
        }
        self.faults = self.faults.saturating_add(1);
        Err(Failed)
    }
}
