//! A source and a sink in memory, some of whose calls fail on purpose.
ghost use Rattle.std.specs.Prelude.{◌≡◌, ◌<◌, ◌≤◌, ◌↔◌, [], ◌++◌, length, take, drop, Some, IfOk, OnErr, IsErr, IsTrue};
ghost use Rattle.std.specs.Io.KnownBytes.{ReadConsumes, WriteAppends};
ghost use Rattle.pc_word.specs.Count.{Rose, one_more};
ghost use Rattle.pc_outside.specs.InMemory.{next_is_listed, given_count, taken_count, write_fails};
ghost use Rattle.pc_outside.specs.Stream.{KeepsRest};

use crate::CallList;
use crate::calls::Calls;
use crate::error::{Failed, OutsideError};
use crate::rest::Rest;
use crate::room::Room;
use crate::stream::{Sink, Source};
use std::alloc::Global;
use std::marker::Model;

/// A source of given bytes. It counts its reads from 1, and those that are listed fail.
#[derive(Drop)]
pub struct MemorySource {
    rest: Rest,
    faults: u64,
    calls: Calls,
}

impl Model for MemorySource {
    ghost use Rattle.pc_outside.specs.InMemory.{SourceState};

    ghost Value = { SourceState };

    ghost view = { λ a. record { left = a.rest; faults = a.faults; calls = a.calls.count; failing = a.calls.failing } };
}

impl MemorySource {
    /// A source of these bytes, whose reads with these numbers fail.
    pub fn new(bytes: Vec<u8>, failing: CallList) -> MemorySource
        ensures { result ≡ record { left = bytes.items; faults = 0; calls = 0; failing = failing } }
    {
        MemorySource {
            rest: Rest::new(bytes),
            faults: 0,
            calls: Calls::new(failing),
        }
    }
}

impl Source for MemorySource {
    ghost left = { λ s. Some s.left };

    ghost faults = { λ s. s.faults };

    fn read(&mut self, into: &mut [u8]) -> Result<usize, Failed>
        requires { 0 < length into.old }
        ensures bound { IfOk result (λ n. n ≤ length into.old) }
        ensures bytes { ReadConsumes (Some self.old.left) (Some self.new.left) result into.new }
        ensures rest { KeepsRest result into.old into.new }
        ensures fault { OnErr result (Rose self.old.faults self.new.faults) }
        ensures counted { self.old.faults ≤ self.new.faults }

        // A read fails exactly where its number is listed, and else gives all that is left or fits.
        ensures listed { IsErr result ↔ IsTrue (next_is_listed self.old.failing self.old.calls) }
        ensures given { IfOk result (λ n. n ≡ given_count self.old.left into.old) }
        ensures after { IfOk result (λ n. self.new ≡ record self.old { left = drop n self.old.left; calls = one_more self.old.calls }) }
        ensures refused { OnErr result (self.new ≡ record self.old { faults = one_more self.old.faults; calls = one_more self.old.calls }) }
    {
        if self.calls.next_fails() {
            self.faults = self.faults.saturating_add(1);
            return Err(Failed);
        }
        Ok(self.rest.give(into))
    }
}

/// A sink with room for a number of bytes. It counts its writes from 1, and those that are listed
/// fail, as do those into a full sink.
#[derive(Drop)]
pub struct MemorySink {
    room: Room,
    faults: u64,
    calls: Calls,
}

impl Model for MemorySink {
    ghost use Rattle.pc_outside.specs.InMemory.{SinkState};

    ghost Value = { SinkState };

    ghost view = { λ a. record { taken = a.room.taken; room = a.room.room; faults = a.faults; calls = a.calls.count; failing = a.calls.failing } };
}

impl MemorySink {
    /// A sink with room for this many bytes, which it takes here, and whose writes with these numbers
    /// fail.
    pub fn new(alloc: Global, room: usize, failing: CallList) -> Result<MemorySink, OutsideError>
        ensures { IfOk result (λ sink. sink ≡ record { taken = []; room = room; faults = 0; calls = 0; failing = failing }) }
    {
        let room = Room::new(alloc, room)?;
        Ok(MemorySink {
            room,
            faults: 0,
            calls: Calls::new(failing),
        })
    }

    /// The bytes that it has taken.
    pub fn taken(&self) -> &[u8]
        ensures { result.now ≡ self.now.taken }
    {
        self.room.taken()
    }
}

impl Sink for MemorySink {
    ghost taken = { λ s. Some s.taken };

    ghost faults = { λ s. s.faults };

    fn write(&mut self, from: &[u8]) -> Result<usize, Failed>
        requires { 0 < length from.now }
        ensures some { IfOk result (λ n. 0 < n) }
        ensures bound { IfOk result (λ n. n ≤ length from.now) }
        ensures bytes { WriteAppends (Some self.old.taken) (Some self.new.taken) result from.now }
        ensures fault { OnErr result (Rose self.old.faults self.new.faults) }
        ensures counted { self.old.faults ≤ self.new.faults }

        // A write fails exactly where its number is listed or the sink is full, and else takes all
        // that comes or has room.
        ensures listed { IsErr result ↔ IsTrue (write_fails self.old) }
        ensures took { IfOk result (λ n. n ≡ taken_count self.old.taken self.old.room from.now) }
        ensures after { IfOk result (λ n. self.new ≡ record self.old { taken = self.old.taken ++ take n from.now; calls = one_more self.old.calls }) }
        ensures refused { OnErr result (self.new ≡ record self.old { faults = one_more self.old.faults; calls = one_more self.old.calls }) }
    {
        if !self.calls.next_fails() {
            let n = self.room.take(from);
            if n > 0 {
                return Ok(n);
            }
        }
        self.faults = self.faults.saturating_add(1);
        Err(Failed)
    }
}
