//! A source and a sink in memory that fail on no list: the source never, the sink where it is full.
ghost use Rattle.std.specs.Prelude.{◌≡◌, ◌<◌, ◌≤◌, ◌↔◌, [], ◌++◌, length, take, drop, Some, IfOk, OnErr, IsErr, IsOk};
ghost use Rattle.std.specs.Io.KnownBytes.{ReadConsumes, WriteAppends};
ghost use Rattle.pc_word.specs.Count.{Rose, one_more};
ghost use Rattle.pc_outside.specs.InMemory.{given_count, taken_count};
ghost use Rattle.pc_outside.specs.Stream.{KeepsRest};

use crate::error::{Failed, OutsideError};
use crate::rest::Rest;
use crate::room::Room;
use crate::stream::{Sink, Source};
use std::alloc::Global;
use std::marker::Model;

/// A source of given bytes that never fails. Contracts see the bytes that are left.
#[derive(Drop)]
pub struct SureSource {
    rest: Rest,
}

impl Model for SureSource {
    ghost use Rattle.std.specs.Prelude.{ℕ, List};

    ghost Value = { List ℕ };

    ghost view = { λ a. a.rest };
}

impl SureSource {
    /// A source of these bytes.
    pub fn new(bytes: Vec<u8>) -> SureSource
        ensures { result ≡ bytes.items }
    {
        SureSource {
            rest: Rest::new(bytes),
        }
    }
}

impl Source for SureSource {
    ghost left = { λ s. Some s };

    ghost faults = { λ _. 0 };

    fn read(&mut self, into: &mut [u8]) -> Result<usize, Failed>
        requires { 0 < length into.old }
        ensures bound { IfOk result (λ n. n ≤ length into.old) }
        ensures bytes { ReadConsumes (Some self.old) (Some self.new) result into.new }
        ensures rest { KeepsRest result into.old into.new }
        ensures fault { OnErr result (Rose 0 0) }
        ensures counted { 0 ≤ 0 }

        // It never fails, and gives all that is left or fits.
        ensures sure { IsOk result }
        ensures given { IfOk result (λ n. n ≡ given_count self.old into.old) }
        ensures after { IfOk result (λ n. self.new ≡ drop n self.old) }
    {
        Ok(self.rest.give(into))
    }
}

/// A sink with room for a number of bytes. Writes fail where it is full, and only there.
#[derive(Drop)]
pub struct SureSink {
    room: Room,
    faults: u64,
}

impl Model for SureSink {
    ghost use Rattle.pc_outside.specs.InMemory.{SureSinkState};

    ghost Value = { SureSinkState };

    ghost view = { λ a. record { taken = a.room.taken; room = a.room.room; faults = a.faults } };
}

impl SureSink {
    /// A sink with room for this many bytes, which it takes here.
    pub fn new(alloc: Global, room: usize) -> Result<SureSink, OutsideError>
        ensures { IfOk result (λ sink. sink ≡ record { taken = []; room = room; faults = 0 }) }
    {
        let room = Room::new(alloc, room)?;
        Ok(SureSink { room, faults: 0 })
    }

    /// The bytes that it has taken.
    pub fn taken(&self) -> &[u8]
        ensures { result.now ≡ self.now.taken }
    {
        self.room.taken()
    }
}

impl Sink for SureSink {
    ghost taken = { λ s. Some s.taken };

    ghost faults = { λ s. s.faults };

    fn write(&mut self, from: &[u8]) -> Result<usize, Failed>
        requires { 0 < length from.now }
        ensures some { IfOk result (λ n. 0 < n) }
        ensures bound { IfOk result (λ n. n ≤ length from.now) }
        ensures bytes { WriteAppends (Some self.old.taken) (Some self.new.taken) result from.now }
        ensures fault { OnErr result (Rose self.old.faults self.new.faults) }
        ensures counted { self.old.faults ≤ self.new.faults }

        // A write fails exactly where the sink is full, and else takes all that comes or has room.
        ensures full { IsErr result ↔ (self.old.room ≤ length self.old.taken) }
        ensures took { IfOk result (λ n. n ≡ taken_count self.old.taken self.old.room from.now) }
        ensures after { IfOk result (λ n. self.new ≡ record self.old { taken = self.old.taken ++ take n from.now }) }
        ensures refused { OnErr result (self.new ≡ record self.old { faults = one_more self.old.faults }) }
    {
        let n = self.room.take(from);
        if n > 0 {
            return Ok(n);
        }
        self.faults = self.faults.saturating_add(1);
        Err(Failed)
    }
}
