//! A place in memory for a number of bytes that is fixed when it is made.
ghost use Rattle.std.specs.Prelude.{◌≡◌, [], ◌++◌, take, IfOk};
ghost use Rattle.pc_outside.specs.InMemory.{taken_count};

use std::alloc::{AllocError, Global};
use std::marker::Model;

/// The bytes that were taken, and how many can be taken in all.
#[derive(Drop)]
pub(crate) struct Room {
    taken: Vec<u8>,
    size: usize,
}

impl Model for Room {
    ghost use Rattle.std.specs.Prelude.{◌≤◌, length, vec_capacity};
    ghost use Rattle.pc_outside.specs.models.Parts.{RoomState};

    ghost Value = { RoomState };

    ghost view = { λ a. record { taken = a.taken.items; room = a.size } };

    ghost invariant = { λ a. (length a.taken.items ≤ a.size) × (a.size ≤ vec_capacity a.taken) };
}

impl Room {
    /// An empty place for `size` bytes.
    pub(crate) fn new(alloc: Global, size: usize) -> Result<Room, AllocError>
        ensures { IfOk result (λ room. room ≡ record { taken = []; room = size }) }
    {
        let taken = Vec::with_capacity(alloc, size)?;
        Ok(Room { taken, size })
    }

    /// The bytes that were taken.
    pub(crate) fn taken(&self) -> &[u8]
        ensures { result.now ≡ self.now.taken }
    {
        self.taken.as_slice()
    }

    /// Takes as many of the first bytes as there is room for, and answers how many.
    pub(crate) fn take(&mut self, from: &[u8]) -> usize
        ensures count { result ≡ taken_count self.old.taken self.old.room from.now }
        ensures taken { self.new ≡ record self.old { taken = self.old.taken ++ take result from.now } }
    {
        let n = from.len().min(self.size - self.taken.len());
        self.taken.extend_from_slice(&from[..n]).unwrap();
        n
    }
}
