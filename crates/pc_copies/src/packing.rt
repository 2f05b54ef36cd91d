//! Copies are packed into rows, those that run last first.
ghost use Rattle.std.specs.Prelude.{◌≡◌, ◌+◌, ◌<◌, ◌≤◌, [], ◌∷◌, ◌++◌, length, reverse, IfOk, OnOk};
ghost use Rattle.std.specs.List.{AllByRecursion};
ghost use Rattle.pc_copies.specs.models.Arranging.{if_any};
ghost use Rattle.pc_copies.specs.models.Counting.{copies_with, Ring_counts};
ghost use Rattle.pc_copies.specs.models.Packing.{Puts, Avoids, Unwinds, IsRing, AddsRing, Unwound};
ghost use Rattle.pc_copies.specs.models.Sources.{source_in};

use crate::moves::{CopyRow, CopyRows, Move};
use pc_word::{Operand, Seq};
use std::alloc::{AllocError, Global};
use std::mem;

/// Rows of copies in the making: the one that is to run first has room for more, and all others, the
/// last first, have `ops` copies.
#[derive(Debug, Drop)]
pub(crate) struct Packing {
    alloc: Global,
    ops: usize,
    scratch: u32,
    pub rows: CopyRows,
    pub first: CopyRow,
}

impl Packing {
    /// No copy.
    pub(crate) fn new(alloc: Global, ops: usize, scratch: u32) -> Packing
        ensures ops { result.ops ≡ ops }
        ensures scratch { result.scratch ≡ scratch }
        ensures rows { result.rows ≡ [] }
        ensures first { result.first ≡ [] }
    {
        Packing {
            alloc,
            ops,
            scratch,
            rows: Seq::new(alloc),
            first: Seq::new(alloc),
        }
    }

    /// The rows in the order in which they run.
    pub(crate) fn in_order(self) -> Result<CopyRows, AllocError>
        ensures { IfOk result (λ rows. rows ≡ if_any self.first ++ reverse self.rows) }
    {
        let Packing {
            alloc,
            mut rows,
            first,
            ..
        } = self;
        let mut ordered = Seq::new(alloc);
        if !first.is_empty() {
            ordered.push(first)?;
        }
        while let Some(row) = rows.pop() {
            ordered.push(row)?;
        }
        Ok(ordered)
    }

    /// Puts a cycle of moves into the first row, whole if there is room for it.
    pub(crate) fn put_ring(&mut self, ring: &[Move]) -> Result<(), AllocError>
        requires has_room { length self.old.first < self.old.ops }
        requires ring { IsRing ring.now }
        requires avoids { AllByRecursion (Avoids self.old.scratch) ring.now }
        ensures ops { self.new.ops ≡ self.old.ops }
        ensures scratch { self.new.scratch ≡ self.old.scratch }
        ensures has_room { OnOk result (length self.new.first < self.new.ops) }
        ensures counted { OnOk result (Ring_counts ring.now (copies_with self.old.rows self.old.first) (copies_with self.new.rows self.new.first)) }
        ensures adds { OnOk result (AddsRing self.old.ops self.old.scratch (source_in ring.now) self.old.rows self.old.first self.new.rows self.new.first) }
    {
        if ring.len() <= self.ops - self.first.len() {
            self.put(ring)?;
        } else {
            self.break_ring(ring)?;
        }
        Ok(())
    }

    /// Puts a cycle of moves into the rows one after the other, with scratch for the value that the
    /// last one reads.
    fn break_ring(&mut self, ring: &[Move]) -> Result<(), AllocError>
        requires has_room { length self.old.first < self.old.ops }
        requires ring { IsRing ring.now }
        requires avoids { AllByRecursion (Avoids self.old.scratch) ring.now }
        requires long { self.old.ops < length self.old.first + length ring.now }
        ensures ops { self.new.ops ≡ self.old.ops }
        ensures scratch { self.new.scratch ≡ self.old.scratch }
        ensures has_room { OnOk result (length self.new.first < self.new.ops) }
        ensures counted { OnOk result (Ring_counts ring.now (copies_with self.old.rows self.old.first) (copies_with self.new.rows self.new.first)) }
        ensures adds { OnOk result (AddsRing self.old.ops self.old.scratch (source_in ring.now) self.old.rows self.old.first self.new.rows self.new.first) }
    {
        let scratch = self.scratch;
        let last = ring.len() - 1;
        self.put_one(Move {
            dest: ring[last].dest,
            from: Operand::Name(scratch),
        })?;
        self.unwind(&ring[..last])?;
        self.put_one(Move {
            dest: scratch,
            from: Operand::Name(ring[0].dest),
        })?;
        Ok(())
    }

    /// Puts moves into the rows one after the other, the last one first.
    pub(crate) fn unwind(&mut self, moves: &[Move]) -> Result<(), AllocError>
        requires has_room { length self.old.first < self.old.ops }
        requires moves { Unwinds moves.now }
        requires avoids { AllByRecursion (Avoids self.old.scratch) moves.now }
        ensures ops { self.new.ops ≡ self.old.ops }
        ensures scratch { self.new.scratch ≡ self.old.scratch }
        ensures has_room { OnOk result (length self.new.first < self.new.ops) }
        ensures unwound { OnOk result (Unwound self.old.ops self.old.scratch moves.now self.old.rows self.old.first self.new.rows self.new.first) }
    {
        let mut at = moves.len();
        while at > 0 {
            at -= 1;
            self.put_one(moves[at])?;
        }
        Ok(())
    }

    /// Puts a copy into the first row.
    fn put_one(&mut self, copy: Move) -> Result<(), AllocError>
        requires { length self.old.first < self.old.ops }
        ensures ops { self.new.ops ≡ self.old.ops }
        ensures scratch { self.new.scratch ≡ self.old.scratch }
        ensures has_room { OnOk result (length self.new.first < self.new.ops) }
        ensures put { OnOk result (Puts self.old.ops (copy ∷ []) self.old.rows self.old.first self.new.rows self.new.first) }
    {
        self.put(&[copy])
    }

    /// Puts copies into the first row, all at once.
    #[tactic(auto, using(crate::proofs::Rows::put_open))]
    fn put(&mut self, group: &[Move]) -> Result<(), AllocError>
        requires has_room { length self.old.first < self.old.ops }
        requires room { length self.old.first + length group.now ≤ self.old.ops }
        ensures ops { self.new.ops ≡ self.old.ops }
        ensures scratch { self.new.scratch ≡ self.old.scratch }
        ensures has_room { OnOk result (length self.new.first < self.new.ops) }
        ensures put { OnOk result (Puts self.old.ops group.now self.old.rows self.old.first self.new.rows self.new.first) }
    {
        append(&mut self.first, group)?;
        if self.first.len() == self.ops {
            let full = mem::replace(&mut self.first, Seq::new(self.alloc));
            self.rows.push(full)?;
        }
        Ok(())
    }
}

/// Appends copies to those of a row.
fn append(row: &mut CopyRow, group: &[Move]) -> Result<(), AllocError>
    ensures { OnOk result (row.new ≡ row.old ++ group.now) }
{
    for at in 0..group.len() {
        row.push(group[at])?;
    }
    Ok(())
}
