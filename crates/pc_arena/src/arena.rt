ghost use Rattle.std.specs.Prelude.{◌≡◌, ◌≤◌, ◌+◌, ℕ, Some, None, is_some, OnOk, OnErr};
ghost use Rattle.std.specs.FinMap as map;
ghost use Rattle.pc_arena.specs.Held.{value_at, Holds};

use pc_word::OutOfMemory;
use slab::Slab;
use std::alloc::Global;
use std::marker::Model;
use std::mem;

/// The number of a value of an arena. Only an arena makes one.
#[derive(Clone, Copy, Debug, PartialEq, Eq, Hash)]
pub struct NodeId(usize);

impl Model for NodeId {
    ghost use Rattle.std.specs.Prelude.{ℕ};

    ghost Value = { ℕ };

    ghost view = { λ it. it.0 };

    ghost inverse = { λ number. record { 0 = number } };
}

/// Values, each under a number.
#[derive(Drop)]
pub struct Arena<T> {
    slots: Slab<T>,
}

impl<T> Model for Arena<T> {
    ghost use Rattle.std.specs.Prelude.{◌-◌};
    ghost use Rattle.std.specs.FinMap as map;
    ghost use Rattle.pc_arena.specs.Held.{Held, held_code};
    ghost use Rattle.slab.specs.Slab.{entries, slab_len};

    ghost Value = { Held T };

    ghost coded = { held_code T.code };

    ghost view = { λ it. record {
      values = map.from_entries (entries it.slots);
      spare = it.slots.capacity - slab_len it.slots;
    } };
}

impl<T> Arena<T> {
    /// An arena without values. It takes no memory; `alloc` serves what is reserved later.
    pub fn new(alloc: Global) -> Arena<T>
        ensures empty { result.values ≡ map.empty }
        ensures spare { result.spare ≡ 0 }
    {
        Arena {
            slots: Slab::new(alloc),
        }
    }

    /// Makes room for so many more values.
    pub fn reserve(&mut self, count: usize) -> Result<(), OutOfMemory>
        ensures room { OnOk result (count ≤ self.new.spare) }
        ensures values { self.new.values ≡ self.old.values }
        ensures spare { self.old.spare ≤ self.new.spare }
    {
        self.slots.reserve(count)?;
        Ok(())
    }

    /// Keeps a value under a number that had none.
    pub fn put(&mut self, value: T) -> NodeId
        requires { 1 ≤ self.old.spare }
        ensures vacant { value_at self.old result ≡ None }
        ensures put { self.new.values ≡ map.insert self.old.values result value }
        ensures spare { self.old.spare ≤ self.new.spare + 1 }
    {
        NodeId(self.slots.insert_reserved(value))
    }

    /// The value under a number.
    pub fn get(&self, id: NodeId) -> &T
        requires { Holds self.now id }
        ensures { value_at self.now id ≡ Some result.now }
    {
        &self.slots[id.0]
    }

    /// Puts a value in the place of another, which it gives back.
    pub fn replace(&mut self, id: NodeId, value: T) -> T
        requires { Holds self.old id }
        ensures before { value_at self.old id ≡ Some result }
        ensures replaced { self.new.values ≡ map.insert self.old.values id value }
        ensures spare { self.old.spare ≤ self.new.spare }
    {
        mem::replace(&mut self.slots[id.0], value)
    }

    /// Takes a value out, whose number is then free.
    pub fn take(&mut self, id: NodeId) -> T
        requires { Holds self.old id }
        ensures before { value_at self.old id ≡ Some result }
        ensures taken { self.new.values ≡ map.remove self.old.values id }
        ensures spare { self.old.spare ≤ self.new.spare }
    {
        self.slots.remove(id.0)
    }

    /// Whether a number has a value.
    pub fn holds(&self, id: NodeId) -> bool
        ensures { result ≡ is_some (value_at self.now id) }
    {
        self.slots.contains(id.0)
    }

    /// How many values there are.
    pub fn count(&self) -> usize
        ensures { result ≡ map.len self.now.values }
    {
        self.slots.len()
    }
}
