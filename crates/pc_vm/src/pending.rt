//! What a row is going to do, before anything is changed.
ghost use Rattle.std.specs.Prelude.{◌≡◌, ◌<◌, if◌then◌else◌, [], ◌∷◌, ◌++◌, length, map, drop, vec_capacity, IfOk};
ghost use Rattle.std.specs.List.{list_any, AllByRecursion};
ghost use Rattle.pc_word.specs.Commit.{is_at, is_outside, meets_at, some_meet};
ghost use Rattle.pc_machine.specs.Registers.{most_registers};
ghost use Rattle.pc_machine.specs.WellFormed.{IsItem};
ghost use Rattle.pc_vm.specs.models.Made.{lengths_of};
ghost use Rattle.pc_vm.specs.Contents.{state_of};
ghost use Rattle.pc_vm.specs.models.Planned.{nothing_planned, with_write, planned_with, stored_of, planned_fault, written, stored, IsInside, IsRegister};
ghost use Rattle.pc_word.specs.MachineLimits.{most_ops};

use crate::values::Values;
use pc_word::{Item, MOST_OPS, MachineFault};
use std::alloc::{AllocError, Global};
use std::marker::Model;

/// The most items that a row has.
const MOST_ITEMS: usize = MOST_OPS as usize;

/// A word that a register is going to have.
#[derive(Clone, Copy, Debug)]
pub(crate) struct PendingWrite {
    pub(crate) dest: u32,
    pub(crate) word: i32,
}

/// A word that an element is going to have; without a place, a store outside its array.
#[derive(Clone, Copy, Debug)]
pub(crate) struct PendingStore {
    pub(crate) array: u8,
    pub(crate) place: Option<usize>,
    pub(crate) word: i32,
}

/// The plan of a row. It has room for the items of every row, which it takes when it is made.
#[derive(Drop)]
pub(crate) struct Pending {
    writes: Vec<PendingWrite>,
    stores: Vec<PendingStore>,
    printed: Option<i32>,
    reads: bool,
}

impl Model for Pending {
    ghost use Rattle.std.specs.Prelude.{◌≤◌, vec_capacity};
    ghost use Rattle.pc_word.specs.MachineLimits.{most_ops};
    ghost use Rattle.pc_vm.specs.models.Planned.{Planned};

    ghost Value = { Planned };

    ghost view = { λ a. record { writes = a.writes.items; stores = a.stores.items; printed = a.printed; reads = a.reads } };

    ghost invariant = { λ a. (most_ops ≤ vec_capacity a.writes) × (most_ops ≤ vec_capacity a.stores) };
}

impl Pending {
    /// The empty plan.
    pub(crate) fn new(alloc: Global) -> Result<Pending, AllocError>
        ensures { IfOk result (λ plan. plan ≡ nothing_planned) }
    {
        Ok(Pending {
            writes: Vec::with_capacity(alloc, MOST_ITEMS)?,
            stores: Vec::with_capacity(alloc, MOST_ITEMS)?,
            printed: None,
            reads: false,
        })
    }

    /// Plans a write.
    fn write(&mut self, dest: u32, word: i32)
        requires { length self.old.writes < most_ops }
        ensures { self.new ≡ with_write dest word self.old }
    {
        self.writes.push(PendingWrite { dest, word }).unwrap();
    }

    /// Plans a store.
    fn store(&mut self, array: u8, place: Option<usize>, word: i32)
        requires { length self.old.stores < most_ops }
        ensures { self.new ≡ record self.old { stores = self.old.stores ++ record { array = array; place = place; word = word } ∷ [] } }
    {
        self.stores
            .push(PendingStore { array, place, word })
            .unwrap();
    }

    /// Plans an item, whose words are those that the values have now.
    pub(crate) fn add(&mut self, values: &Values, item: &Item)
        requires item { IsItem most_registers (length values.now.cells) item.now }
        requires writes { length self.old.writes < most_ops }
        requires stores { length self.old.stores < most_ops }
        ensures { self.new ≡ planned_with (lengths_of values.now.cells) (state_of values.now) item.now self.old }
    {
        let word = values.value(item);
        match item {
            Item::Bin { dest, .. }
            | Item::Copy { dest, .. }
            | Item::Load { dest, .. }
            | Item::More { dest } => self.write(*dest, word),
            Item::Read { dest } => {
                self.reads = true;
                self.write(*dest, word);
            }
            Item::Store { array, index, .. } => {
                let place = values.place(*array, values.operand(index));
                self.store(*array, place, word);
            }
            Item::Print { .. } => self.printed = Some(word),
        }
    }

    /// The fault of the row: a store out of range, else two stores in one element, else a read
    /// where no input is left.
    pub(crate) fn fault(&self, some_left: bool) -> Option<MachineFault>
        ensures { result ≡ planned_fault self.now some_left }
    {
        let stores = self.stores.as_slice();
        if any_outside(stores) {
            return Some(MachineFault::StoreOutOfRange);
        }
        if any_meet(stores) {
            return Some(MachineFault::StoredTwice);
        }
        if self.reads && !some_left {
            return Some(MachineFault::ReadPastEnd);
        }
        None
    }

    /// Drops the plan.
    pub(crate) fn clear(&mut self)
        ensures { self.new ≡ nothing_planned }
    {
        self.writes.clear();
        self.stores.clear();
        self.printed = None;
        self.reads = false;
    }

    /// Does what is planned, all at once, and gives the number that is printed. Nothing is planned
    /// afterwards.
    pub(crate) fn commit(&mut self, values: &mut Values) -> Option<i32>
        requires writes { AllByRecursion IsRegister self.old.writes }
        requires stores { AllByRecursion (IsInside (lengths_of values.old.cells)) self.old.stores }
        ensures printed { result ≡ self.old.printed }
        ensures registers { values.new.registers ≡ written self.old.writes values.old.registers }
        ensures cells { values.new.cells ≡ stored self.old.stores values.old.cells }
        ensures input { values.new.input ≡ (if self.old.reads then drop 1 values.old.input else values.old.input) }
        ensures empty { self.new ≡ nothing_planned }
    {
        let printed = self.printed;
        if self.reads {
            values.take_input();
        }
        write_all(&mut self.writes, values);
        store_all(&mut self.stores, values);
        self.printed = None;
        self.reads = false;
        printed
    }
}

/// Whether a store is outside its array.
fn any_outside(stores: &[PendingStore]) -> bool
    ensures { result ≡ list_any (λ store. is_outside (stored_of store)) stores.now }
{
    stores.iter().any(|store| store.place.is_none())
}

/// Whether one of the stores is in the element of this one.
fn any_meets(store: &PendingStore, others: &[PendingStore]) -> bool
    ensures { result ≡ list_any (meets_at store.now.array store.now.place) (map stored_of others.now) }
{
    match store.place {
        Some(place) => any_at(others, store.array, place),
        None => false,
    }
}

/// Whether one of the stores is in this element.
fn any_at(stores: &[PendingStore], array: u8, place: usize) -> bool
    ensures { result ≡ list_any (λ store. is_at (stored_of store) array place) stores.now }
{
    stores.iter().any(|store| is_at(store, array, place))
}

/// Whether a store is in this element.
fn is_at(store: &PendingStore, array: u8, place: usize) -> bool
    ensures { result ≡ is_at (stored_of store.now) array place }
{
    match store.place {
        Some(other) => store.array == array && other == place,
        None => false,
    }
}

/// Whether two stores are in one element.
fn any_meet(stores: &[PendingStore]) -> bool
    ensures { result ≡ some_meet (map stored_of stores.now) }
{
    for (at, store) in stores.iter().enumerate() {
        if any_meets(store, &stores[at + 1..]) {
            return true;
        }
    }
    false
}

/// Does all writes, the last first.
fn write_all(writes: &mut Vec<PendingWrite>, values: &mut Values)
    requires { AllByRecursion IsRegister writes.old.items }
    ensures values { values.new ≡ record values.old { registers = written writes.old.items values.old.registers } }
    ensures empty { writes.new.items ≡ [] }
    ensures capacity { vec_capacity writes.new ≡ vec_capacity writes.old }
{
    while let Some(write) = writes.pop() {
        values.write(write);
    }
}

/// Does all stores, the last first.
fn store_all(stores: &mut Vec<PendingStore>, values: &mut Values)
    requires { AllByRecursion (IsInside (lengths_of values.old.cells)) stores.old.items }
    ensures values { values.new ≡ record values.old { cells = stored stores.old.items values.old.cells } }
    ensures empty { stores.new.items ≡ [] }
    ensures capacity { vec_capacity stores.new ≡ vec_capacity stores.old }
{
    while let Some(store) = stores.pop() {
        values.store(store);
    }
}
