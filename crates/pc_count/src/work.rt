//! What the cycles of a run did, by how often each leaf was taken.
ghost use Rattle.std.specs.Prelude.{◌≡◌, ◌+◌, ◌<◌, ◌≤◌, ◌^◌, length, sum};
ghost use Rattle.pc_word.specs.MachineLimits.{most_cycles};
ghost use Rattle.pc_machine.specs.MachineCode.{code_of, row_of, rows_of};
ghost use Rattle.pc_count.specs.Counts.{profile_of};
ghost use Rattle.pc_count.specs.Profiles.{IsProfileOf, IsWorkOf};
ghost use Rattle.pc_count.specs.Work.{both, copies_alone, copy_cycles, copy_cycles_besides, idle, is_bare, is_copy, is_print, is_read, more_where, row_work, with_item, with_test, work_of};
ghost use Rattle.pc_count.specs.models.Bounds.{AreCounted, IsBounded, IsCounted, all_counts};

use crate::profile::{CountList, Profile};
use pc_machine::{Code, Tree, leaf_count};
use pc_word::{Item, RowTree};

/// What some cycles did. One that faulted did nothing, and is none of them.
#[derive(Clone, Copy, Debug, PartialEq, Eq)]
pub struct Work {
    pub cycles: u64,
    /// The items that they did, of whatever kind.
    pub items: u64,
    /// The tests that they passed.
    pub tests: u64,
    /// Of the items the loads and stores.
    pub memory: u64,
    /// The prints.
    pub prints: u64,
    /// The reads. `more` is none.
    pub reads: u64,
}

/// What the cycles of a run did, by how often each leaf was taken.
///
/// It takes no memory, and time in proportion to the code.
pub fn work_of(code: &Code, profile: &Profile) -> Work
    requires { IsProfileOf (code_of code.now) (profile_of profile.now) }
    ensures work { result ≡ work_of (rows_of code.now.rows) profile.now.leaves.items }
    ensures bound { IsWorkOf profile.now.cycles result }
{
    rows_work(code.rows.as_slice(), profile.leaves.as_slice())
}

/// How many cycles of a run did nothing but copies: those of rows that are one copy or more, and have no test.
///
/// It takes no memory, and time in proportion to the code.
pub fn copy_cycles(code: &Code, profile: &Profile) -> u64
    requires { IsProfileOf (code_of code.now) (profile_of profile.now) }
    ensures { result ≡ copy_cycles (rows_of code.now.rows) profile.now.rows }
{
    copy_cycles_of(code.rows.as_slice(), profile.rows.as_slice())
}

/// What the cycles did that ran these rows, by the counts of each row's leaves.
fn rows_work(rows: &[Tree], leaves: &[CountList]) -> Work
    requires counted { AreCounted (rows_of rows.now) leaves.now }
    requires few { all_counts leaves.now ≤ most_cycles }
    ensures work { result ≡ work_of (rows_of rows.now) leaves.now }
    ensures cycles { result.cycles ≤ all_counts leaves.now }
    ensures bound { IsBounded result }
{
    let mut work = Work::idle(0);
    for (number, row) in rows.iter().enumerate() {
        work = work.and(row_work(row, leaves[number].as_slice()));
    }
    work
}

/// What the cycles did that ran a row, or the part of one, by the counts of its leaves, with which the counts begin.
fn row_work(row: &Tree, counts: &[u64]) -> Work
    requires { IsCounted (row_of row.now) counts.now }
    ensures { result ≡ row_work (row_of row.now) counts.now }
{
    match row {
        RowTree::Step { item, next } => row_work(next, counts).with_item(*item),
        RowTree::Test { yes, no, .. } => {
            let behind = leaf_count(yes);
            let one = row_work(yes, counts);
            let other = row_work(no, &counts[behind..]);
            one.and(other).with_test()
        }
        RowTree::Leaf { .. } => Work::idle(counts[0]),
    }
}

impl Work {
    ghost use Rattle.std.specs.Prelude.{◌≡◌};
    ghost use Rattle.pc_count.specs.Work.{both, idle, is_print, is_read, with_item, with_test};
    ghost use Rattle.pc_count.specs.models.Bounds.{IsFew};

    /// So many cycles, which did nothing.
    fn idle(cycles: u64) -> Work
        ensures { result ≡ idle cycles }
    {
        Work {
            cycles,
            items: 0,
            tests: 0,
            memory: 0,
            prints: 0,
            reads: 0,
        }
    }

    /// What these cycles did, and those.
    fn and(self, other: Work) -> Work
        requires one { IsFew self }
        requires other { IsFew other }
        ensures { result ≡ both self other }
    {
        Work {
            cycles: self.cycles + other.cycles,
            items: self.items + other.items,
            tests: self.tests + other.tests,
            memory: self.memory + other.memory,
            prints: self.prints + other.prints,
            reads: self.reads + other.reads,
        }
    }

    /// The same, where each of the cycles did an item besides.
    fn with_item(self, item: Item) -> Work
        requires { IsFew self }
        ensures { result ≡ with_item item self }
    {
        let Work { cycles, tests, .. } = self;
        Work {
            cycles,
            items: self.items + cycles,
            tests,
            memory: more_where(item.is_memory(), cycles, self.memory),
            prints: more_where(matches!(item, Item::Print { .. }), cycles, self.prints),
            reads: more_where(matches!(item, Item::Read { .. }), cycles, self.reads),
        }
    }

    /// The same, where each of the cycles passed a test besides.
    fn with_test(self) -> Work
        requires { IsFew self }
        ensures { result ≡ with_test self }
    {
        Work {
            tests: self.tests + self.cycles,
            ..self
        }
    }
}

/// More, where a test says so.
fn more_where(here: bool, more: u64, number: u64) -> u64
    requires more { more < 2 ^ 62 }
    requires number { number < 2 ^ 62 }
    ensures { result ≡ more_where here more number }
{
    if here { number + more } else { number }
}

/// Whether an item copies.
fn is_copy(item: Item) -> bool
    ensures { result ≡ is_copy item }
{
    matches!(item, Item::Copy { .. })
}

/// Whether a tree is a leaf alone.
fn is_bare(row: &Tree) -> bool
    ensures { result ≡ is_bare (row_of row.now) }
{
    matches!(row, RowTree::Leaf { .. })
}

/// Whether a row is one copy or more, and nothing else.
fn copies_alone(row: &Tree) -> bool
    ensures { result ≡ copies_alone (row_of row.now) }
{
    match row {
        RowTree::Step { item, next } => is_copy(*item) && (is_bare(next) || copies_alone(next)),
        RowTree::Test { .. } | RowTree::Leaf { .. } => false,
    }
}

/// How many cycles ran rows that are copies alone, by how often each row ran.
fn copy_cycles_of(rows: &[Tree], counts: &[u64]) -> u64
    requires each { length rows.now ≡ length counts.now }
    requires few { sum counts.now ≤ most_cycles }
    ensures value { result ≡ copy_cycles (rows_of rows.now) counts.now }
    ensures bound { result ≤ sum counts.now }
{
    let mut cycles = 0;
    for (number, row) in rows.iter().enumerate() {
        cycles = more_where(copies_alone(row), counts[number], cycles);
    }
    cycles
}
