//! Which registers each row needs.
ghost use Rattle.std.specs.Prelude.{◌≡◌, ◌<◌, ◌⊎◌, ℕ, true, not, ◌&&◌, List, length, IfOk, IfSome, slice_set};
ghost use Rattle.pc_word.specs.Items.{dest_of};
ghost use Rattle.pc_word.specs.Commit.{writes};
ghost use Rattle.pc_machine.specs.MachineCode.{CodeRow, row_of, rows_of};
ghost use Rattle.pc_settled.specs.Webs.{At};
ghost use Rattle.pc_settled.specs.models.Sets.{member, set_at};
ghost use Rattle.pc_settled.specs.models.Found.{AreNeeded, CountsBy, IsAbove, FindsNeeds, IsBehind, value_in};

use crate::register_set::RegisterSet;
use pc_machine::{Leaf, Tree};
use pc_word::{Item, RowTree};
use std::alloc::{AllocError, Global};

/// A register that a row needs.
#[derive(Clone, Copy, Debug)]
pub struct Home {
    pub row: u32,
    pub register: u32,
}

/// The registers that rows need, and numbers for them.
#[derive(Drop)]
pub struct Liveness {
    /// The registers that each row needs.
    rows: Vec<RegisterSet>,
    /// The node of the first of these, of each row.
    nodes: Vec<u32>,
    /// What each node is.
    homes: Vec<Home>,
}

impl Liveness {
    /// The registers that a row needs.
    pub fn of_row(&self, row: u32) -> RegisterSet
        ensures { result ≡ set_at self.now.rows.items row }
    {
        set_of(&self.rows, row)
    }

    /// The registers that the row to which a leaf leads needs.
    pub fn behind(&self, leaf: Leaf) -> RegisterSet
        ensures { IsBehind self.now.rows.items leaf result }
    {
        needed_at(&self.rows, leaf)
    }

    /// The node of a register that a row needs.
    pub fn node(&self, row: u32, register: u32) -> u32 {
        let first = self.nodes.get(row as usize).copied().unwrap_or(0);
        first.wrapping_add(self.of_row(row).rank(register))
    }

    /// The node of a register, if a row needs it.
    pub fn find(&self, row: u32, register: u32) -> Option<u32>
        ensures { IfSome result (λ node. value_in self.now.homes.items node ≡ At row register) }
    {
        let node = self.node(row, register);
        let home = self.homes.get(node as usize).copied()?;
        if home.row != row || home.register != register {
            return None;
        }
        Some(node)
    }

    /// What a node is.
    pub fn home(&self, node: u32) -> Option<Home>
        ensures { IfSome result (λ home. value_in self.now.homes.items node ≡ At home.row home.register) }
    {
        self.homes.get(node as usize).copied()
    }

    /// How many nodes there are, one for each register that a row needs.
    pub fn count(&self) -> u32 {
        u32::try_from(self.homes.len()).unwrap_or(u32::MAX)
    }
}

/// What a row, or what is left of one, needs: the registers that items and tests read, and those whose
/// values it passes on.
#[derive(Clone, Copy, Debug)]
struct RowNeeds {
    read: RegisterSet,
    passed: RegisterSet,
}

impl RowNeeds {
    /// Whether an item above what needs this counts: it does more than give its register a word, or that word is
    /// passed on.
    fn counts(self, item: Item) -> bool
        ensures { result ≡ true → CountsBy item self.passed }
    {
        if !item.only_computes() {
            return true;
        }
        match item.dest() {
            Some(dest) => self.passed.contains(dest),
            None => false,
        }
    }

    /// What is read with an item above.
    fn read_above(self, item: Item) -> RegisterSet
        ensures { IsAbove item self result }
    {
        if self.counts(item) {
            return self.read.with_item(item);
        }
        self.read
    }

    /// What is passed on past an item above.
    fn passed_above(self, item: Item) -> RegisterSet
        ensures { (x : ℕ) → x < 256 → member result x ≡ (not (writes (dest_of item) x) && member self.passed x) }
    {
        match item.dest() {
            Some(dest) => self.passed.without(dest),
            None => self.passed,
        }
    }

    /// All that is needed.
    fn all(self) -> RegisterSet
        ensures { (x : ℕ) → member result x ≡ true → (member self.read x ≡ true) ⊎ (member self.passed x ≡ true) }
    {
        self.read.with_all(self.passed)
    }
}

/// The set that is listed for a row.
fn set_of(live: &[RegisterSet], row: u32) -> RegisterSet
    ensures { result ≡ set_at live.now row }
{
    live.get(row as usize)
        .copied()
        .unwrap_or(RegisterSet::none())
}

/// The registers that the row to which a leaf leads needs.
#[tactic(auto, using(crate::proofs::Needs::behind_laws))]
fn needed_at(live: &[RegisterSet], leaf: Leaf) -> RegisterSet
    ensures { IsBehind live.now leaf result }
{
    match leaf.target() {
        Some(row) => set_of(live, row),
        None => RegisterSet::none(),
    }
}

/// What a row needs. Items that only give a word which nothing below needs count for nothing.
fn needs_of(live: &[RegisterSet], tree: &Tree) -> RowNeeds
    ensures { FindsNeeds live.now (row_of tree.now) result }
{
    match tree {
        RowTree::Step { item, next } => {
            let below = needs_of(live, next);
            let read = below.read_above(*item);
            let passed = below.passed_above(*item);
            RowNeeds { read, passed }
        }
        RowTree::Test { on, yes, no } => {
            let one = needs_of(live, yes);
            let other = needs_of(live, no);
            let sides = one.read.with_all(other.read);
            let read = sides.with_operand(*on);
            let passed = one.passed.with_all(other.passed);
            RowNeeds { read, passed }
        }
        RowTree::Leaf { leaf } => {
            let read = RegisterSet::none();
            let passed = needed_at(live, *leaf);
            RowNeeds { read, passed }
        }
    }
}

/// Lists another set for a row; whether it differs.
fn put(live: &mut [RegisterSet], row: usize, needed: RegisterSet) -> bool
    ensures { live.new ≡ slice_set live.old row needed }
{
    if row >= live.len() {
        return false;
    }
    let differs = live[row] != needed;
    live[row] = needed;
    differs
}

/// Sees to a row; whether it needs more than was known.
fn see(live: &mut [RegisterSet], rows: &[Tree], row: usize) -> bool
    requires there { row < length rows.now }
    requires needed { AreNeeded (rows_of rows.now) live.old }
    ensures { AreNeeded (rows_of rows.now) live.new }
{
    let needs = needs_of(live, &rows[row]);
    put(live, row, needs.all())
}

/// Sees to each row once, the last first; whether any needs more than was known.
fn round(live: &mut [RegisterSet], rows: &[Tree]) -> bool
    requires { AreNeeded (rows_of rows.now) live.old }
    ensures { AreNeeded (rows_of rows.now) live.new }
{
    let mut changed = false;
    for row in (0..rows.len()).rev() {
        if see(live, rows, row) {
            changed = true;
        }
    }
    changed
}

/// Sees to the rows until none needs more than was known.
fn rounds(live: &mut [RegisterSet], rows: &[Tree])
    requires { AreNeeded (rows_of rows.now) live.old }
    ensures { AreNeeded (rows_of rows.now) live.new }
{
    for _turn in 0..u64::MAX {
        if !round(live, rows) {
            return;
        }
    }
}

/// So many sets of no register.
#[tactic(auto, using(crate::proofs::Needs::none_laws))]
fn no_sets(alloc: Global, rows: usize) -> Result<Vec<RegisterSet>, AllocError>
    ensures { IfOk result (λ live. (rows : List CodeRow) → AreNeeded rows live.items) }
{
    let mut live = Vec::new(alloc);
    for _row in 0..rows {
        live.push(RegisterSet::none())?;
    }
    Ok(live)
}

/// Appends the registers of a set as those that a row needs.
fn push_homes(homes: &mut Vec<Home>, row: u32, needed: RegisterSet) -> Result<(), AllocError> {
    let mut left = needed;
    for _register in 0..256 {
        let Some(register) = left.least() else {
            return Ok(());
        };
        homes.push(Home { row, register })?;
        left = left.without(register);
    }
    Ok(())
}

/// The registers that each row needs: those whose values something reads that is itself needed. It takes time in
/// proportion to the rows' nodes, times the rounds until nothing changes.
pub fn liveness_of(alloc: Global, rows: &[Tree]) -> Result<Liveness, AllocError>
    ensures { IfOk result (λ live. AreNeeded (rows_of rows.now) live.rows.items) }
{
    let mut live = no_sets(alloc, rows.len())?;
    rounds(&mut live, rows);
    let mut nodes = Vec::new(alloc);
    let mut homes = Vec::new(alloc);
    let mut row: u32 = 0;
    for set in &live {
        nodes.push(u32::try_from(homes.len()).unwrap_or(u32::MAX))?;
        push_homes(&mut homes, row, *set)?;
        row = row.wrapping_add(1);
    }
    Ok(Liveness {
        rows: live,
        nodes,
        homes,
    })
}
