//! Values that are to have one register: a register that a row needs, and all that comes from it.
ghost use Rattle.std.specs.Prelude.{◌≡◌, ℕ, List, IfOk, IfSome, slice_index_or, slice_set};
ghost use Rattle.pc_machine.specs.MachineCode.{CodeRow, row_of, rows_of};
ghost use Rattle.pc_settled.specs.declared.liveness.Home.{Home};
ghost use Rattle.pc_settled.specs.models.Found.{AreNeeded, AreJoined, LeadsTo, Joins, IsNodeAt, FindsBelow, JoinsBelow, JoinsGiven, JoinsLeaf, JoinsRow};

use crate::liveness::Liveness;
use crate::register_set::RegisterSet;
use pc_machine::{Leaf, Tree};
use pc_word::RowTree;
use std::alloc::{AllocError, Global};

/// Sets of nodes that are to have one register, as trees of numbers: each node names one that is not
/// greater, the least of a set itself (Galler and Fischer 1964).
#[derive(Debug, Drop)]
pub struct NodeSets {
    up: Vec<u32>,
}

impl NodeSets {
    /// So many nodes, each by itself.
    #[tactic(auto, using(crate::proofs::Webs::own_laws))]
    fn new(alloc: Global, count: u32) -> Result<NodeSets, AllocError>
        ensures { IfOk result (λ sets. (node : ℕ) → slice_index_or sets.up.items node node ≡ node) }
    {
        let mut up = Vec::new(alloc);
        for node in 0..count {
            up.push(node)?;
        }
        Ok(NodeSets { up })
    }

    /// What a node names.
    fn above(&self, node: u32) -> u32
        ensures { result ≡ slice_index_or self.now.up.items node node }
    {
        self.up.get(node as usize).copied().unwrap_or(node)
    }

    /// The least node of a node's set.
    pub fn least(&self, node: u32) -> u32
        ensures { LeadsTo self.now.up.items node result }
    {
        let mut at = node;
        let mut above = self.above(at);
        while above < at {
            at = above;
            above = self.above(at);
        }
        at
    }

    /// Makes a node name another one.
    fn set(&mut self, node: u32, above: u32)
        ensures { self.new.up.items ≡ slice_set self.old.up.items node above }
    {
        let at = node as usize;
        if at < self.up.len() {
            self.up[at] = above;
        }
    }

    /// Makes one set of the sets of two nodes.
    pub fn join(&mut self, one: u32, other: u32)
        ensures { Joins self.old.up.items self.new.up.items one other }
    {
        let first = self.least(one);
        let second = self.least(other);
        let least = first.min(second);
        self.set(first, least);
        self.set(second, least);
        self.set(one, least);
        self.set(other, least);
    }

    /// Joins the nodes of a register in all rows to which a tree passes it on with a node.
    #[tactic(auto, using(crate::proofs::Webs::join_laws))]
    fn join_below(&mut self, live: &Liveness, tree: &Tree, register: u32, node: u32)
        ensures { JoinsBelow live.now (row_of tree.now) register node self.old.up.items self.new.up.items }
    {
        match tree {
            RowTree::Step { item, next } => {
                if item.writes(register) {
                    return;
                }
                self.join_below(live, next, register, node);
            }
            RowTree::Test { yes, no, .. } => {
                self.join_below(live, yes, register, node);
                self.join_below(live, no, register, node);
            }
            RowTree::Leaf { leaf } => {
                if let Some(other) = node_at(live, *leaf, register) {
                    self.join(node, other);
                }
            }
        }
    }

    /// Joins the nodes of a register in all rows to which a tree passes it on.
    #[tactic(auto, using(crate::proofs::Webs::join_laws))]
    fn join_given(&mut self, live: &Liveness, tree: &Tree, register: u32)
        ensures { JoinsGiven live.now (row_of tree.now) register self.old.up.items self.new.up.items }
    {
        if let Some(node) = node_below(live, tree, register) {
            self.join_below(live, tree, register, node);
        }
    }

    /// Joins a register that a leaf passes on, if it is not written on the leaf's path, with where it comes from.
    #[tactic(auto, using(crate::proofs::Webs::leaf_laws))]
    fn join_passed(
        &mut self,
        live: &Liveness,
        row: u32,
        leaf: Leaf,
        written: RegisterSet,
        register: u32,
    )
        ensures { JoinsLeaf live.now row leaf written self.old.up.items self.new.up.items }
    {
        if written.contains(register) {
            return;
        }
        let Some(there) = node_at(live, leaf, register) else {
            return;
        };
        let Some(here) = live.find(row, register) else {
            return;
        };
        self.join(here, there);
    }

    /// Joins what a leaf passes on, which is not written on its path, with where it comes from.
    #[tactic(auto, using(crate::proofs::Webs::leaf_laws))]
    fn join_at(&mut self, live: &Liveness, row: u32, leaf: Leaf, written: RegisterSet)
        ensures { JoinsLeaf live.now row leaf written self.old.up.items self.new.up.items }
    {
        let mut passed = live.behind(leaf).without_all(written);
        for _register in 0..256 {
            let Some(register) = passed.least() else {
                return;
            };
            self.join_passed(live, row, leaf, written, register);
            passed = passed.without(register);
        }
    }

    /// Joins what a row, or what is left of one, passes on with where it comes from.
    #[tactic(auto, using(crate::proofs::Webs::row_laws))]
    fn join_row(&mut self, live: &Liveness, row: u32, tree: &Tree, written: RegisterSet)
        ensures { JoinsRow live.now row (row_of tree.now) written self.old.up.items self.new.up.items }
    {
        match tree {
            RowTree::Step { item, next } => match item.dest() {
                Some(dest) => {
                    self.join_given(live, next, dest);
                    self.join_row(live, row, next, written.with(dest));
                }
                None => self.join_row(live, row, next, written),
            },
            RowTree::Test { yes, no, .. } => {
                self.join_row(live, row, yes, written);
                self.join_row(live, row, no, written);
            }
            RowTree::Leaf { leaf } => self.join_at(live, row, *leaf, written),
        }
    }

    /// Joins what rows pass on with where it comes from.
    #[tactic(auto, using(crate::proofs::Webs::row_joined))]
    fn join_rows(&mut self, live: &Liveness, rows: &[Tree])
        ensures { AreNeeded (rows_of rows.now) live.now.rows.items → AreJoined (rows_of rows.now) live.now.homes.items self.old.up.items → AreJoined (rows_of rows.now) live.now.homes.items self.new.up.items }
    {
        for at in 0..rows.len() {
            let Some(row) = row_number(at) else {
                return;
            };
            self.join_row(live, row, &rows[at], RegisterSet::none());
        }
    }
}

/// The number of the row at a place of a list of rows, if there can be such a row.
pub(crate) fn row_number(at: usize) -> Option<u32>
    ensures { IfSome result (λ row. row ≡ at) }
{
    if at <= u32::MAX as usize {
        Some(at as u32)
    } else {
        None
    }
}

/// The node of a register in the row to which a leaf leads, if that needs it.
fn node_at(live: &Liveness, leaf: Leaf, register: u32) -> Option<u32>
    ensures { IfSome result (λ node. IsNodeAt live.now leaf register node) }
{
    let row = leaf.target()?;
    if !live.of_row(row).contains(register) {
        return None;
    }
    live.find(row, register)
}

/// The node of a register in the first row to which a tree passes it on and that needs it.
pub fn node_below(live: &Liveness, tree: &Tree, register: u32) -> Option<u32>
    ensures { IfSome result (λ node. FindsBelow live.now (row_of tree.now) register node) }
{
    match tree {
        RowTree::Step { item, next } => {
            if item.writes(register) {
                return None;
            }
            node_below(live, next, register)
        }
        RowTree::Test { yes, no, .. } => match node_below(live, yes, register) {
            Some(node) => Some(node),
            None => node_below(live, no, register),
        },
        RowTree::Leaf { leaf } => node_at(live, *leaf, register),
    }
}

/// The sets of nodes of rows.
#[tactic(auto, using(crate::proofs::Webs::own_laws))]
pub fn node_sets(alloc: Global, live: &Liveness, rows: &[Tree]) -> Result<NodeSets, AllocError>
    ensures { IfOk result (λ sets. AreNeeded (rows_of rows.now) live.now.rows.items → AreJoined (rows_of rows.now) live.now.homes.items sets.up.items) }
{
    let mut sets = NodeSets::new(alloc, live.count())?;
    sets.join_rows(live, rows);
    Ok(sets)
}
