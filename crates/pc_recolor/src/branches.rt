//! What stays of rows when they are tightened: the graph of their branch rows.
//!
//! A forwarding row is one that a goto alone ends, whatever its items are; tightening takes some of these out, and no
//! other row. The others, and row 0, are branch rows. Items move without changing leaves, so rows and the same rows
//! tightened have the same branch rows, in the same order of a walk, and the same edges at each; what differs is how
//! many forwarding rows stand on an edge, each of which is a cycle.
use pc_machine::{Leaf, Tree};
use pc_word::{Item, RowTree};
use std::alloc::{AllocError, Global};

/// The edge from a leaf of a branch row to the next branch row.
#[derive(Clone, Copy, Debug)]
pub(crate) struct Edge {
    /// The next branch row; `None` at an end, and where forwarding rows lead round and round.
    pub(crate) to: Option<u32>,
    /// How many forwarding rows stand on the edge.
    pub(crate) forwarding: u32,
    /// How many of these have no item but copies.
    pub(crate) copies: u32,
}

/// The branch rows, numbered as a depth-first walk from row 0 first meets them.
#[derive(Drop)]
pub(crate) struct Branches {
    /// The row of each branch row.
    pub(crate) rows: Vec<u32>,
    /// The last of the branch rows that the walk first meets from each one.
    pub(crate) last: Vec<u32>,
    /// The edges of each branch row, in the order of its leaves.
    pub(crate) edges: Vec<Vec<Edge>>,
    /// The number of each row that is a branch row.
    numbers: Vec<Option<u32>>,
}

/// A step of the walk.
#[derive(Clone, Copy, Debug)]
enum Visit {
    /// To a row.
    Enter(u32),
    /// Back from a branch row, by its number.
    Leave(u32),
}

/// The row to which a goto alone leads that ends a row, or what is left of one.
fn goto_target(tree: &Tree) -> Option<u32> {
    match tree {
        RowTree::Step { next, .. } => goto_target(next),
        RowTree::Leaf { leaf } => leaf.target(),
        RowTree::Test { .. } => None,
    }
}

/// The row to which a forwarding row goes; `None` of a branch row.
pub(crate) fn forwarding_target(rows: &[Tree], row: u32) -> Option<u32> {
    if row == 0 {
        return None;
    }
    goto_target(rows.get(row as usize)?)
}

/// Whether a row that a goto alone ends has no item but copies.
fn has_copies_alone(tree: &Tree) -> bool {
    match tree {
        RowTree::Step { item, next } => match item {
            Item::Copy { .. } => has_copies_alone(next),
            _ => false,
        },
        RowTree::Leaf { .. } => true,
        RowTree::Test { .. } => false,
    }
}

/// Whether a row is a forwarding row with no item but copies.
pub(crate) fn is_row_of_copies(rows: &[Tree], row: u32) -> bool {
    match rows.get(row as usize) {
        Some(tree) => forwarding_target(rows, row).is_some() && has_copies_alone(tree),
        None => false,
    }
}

/// The edge from a leaf.
fn edge_at(rows: &[Tree], leaf: Leaf) -> Edge {
    let mut edge = Edge {
        to: leaf.target(),
        forwarding: 0,
        copies: 0,
    };
    for _row in 0..=rows.len() {
        let Some(row) = edge.to else {
            return edge;
        };
        let Some(next) = forwarding_target(rows, row) else {
            return edge;
        };
        edge.to = Some(next);
        edge.forwarding = edge.forwarding.wrapping_add(1);
        if is_row_of_copies(rows, row) {
            edge.copies = edge.copies.wrapping_add(1);
        }
    }
    Edge {
        to: None,
        forwarding: 0,
        copies: 0,
    }
}

/// Appends the edges from the leaves of a tree.
fn push_edges(rows: &[Tree], tree: &Tree, edges: &mut Vec<Edge>) -> Result<(), AllocError> {
    match tree {
        RowTree::Step { next, .. } => push_edges(rows, next, edges),
        RowTree::Test { yes, no, .. } => {
            push_edges(rows, yes, edges)?;
            push_edges(rows, no, edges)
        }
        RowTree::Leaf { leaf } => {
            edges.push(edge_at(rows, *leaf))?;
            Ok(())
        }
    }
}

impl Branches {
    /// The branch rows of these rows.
    pub(crate) fn of(alloc: Global, rows: &[Tree]) -> Result<Branches, AllocError> {
        let mut numbers = Vec::new(alloc);
        for _row in rows {
            numbers.push(None)?;
        }
        let mut branches = Branches {
            rows: Vec::new(alloc),
            last: Vec::new(alloc),
            edges: Vec::new(alloc),
            numbers,
        };
        let mut waiting = Vec::new(alloc);
        waiting.push(Visit::Enter(0))?;
        for _turn in 0..u64::MAX {
            match waiting.pop() {
                Some(Visit::Enter(row)) => branches.enter(alloc, rows, &mut waiting, row)?,
                Some(Visit::Leave(branch)) => branches.leave(branch),
                None => return Ok(branches),
            }
        }
        Ok(branches)
    }

    /// How many there are.
    pub(crate) fn count(&self) -> u32 {
        number_of(self.rows.len())
    }

    /// The number of a row that is a branch row.
    pub(crate) fn number(&self, row: u32) -> Option<u32> {
        self.numbers.get(row as usize).copied().unwrap_or(None)
    }

    /// The row of a branch row; row 0 of a number that none has.
    pub(crate) fn row(&self, branch: u32) -> u32 {
        self.rows.get(branch as usize).copied().unwrap_or(0)
    }

    /// The edges of a branch row.
    pub(crate) fn edges(&self, branch: u32) -> &[Edge] {
        match self.edges.get(branch as usize) {
            Some(edges) => edges.as_slice(),
            None => &[],
        }
    }

    /// The branch row at the end of an edge.
    pub(crate) fn end(&self, edge: Edge) -> Option<u32> {
        self.number(edge.to?)
    }

    /// Whether one branch row is a descendant of another one in the walk, or that one itself.
    pub(crate) fn is_descendant(&self, branch: u32, other: u32) -> bool {
        match self.last.get(other as usize) {
            Some(last) => other <= branch && branch <= *last,
            None => false,
        }
    }

    /// Comes to a row; if it is new, has the ends of its edges wait, that of the first leaf on top.
    fn enter(
        &mut self,
        alloc: Global,
        rows: &[Tree],
        waiting: &mut Vec<Visit>,
        row: u32,
    ) -> Result<(), AllocError> {
        let Some(tree) = rows.get(row as usize) else {
            return Ok(());
        };
        if self.number(row).is_some() {
            return Ok(());
        }
        let branch = number_of(self.rows.len());
        if let Some(entry) = self.numbers.get_mut(row as usize) {
            *entry = Some(branch);
        }
        let mut edges = Vec::new(alloc);
        push_edges(rows, tree, &mut edges)?;
        waiting.push(Visit::Leave(branch))?;
        for edge in edges.iter().rev() {
            if let Some(to) = edge.to {
                waiting.push(Visit::Enter(to))?;
            }
        }
        self.rows.push(row)?;
        self.last.push(branch)?;
        self.edges.push(edges)?;
        Ok(())
    }

    /// Goes back from a branch row.
    fn leave(&mut self, branch: u32) {
        let met = number_of(self.rows.len());
        if let Some(last) = self.last.get_mut(branch as usize) {
            *last = met.saturating_sub(1);
        }
    }
}

/// A length as a number.
pub(crate) fn number_of(length: usize) -> u32 {
    u32::try_from(length).unwrap_or(u32::MAX)
}
