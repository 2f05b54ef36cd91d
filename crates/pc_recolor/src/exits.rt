//! The rows after loops that can be reached through one loop alone.
use crate::loops::Loops;
use pc_machine::Tree;
use pc_word::RowTree;
use std::alloc::{AllocError, Global};

/// The leaves that go to a row.
#[derive(Clone, Copy, Debug)]
struct Arrivals {
    /// How many leaves.
    all: u32,
    /// How many of them were seen in one loop, or in rows that can be reached through it alone.
    seen: u32,
    /// That loop.
    of_loop: Option<u32>,
}

/// The rows after loops that can be reached through one loop alone: each leaf that goes there stands in that loop, or in
/// such a row after it.
#[derive(Drop)]
pub(crate) struct Exits {
    arrivals: Vec<Arrivals>,
}

impl Exits {
    /// Whether a row is one of these.
    pub(crate) fn has(&self, row: u32) -> bool {
        match self.arrivals.get(row as usize) {
            Some(arrivals) => arrivals.all > 0 && arrivals.all == arrivals.seen,
            None => false,
        }
    }

    /// Counts the leaves of a tree.
    fn count(&mut self, tree: &Tree) {
        match tree {
            RowTree::Step { next, .. } => self.count(next),
            RowTree::Test { yes, no, .. } => {
                self.count(yes);
                self.count(no);
            }
            RowTree::Leaf { leaf } => {
                if let Some(row) = leaf.target() {
                    if let Some(arrivals) = self.arrivals.get_mut(row as usize) {
                        arrivals.all = arrivals.all.saturating_add(1);
                    }
                }
            }
        }
    }

    /// Sees a leaf of a loop, or of a row after one, that goes to a row; whether all are seen then.
    fn sees(&mut self, row: u32, number: u32) -> bool {
        let Some(arrivals) = self.arrivals.get_mut(row as usize) else {
            return false;
        };
        if arrivals.of_loop.is_none() {
            arrivals.of_loop = Some(number);
        }
        if arrivals.of_loop == Some(number) {
            arrivals.seen = arrivals.seen.saturating_add(1);
            return arrivals.all == arrivals.seen;
        }
        false
    }

    /// Sees the leaves of a tree of a loop, or of a row after one, and appends the rows of which all are seen then.
    fn see(
        &mut self,
        loops: &Loops,
        tree: &Tree,
        number: u32,
        found: &mut Vec<u32>,
    ) -> Result<(), AllocError> {
        match tree {
            RowTree::Step { next, .. } => self.see(loops, next, number, found),
            RowTree::Test { yes, no, .. } => {
                self.see(loops, yes, number, found)?;
                self.see(loops, no, number, found)
            }
            RowTree::Leaf { leaf } => {
                if let Some(row) = leaf.target() {
                    if loops.of_row(row).is_none() && self.sees(row, number) {
                        found.push(row)?;
                    }
                }
                Ok(())
            }
        }
    }

    /// The loop of a row, or that after which it stands.
    fn loop_of(&self, loops: &Loops, row: u32) -> Option<u32> {
        match loops.of_row(row) {
            Some(number) => Some(number),
            None => self.arrivals.get(row as usize)?.of_loop,
        }
    }

    /// The rows after loops that can be reached through one loop alone.
    pub(crate) fn of(alloc: Global, rows: &[Tree], loops: &Loops) -> Result<Exits, AllocError> {
        let mut exits = Exits {
            arrivals: Vec::new(alloc),
        };
        for _row in rows {
            exits.arrivals.push(Arrivals {
                all: 0,
                seen: 0,
                of_loop: None,
            })?;
        }
        let mut found = Vec::new(alloc);
        let mut number: u32 = 0;
        for tree in rows {
            exits.count(tree);
            if loops.of_row(number).is_some() {
                found.push(number)?;
            }
            number = number.wrapping_add(1);
        }
        // The run comes to row 0 before any leaf goes there.
        if let Some(arrivals) = exits.arrivals.get_mut(0) {
            arrivals.all = arrivals.all.saturating_add(1);
        }
        for at in 0..usize::MAX {
            let Some(row) = found.get(at).copied() else {
                return Ok(exits);
            };
            if let (Some(tree), Some(number)) = (
                rows.get(row as usize),
                exits.loop_of(loops, row),
            ) {
                exits.see(loops, tree, number, &mut found)?;
            }
        }
        Ok(exits)
    }
}
