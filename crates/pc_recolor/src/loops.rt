//! The innermost loops of rows.
use crate::branches::{Branches, forwarding_target};
use pc_machine::Tree;
use pc_word::RowTree;
use std::alloc::{AllocError, Global};

/// The innermost loops of rows. A branch row to which an edge leads from a descendant of it in the walk is a head; its
/// loop are the descendants from which it is reachable, and the forwarding rows between them, if no other head is among
/// them (Havlak 1997).
#[derive(Drop)]
pub(crate) struct Loops {
    /// The row at the head of each loop.
    heads: Vec<u32>,
    /// The loop of each row that stands in one.
    of_row: Vec<Option<u32>>,
}

/// The search for loops.
#[derive(Drop)]
struct Search {
    /// The predecessors of each branch row.
    predecessors: Vec<Vec<u32>>,
    /// Which branch rows are heads.
    is_head: Vec<bool>,
    /// The head for which each branch row was found last.
    found_for: Vec<Option<u32>>,
}

impl Search {
    /// What is to be known before it begins.
    fn new(alloc: Global, branches: &Branches) -> Result<Search, AllocError> {
        let mut search = Search {
            predecessors: Vec::new(alloc),
            is_head: Vec::new(alloc),
            found_for: Vec::new(alloc),
        };
        for _branch in 0..branches.count() {
            search.predecessors.push(Vec::new(alloc))?;
            search.is_head.push(false)?;
            search.found_for.push(None)?;
        }
        for branch in 0..branches.count() {
            for edge in branches.edges(branch) {
                if let Some(end) = branches.end(*edge) {
                    search.note(branch, end, branches.is_descendant(branch, end))?;
                }
            }
        }
        Ok(search)
    }

    /// Notes an edge from one branch row to another, which is a head if the edge goes back.
    fn note(&mut self, from: u32, to: u32, back: bool) -> Result<(), AllocError> {
        if let Some(predecessors) = self.predecessors.get_mut(to as usize) {
            predecessors.push(from)?;
        }
        if back {
            if let Some(entry) = self.is_head.get_mut(to as usize) {
                *entry = true;
            }
        }
        Ok(())
    }

    /// Finds a branch row for a head; whether it was not found before.
    fn finds(&mut self, branch: u32, head: u32) -> bool {
        match self.found_for.get_mut(branch as usize) {
            Some(entry) => {
                let fresh = *entry != Some(head);
                *entry = Some(head);
                fresh
            }
            None => false,
        }
    }

    /// Finds the predecessors of a branch row that are descendants of a head; whether another head is among them.
    fn step(
        &mut self,
        branches: &Branches,
        head: u32,
        branch: u32,
        found: &mut Vec<u32>,
    ) -> Result<bool, AllocError> {
        for at in 0..usize::MAX {
            let Some(predecessors) = self.predecessors.get(branch as usize) else {
                return Ok(false);
            };
            let Some(from) = predecessors.get(at).copied() else {
                return Ok(false);
            };
            if branches.is_descendant(from, head) && self.finds(from, head) {
                if self.is_head.get(from as usize).copied().unwrap_or(false) {
                    return Ok(true);
                }
                found.push(from)?;
            }
        }
        Ok(false)
    }

    /// The branch rows of the loop of a head; `None` where another head is among them.
    fn body(
        &mut self,
        alloc: Global,
        branches: &Branches,
        head: u32,
    ) -> Result<Option<Vec<u32>>, AllocError> {
        let mut found = Vec::new(alloc);
        found.push(head)?;
        self.finds(head, head);
        for at in 0..usize::MAX {
            let Some(branch) = found.get(at).copied() else {
                return Ok(Some(found));
            };
            if self.step(branches, head, branch, &mut found)? {
                return Ok(None);
            }
        }
        Ok(Some(found))
    }
}

impl Loops {
    /// The innermost loops of rows.
    pub(crate) fn of(
        alloc: Global,
        rows: &[Tree],
        branches: &Branches,
    ) -> Result<Loops, AllocError> {
        let mut search = Search::new(alloc, branches)?;
        let mut loops = Loops {
            heads: Vec::new(alloc),
            of_row: Vec::new(alloc),
        };
        for _row in rows {
            loops.of_row.push(None)?;
        }
        for head in 0..branches.count() {
            if search.is_head.get(head as usize).copied().unwrap_or(false) {
                if let Some(body) = search.body(alloc, branches, head)? {
                    loops.add(rows, branches, branches.row(head), &body)?;
                }
            }
        }
        Ok(loops)
    }

    /// How many there are.
    pub(crate) fn count(&self) -> usize {
        self.heads.len()
    }

    /// The loop of a row.
    pub(crate) fn of_row(&self, row: u32) -> Option<u32> {
        self.of_row.get(row as usize).copied().unwrap_or(None)
    }

    /// Whether a row is the head of a loop.
    pub(crate) fn is_head(&self, row: u32, number: u32) -> bool {
        self.heads.get(number as usize).copied() == Some(row)
    }

    /// One more loop, with these branch rows.
    fn add(
        &mut self,
        rows: &[Tree],
        branches: &Branches,
        head: u32,
        body: &[u32],
    ) -> Result<(), AllocError> {
        let number = crate::branches::number_of(self.heads.len());
        self.heads.push(head)?;
        for branch in body {
            self.mark(branches.row(*branch), number);
        }
        for branch in body {
            if let Some(tree) = rows.get(branches.row(*branch) as usize) {
                self.mark_forwarding(rows, tree, number);
            }
        }
        Ok(())
    }

    /// Says of a row that it stands in a loop.
    fn mark(&mut self, row: u32, number: u32) {
        if let Some(entry) = self.of_row.get_mut(row as usize) {
            *entry = Some(number);
        }
    }

    /// The same of the forwarding rows on the edges from the leaves of a tree to branch rows of the loop.
    fn mark_forwarding(&mut self, rows: &[Tree], tree: &Tree, number: u32) {
        match tree {
            RowTree::Step { next, .. } => self.mark_forwarding(rows, next, number),
            RowTree::Test { yes, no, .. } => {
                self.mark_forwarding(rows, yes, number);
                self.mark_forwarding(rows, no, number);
            }
            RowTree::Leaf { leaf } => {
                if let Some(row) = leaf.target() {
                    self.mark_way(rows, row, number);
                }
            }
        }
    }

    /// The same of the forwarding rows from a row on, if the branch row after them is in the loop.
    fn mark_way(&mut self, rows: &[Tree], row: u32, number: u32) {
        let end = branch_after(rows, row);
        if self.of_row(end) != Some(number) {
            return;
        }
        let mut at = row;
        for _row in 0..rows.len() {
            if at == end {
                return;
            }
            self.mark(at, number);
            if let Some(next) = forwarding_target(rows, at) {
                at = next;
            }
        }
    }
}

/// The branch row after a forwarding row; a branch row itself.
fn branch_after(rows: &[Tree], row: u32) -> u32 {
    let mut end = row;
    for _row in 0..rows.len() {
        match forwarding_target(rows, end) {
            Some(next) => end = next,
            None => return end,
        }
    }
    end
}
