//! How long the loops of tightened rows are.
use crate::branches::{Branches, Edge, number_of};
use crate::phases::Phased;
use std::alloc::{AllocError, Global};

/// How many rounds over the branch rows are made before a loop counts as slower.
const MOST_ROUNDS: usize = 64;

/// The branch rows of rows in phases, before these are tightened.
#[derive(Drop)]
pub(crate) struct PhasedBranches {
    branches: Branches,
    /// The row of the code before that each of them does.
    origins: Vec<u32>,
    /// The loop in which each of them stands.
    loops: Vec<Option<u32>>,
}

impl PhasedBranches {
    /// What is to be known of rows in phases.
    pub(crate) fn of(alloc: Global, phased: &Phased) -> Result<PhasedBranches, AllocError> {
        let branches = Branches::of(alloc, &phased.rows)?;
        let mut origins = Vec::new(alloc);
        let mut loops = Vec::new(alloc);
        for row in &branches.rows {
            let at = *row as usize;
            origins.push(phased.origins.get(at).copied().unwrap_or(0))?;
            loops.push(phased.loops.get(at).copied().unwrap_or(None))?;
        }
        Ok(PhasedBranches {
            branches,
            origins,
            loops,
        })
    }

    /// The loop of a branch row.
    fn loop_of(&self, branch: u32) -> Option<u32> {
        self.loops.get(branch as usize).copied().unwrap_or(None)
    }

    /// The branch row at the end of an edge from a loop, if it stands in the loop.
    fn end_within(&self, branches: &Branches, edge: Edge, number: u32) -> Option<u32> {
        let end = branches.end(edge)?;
        if self.loop_of(end) == Some(number) {
            Some(end)
        } else {
            None
        }
    }

    /// How many rows of copies each of so many loops keeps in the same rows tightened.
    pub(crate) fn copies_kept(
        &self,
        alloc: Global,
        loops: usize,
        tightened: &Branches,
    ) -> Result<Vec<u32>, AllocError> {
        let mut kept = Vec::new(alloc);
        for _number in 0..loops {
            kept.push(0)?;
        }
        for branch in 0..tightened.count() {
            if let Some(number) = self.loop_of(branch) {
                let more = self.kept_at(tightened, branch, number);
                if let Some(entry) = kept.get_mut(number as usize) {
                    *entry = more.saturating_add(*entry);
                }
            }
        }
        Ok(kept)
    }

    /// How many of them the edges of a branch row keep: those that are left, and those that other items moved up into,
    /// where no other forwarding row is gone.
    fn kept_at(&self, tightened: &Branches, branch: u32, number: u32) -> u32 {
        let mut kept: u32 = 0;
        for at in 0..tightened.edges(branch).len() {
            let (Some(edge), Some(before)) = (
                tightened.edges(branch).get(at).copied(),
                self.branches.edges(branch).get(at).copied(),
            ) else {
                return kept;
            };
            if self.end_within(tightened, edge, number).is_some() {
                let others = before.forwarding.saturating_sub(before.copies);
                let left = edge.forwarding.saturating_sub(others).min(before.copies);
                kept = kept.saturating_add(left.max(edge.copies));
            }
        }
        kept
    }
}

/// What is to be compared: the same rows in phases and not, both tightened.
#[derive(Clone, Copy)]
pub(crate) struct Paces<'a> {
    pub(crate) phased: &'a PhasedBranches,
    /// The rows in phases, tightened.
    pub(crate) after: &'a Branches,
    /// The rows as they were, and tightened.
    pub(crate) before: &'a Branches,
    pub(crate) other: &'a Branches,
}

impl Paces<'_> {
    /// How many forwarding rows stood on an edge of a branch row, as it was not in phases.
    fn forwarding_before(&self, branch: u32, at: usize) -> u32 {
        let origin = self
            .phased
            .origins
            .get(branch as usize)
            .copied()
            .unwrap_or(0);
        let Some(same) = self.before.number(origin) else {
            return 0;
        };
        match self.other.edges(same).get(at) {
            Some(edge) => edge.forwarding,
            None => 0,
        }
    }

    /// Sees that the branch row at the end of each edge from one, within its loop, is late by at least as much as that one
    /// and the forwarding rows that are new on the edge; whether one was less so.
    fn see(&self, late: &mut [u32], branch: u32) -> bool {
        let mut changed = false;
        let Some(number) = self.phased.loop_of(branch) else {
            return false;
        };
        for at in 0..self.after.edges(branch).len() {
            let Some(edge) = self.after.edges(branch).get(at).copied() else {
                return changed;
            };
            let Some(end) = self.phased.end_within(self.after, edge, number) else {
                continue;
            };
            let now = late.get(branch as usize).copied().unwrap_or(0);
            let due = now
                .saturating_add(edge.forwarding)
                .saturating_sub(self.forwarding_before(branch, at));
            if let Some(entry) = late.get_mut(end as usize) {
                if *entry < due {
                    *entry = due;
                    changed = true;
                }
            }
        }
        changed
    }

    /// Whether no path round a loop takes more cycles than the same path took. A path takes one cycle for each branch row and
    /// one for each forwarding row, and its branch rows are the same: so each branch row gets a number, by how much it is
    /// late, such that along each edge the numbers rise by at least the forwarding rows that are new. There are such
    /// numbers exactly where no path round has more forwarding rows than before.
    pub(crate) fn are_no_slower(&self, alloc: Global) -> Result<bool, AllocError> {
        let mut late = Vec::new(alloc);
        for _branch in 0..self.after.count() {
            late.push(0)?;
        }
        for _round in 0..MOST_ROUNDS {
            let mut changed = false;
            for branch in 0..self.after.count() {
                changed = self.see(&mut late, branch) || changed;
            }
            if !changed {
                return Ok(true);
            }
        }
        Ok(false)
    }
}
