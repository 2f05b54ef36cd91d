//! The points at which registers must be apart, and what is held there: hints for the maker and the checker of
//! registers, so that no function here owes a meaning.
use crate::liveness::Liveness;
use crate::nodes::{NodeSets, node_below};
use pc_machine::{Leaf, Tree};
use pc_word::RowTree;
use std::alloc::{AllocError, Global};

/// The points of webs, by number, in order.
#[derive(Drop)]
pub struct Gathering {
    pub points: Vec<Vec<u32>>,
    /// The number of the web of each node that is the least of its set.
    pub numbers: Vec<Option<u32>>,
}

impl Gathering {
    /// The number of the web of a node that is the least of its set, which is a new one if need be.
    fn number(&mut self, alloc: Global, least: u32) -> Result<u32, AllocError> {
        if let Some(Some(number)) = self.numbers.get(least as usize) {
            return Ok(*number);
        }
        let number = number_of(self.points.len());
        self.points.push(Vec::new(alloc))?;
        if let Some(entry) = self.numbers.get_mut(least as usize) {
            *entry = Some(number);
        }
        Ok(number)
    }

    /// One more point at which a web has its register.
    fn hold(&mut self, alloc: Global, least: u32, point: u32) -> Result<(), AllocError> {
        let number = self.number(alloc, least)?;
        match self.points.get_mut(number as usize) {
            Some(points) => push_new(points, point),
            None => Ok(()),
        }
    }

    /// The points of the web of a node that is the least of its set.
    fn points_of(&self, least: u32) -> &[u32] {
        if let Some(Some(number)) = self.numbers.get(least as usize) {
            if let Some(points) = self.points.get(*number as usize) {
                return points.as_slice();
            }
        }
        &[]
    }

    /// A point of two webs, whose nodes are the least of their sets. It takes time in proportion to the shorter one.
    pub fn common(&self, one: u32, other: u32) -> Option<u32> {
        let first = self.points_of(one);
        let second = self.points_of(other);
        if second.len() < first.len() {
            return found_among(second, first);
        }
        found_among(first, second)
    }
}

/// A length as a number.
fn number_of(length: usize) -> u32 {
    u32::try_from(length).unwrap_or(u32::MAX)
}

/// Appends a point that is not the last already.
fn push_new(points: &mut Vec<u32>, point: u32) -> Result<(), AllocError> {
    if let Some(last) = points.last() {
        if *last == point {
            return Ok(());
        }
    }
    points.push(point)?;
    Ok(())
}

/// The first point of a web that is one of another, which is in order.
fn found_among(points: &[u32], among: &[u32]) -> Option<u32> {
    for point in points {
        if among.binary_search(point).is_ok() {
            return Some(*point);
        }
    }
    None
}

/// How many leaves a tree has.
pub fn count_leaves(tree: &Tree) -> u32 {
    match tree {
        RowTree::Step { next, .. } => count_leaves(next),
        RowTree::Test { yes, no, .. } => count_leaves(yes).wrapping_add(count_leaves(no)),
        RowTree::Leaf { .. } => 1,
    }
}

/// Gathers the registers that a row needs, at a point.
fn hold_needed(
    alloc: Global,
    gathering: &mut Gathering,
    live: &Liveness,
    sets: &NodeSets,
    row: u32,
    point: u32,
) -> Result<(), AllocError> {
    let first = live.node(row, 0);
    for rank in 0..live.of_row(row).count() {
        let least = sets.least(first.wrapping_add(rank));
        gathering.hold(alloc, least, point)?;
    }
    Ok(())
}

/// Gathers what stands in registers at the end of a path, on which these nodes are written; `None` is
/// a register that is written though nothing needs it.
fn hold_at_end(
    alloc: Global,
    gathering: &mut Gathering,
    live: &Liveness,
    sets: &NodeSets,
    leaf: Leaf,
    written: &[Option<u32>],
    point: u32,
) -> Result<(), AllocError> {
    if written.is_empty() {
        return Ok(());
    }
    for node in written {
        if let Some(node) = node {
            gathering.hold(alloc, sets.least(*node), point)?;
        }
    }
    match leaf.target() {
        Some(row) => hold_needed(alloc, gathering, live, sets, row, point),
        None => Ok(()),
    }
}

/// Gathers what stands in registers at the end of each path of a tree; the first of these has the
/// number `point`.
fn hold_below(
    alloc: Global,
    gathering: &mut Gathering,
    live: &Liveness,
    sets: &NodeSets,
    tree: &Tree,
    written: &mut Vec<Option<u32>>,
    point: u32,
) -> Result<(), AllocError> {
    match tree {
        RowTree::Step { item, next } => {
            let node = match item.dest() {
                Some(dest) => node_below(live, next, dest),
                None => None,
            };
            let writes = node.is_some() || (item.dest().is_some() && !item.only_computes());
            if writes {
                written.push(node)?;
            }
            hold_below(alloc, gathering, live, sets, next, written, point)?;
            if writes {
                written.pop();
            }
            Ok(())
        }
        RowTree::Test { yes, no, .. } => {
            hold_below(alloc, gathering, live, sets, yes, written, point)?;
            let next = point.wrapping_add(count_leaves(yes));
            hold_below(alloc, gathering, live, sets, no, written, next)
        }
        RowTree::Leaf { leaf } => {
            hold_at_end(alloc, gathering, live, sets, *leaf, written, point)
        }
    }
}

/// Gathers the points of webs, row by row: the beginning of the row, and the end of each of its paths.
pub fn gathered(
    alloc: Global,
    live: &Liveness,
    sets: &NodeSets,
    rows: &[Tree],
) -> Result<Gathering, AllocError> {
    let mut gathering = Gathering {
        points: Vec::new(alloc),
        numbers: Vec::new(alloc),
    };
    for _node in 0..live.count() {
        gathering.numbers.push(None)?;
    }
    let mut row: u32 = 0;
    let mut point: u32 = 0;
    let mut written = Vec::new(alloc);
    for tree in rows {
        hold_needed(alloc, &mut gathering, live, sets, row, point)?;
        let first = point.wrapping_add(1);
        hold_below(alloc, &mut gathering, live, sets, tree, &mut written, first)?;
        point = first.wrapping_add(count_leaves(tree));
        row = row.wrapping_add(1);
    }
    Ok(gathering)
}

/// A point: the beginning of a row, or the end of its path to the leaf with this number.
#[derive(Clone, Copy, Debug)]
pub(crate) struct Point {
    pub(crate) row: u32,
    pub(crate) leaf: Option<u32>,
}

/// What each point is, in the order of their numbers.
pub(crate) fn points_of(alloc: Global, rows: &[Tree]) -> Result<Vec<Point>, AllocError> {
    let mut points = Vec::new(alloc);
    let mut row: u32 = 0;
    for tree in rows {
        points.push(Point { row, leaf: None })?;
        for leaf in 0..count_leaves(tree) {
            points.push(Point {
                row,
                leaf: Some(leaf),
            })?;
        }
        row = row.wrapping_add(1);
    }
    Ok(points)
}
