//! Where each set of nodes has its register: at the points at which registers must be apart.
use pc_arena::{Arena, NodeId};
use pc_machine::Tree;
use pc_settled::{Gathering, Liveness, NodeSets, RegisterSet, gathered, node_below};
use pc_word::{Item, Operand, OutOfMemory, RowTree};
use std::alloc::{AllocError, Global};

/// The points at which a set of nodes has its register, in order.
#[derive(Debug, Drop)]
pub(crate) struct Web {
    pub(crate) points: Vec<u32>,
}

/// Webs, as nodes of the graph of what may share a register: two that share no point may.
#[derive(Drop)]
pub(crate) struct Webs {
    /// The webs.
    webs: Arena<Web>,
    /// Where the web with each number stands.
    ids: Vec<Option<NodeId>>,
    /// The number of the web of each node that is the least of its set.
    numbers: Vec<Option<u32>>,
}

/// A length as a number of a web.
fn number_of(length: usize) -> u32 {
    match u32::try_from(length) {
        Ok(number) => number,
        Err(_) => u32::MAX,
    }
}

/// Whether two webs share no point. It takes time in proportion to the shorter one.
fn are_apart(one: &[u32], other: &[u32]) -> bool {
    if other.len() < one.len() {
        return are_found_nowhere(other, one);
    }
    are_found_nowhere(one, other)
}

/// Whether no point of a web is one of another, which is in order.
fn are_found_nowhere(points: &[u32], among: &[u32]) -> bool {
    for point in points {
        if among.binary_search(point).is_ok() {
            return false;
        }
    }
    true
}

/// The points of two webs that share none, in order.
fn merged(alloc: Global, one: &[u32], other: &[u32]) -> Result<Web, AllocError> {
    let mut points = Vec::new(alloc);
    let mut at: usize = 0;
    for point in other {
        for _earlier in at..one.len() {
            match one.get(at) {
                Some(first) if first < point => {
                    points.push(*first)?;
                    at = at.wrapping_add(1);
                }
                _ => break,
            }
        }
        points.push(*point)?;
    }
    for point in one.iter().skip(at) {
        points.push(*point)?;
    }
    Ok(Web { points })
}

impl Webs {
    /// The webs of rows.
    pub(crate) fn of(
        alloc: Global,
        live: &Liveness,
        sets: &NodeSets,
        rows: &[Tree],
    ) -> Result<Webs, OutOfMemory> {
        let Gathering { points, numbers } = gathered(alloc, live, sets, rows)?;
        let mut webs = Arena::new(alloc);
        let mut ids = Vec::new(alloc);
        for points in points {
            webs.reserve(1)?;
            ids.push(Some(webs.put(Web { points })))?;
        }
        Ok(Webs { webs, ids, numbers })
    }

    /// Where the web of a node that is the least of its set stands.
    fn id(&self, least: u32) -> Option<NodeId> {
        match self.numbers.get(least as usize) {
            Some(Some(number)) => self.ids.get(*number as usize).copied().unwrap_or(None),
            _ => None,
        }
    }

    /// Makes one web of those of two nodes that are the least of their sets, if they share no point;
    /// whether they are one then.
    fn merge(&mut self, alloc: Global, one: u32, other: u32) -> Result<bool, OutOfMemory> {
        let (Some(first), Some(second)) = (self.id(one), self.id(other)) else {
            return Ok(false);
        };
        if !self.webs.holds(first) || !self.webs.holds(second) {
            return Ok(false);
        }
        if !are_apart(&self.webs.get(first).points, &self.webs.get(second).points) {
            return Ok(false);
        }
        let taken = self.webs.take(first);
        if !self.webs.holds(second) {
            return Ok(false);
        }
        let other_taken = self.webs.take(second);
        let web = merged(alloc, &taken.points, &other_taken.points)?;
        self.webs.reserve(1)?;
        let id = self.webs.put(web);
        self.stand(one.max(other), None);
        self.stand(one.min(other), Some(id));
        Ok(true)
    }

    /// Says where the web of a node that is the least of its set stands.
    fn stand(&mut self, least: u32, id: Option<NodeId>) {
        if let Some(Some(number)) = self.numbers.get(least as usize) {
            if let Some(entry) = self.ids.get_mut(*number as usize) {
                *entry = id;
            }
        }
    }

    /// Makes the two sets of a copy one, if their webs share no point.
    fn merge_copy(
        &mut self,
        alloc: Global,
        sets: &mut NodeSets,
        made: u32,
        from: u32,
    ) -> Result<(), OutOfMemory> {
        let one = sets.least(made);
        let other = sets.least(from);
        if one != other && self.merge(alloc, one, other)? {
            sets.join(one, other);
        }
        Ok(())
    }

    /// Merges the webs of each copy of a row, or of what is left of one.
    pub(crate) fn merge_copies(
        &mut self,
        alloc: Global,
        live: &Liveness,
        sets: &mut NodeSets,
        row: u32,
        tree: &Tree,
    ) -> Result<(), OutOfMemory> {
        match tree {
            RowTree::Step { item, next } => {
                if let Item::Copy {
                    dest,
                    from: Operand::Name(from),
                } = item
                {
                    if let Some(made) = node_below(live, next, *dest) {
                        self.merge_copy(alloc, sets, made, live.node(row, *from))?;
                    }
                }
                self.merge_copies(alloc, live, sets, row, next)
            }
            RowTree::Test { yes, no, .. } => {
                self.merge_copies(alloc, live, sets, row, yes)?;
                self.merge_copies(alloc, live, sets, row, no)
            }
            RowTree::Leaf { .. } => Ok(()),
        }
    }
}

/// How large a web is: those with more points come first, and among these those with lesser nodes.
#[derive(Clone, Copy, Debug, PartialEq, Eq, PartialOrd, Ord)]
pub(crate) struct WebSize {
    /// The greatest number less the points.
    fewer: u32,
    /// The least node of its set.
    least: u32,
}

impl Webs {
    /// The size of the web of a node, if it is the least of its set.
    fn size(&self, least: u32) -> Option<WebSize> {
        let id = self.id(least)?;
        if !self.webs.holds(id) {
            return None;
        }
        let fewer = u32::MAX - number_of(self.webs.get(id).points.len());
        Some(WebSize { fewer, least })
    }

    /// The webs, those with more points first.
    fn sizes(&self, alloc: Global) -> Result<Vec<WebSize>, AllocError> {
        let mut sizes = Vec::new(alloc);
        let mut least: u32 = 0;
        for _number in &self.numbers {
            if let Some(size) = self.size(least) {
                sizes.push(size)?;
            }
            least = least.wrapping_add(1);
        }
        sizes.sort_unstable();
        Ok(sizes)
    }

    /// The least of so many registers that is taken at no point of a web, which takes it then.
    fn first_fit(&self, taken: &mut [RegisterSet], registers: u16, least: u32) -> Option<u8> {
        let id = self.id(least)?;
        if !self.webs.holds(id) {
            return None;
        }
        let points = &self.webs.get(id).points;
        let mut used = RegisterSet::none();
        for point in points {
            used = used.with_all(set_at(taken, *point));
        }
        let place = used.least_other(registers)?;
        for point in points {
            if let Some(set) = taken.get_mut(*point as usize) {
                *set = set.with(place as u32);
            }
        }
        Some(place)
    }

    /// Gives each web a register, one after the other; `false` where one finds none.
    pub(crate) fn colour(
        &self,
        alloc: Global,
        taken: &mut [RegisterSet],
        places: &mut [u8],
        registers: u16,
    ) -> Result<bool, AllocError> {
        for size in self.sizes(alloc)? {
            match self.first_fit(taken, registers, size.least) {
                Some(place) => {
                    if let Some(entry) = places.get_mut(size.least as usize) {
                        *entry = place;
                    }
                }
                None => return Ok(false),
            }
        }
        Ok(true)
    }
}

/// The registers that are taken at a point.
pub(crate) fn set_at(taken: &[RegisterSet], point: u32) -> RegisterSet {
    taken
        .get(point as usize)
        .copied()
        .unwrap_or(RegisterSet::none())
}
