//! Rows with the registers that their webs have.
use crate::phases::Phased;
use crate::webs::{Webs, set_at};
use pc_machine::{Tree, TreeList};
use pc_renaming::{Holding, RowWitness, only_gives};
use pc_settled::{
    Liveness, NodeSets, RegisterSet, count_leaves, liveness_of, node_below, node_sets,
};
use pc_word::{Item, Operand, OutOfMemory, RowTree, Seq};
use std::alloc::{AllocError, Global};

/// The registers of webs.
#[derive(Drop)]
struct Painting {
    /// What each row needs.
    live: Liveness,
    sets: NodeSets,
    /// The register of each node that is the least of its set.
    places: Vec<u8>,
    /// The registers that are taken at each point.
    taken: Vec<RegisterSet>,
    registers: u16,
}

/// Rows that are to do others, and what is told of each.
#[derive(Drop)]
pub(crate) struct Made {
    pub(crate) rows: TreeList,
    pub(crate) told: Vec<RowWitness>,
}

impl Painting {
    /// The register of a node.
    fn place(&self, node: u32) -> u8 {
        let least = self.sets.least(node);
        self.places.get(least as usize).copied().unwrap_or(0)
    }

    /// An operand with the register that has its value when a row begins.
    fn operand(&self, row: u32, operand: Operand) -> Operand {
        match operand {
            Operand::Name(register) => {
                Operand::Name(u32::from(self.place(self.live.node(row, register))))
            }
            Operand::Lit(value) => Operand::Lit(value),
        }
    }

    /// An item with the registers that have the values that it reads.
    fn reading(&self, row: u32, item: Item) -> Item {
        match item {
            Item::Bin {
                op,
                dest,
                left,
                right,
            } => Item::Bin {
                op,
                dest,
                left: self.operand(row, left),
                right: self.operand(row, right),
            },
            Item::Copy { dest, from } => Item::Copy {
                dest,
                from: self.operand(row, from),
            },
            Item::Load { dest, array, index } => Item::Load {
                dest,
                array,
                index: self.operand(row, index),
            },
            Item::Store {
                array,
                index,
                value,
            } => Item::Store {
                array,
                index: self.operand(row, index),
                value: self.operand(row, value),
            },
            Item::Print { value } => Item::Print {
                value: self.operand(row, value),
            },
            Item::Read { .. } | Item::More { .. } => item,
        }
    }

    /// A register that is free at the ends of so many paths from a point on; 0 where there is none.
    fn free_place(&self, point: u32, paths: u32) -> u8 {
        let mut used = RegisterSet::none();
        for path in 0..paths {
            used = used.with_all(set_at(&self.taken, point.wrapping_add(path)));
        }
        used.least_other(self.registers).unwrap_or(0)
    }

    /// An item of a row with its registers, before what stands below it; `None` where the row is to be
    /// without it.
    fn item(&self, row: u32, item: Item, below: &Tree, point: u32) -> Option<Item> {
        let reading = self.reading(row, item);
        let Some(dest) = item.dest() else {
            return Some(reading);
        };
        match node_below(&self.live, below, dest) {
            Some(node) => {
                let place = self.place(node);
                if is_copy_of(reading, place) {
                    return None;
                }
                Some(reading.with_dest(place as u32))
            }
            None => {
                if only_gives(item) {
                    return None;
                }
                let place = self.free_place(point, count_leaves(below));
                Some(reading.with_dest(place as u32))
            }
        }
    }

    /// A row, or what is left of one, with its registers. The end of its first path is the point
    /// `point`.
    fn painted(
        &self,
        alloc: Global,
        row: u32,
        tree: &Tree,
        point: u32,
    ) -> Result<Tree, AllocError> {
        match tree {
            RowTree::Step { item, next } => {
                let below = self.painted(alloc, row, next, point)?;
                match self.item(row, *item, next, point) {
                    Some(item) => step(alloc, item, below),
                    None => Ok(below),
                }
            }
            RowTree::Test { on, yes, no } => {
                let on = self.operand(row, *on);
                let after = point.wrapping_add(count_leaves(yes));
                let yes = self.painted(alloc, row, yes, point)?;
                let no = self.painted(alloc, row, no, after)?;
                test(alloc, on, yes, no)
            }
            RowTree::Leaf { leaf } => Ok(RowTree::Leaf { leaf: *leaf }),
        }
    }

    /// What is told of a row: where it finds the values that it needs.
    fn told(&self, alloc: Global, row: u32, origin: u32) -> Result<RowWitness, AllocError> {
        let mut needed = self.live.of_row(row);
        let mut held = Vec::new(alloc);
        for _register in 0..=u8::MAX {
            let Some(least) = needed.least() else {
                break;
            };
            let Ok(register) = u8::try_from(least) else {
                break;
            };
            let place = self.place(self.live.node(row, least));
            held.push(Holding { register, place })?;
            needed = needed.without(least);
        }
        Ok(RowWitness {
            origin,
            held: Seq::from_vec(held),
        })
    }

    /// All rows with their registers, each of which is to do its origin.
    fn made(&self, alloc: Global, phased: &Phased) -> Result<Made, AllocError> {
        let mut made = Vec::new(alloc);
        let mut told = Vec::new(alloc);
        let mut row: u32 = 0;
        let mut point: u32 = 0;
        for tree in &phased.rows {
            let first = point.wrapping_add(1);
            let origin = phased.origins.get(row as usize).copied().unwrap_or(0);
            made.push(self.painted(alloc, row, tree, first)?)?;
            told.push(self.told(alloc, row, origin)?)?;
            point = first.wrapping_add(count_leaves(tree));
            row = row.wrapping_add(1);
        }
        Ok(Made {
            rows: TreeList::from_vec(made),
            told,
        })
    }
}

/// Whether an item copies a register.
fn is_copy_of(item: Item, place: u8) -> bool {
    match item {
        Item::Copy { from, .. } => from.is_name(place as u32),
        _ => false,
    }
}

/// An item, and a tree below it.
pub(crate) fn step(alloc: Global, item: Item, below: Tree) -> Result<Tree, AllocError> {
    let next = Box::new(alloc, below)?;
    Ok(RowTree::Step { item, next })
}

/// A test, and its sides.
pub(crate) fn test(alloc: Global, on: Operand, yes: Tree, no: Tree) -> Result<Tree, AllocError> {
    let yes = Box::new(alloc, yes)?;
    let no = Box::new(alloc, no)?;
    Ok(RowTree::Test { on, yes, no })
}

/// So many sets of no register, one for each point.
fn no_sets(alloc: Global, rows: &[Tree]) -> Result<Vec<RegisterSet>, AllocError> {
    let mut sets = Vec::new(alloc);
    for tree in rows {
        sets.push(RegisterSet::none())?;
        for _path in 0..count_leaves(tree) {
            sets.push(RegisterSet::none())?;
        }
    }
    Ok(sets)
}

/// So many places.
fn no_places(alloc: Global, count: u32) -> Result<Vec<u8>, AllocError> {
    let mut places = Vec::new(alloc);
    for _node in 0..count {
        places.push(0)?;
    }
    Ok(places)
}

/// Merges the webs of copies, row by row, of the rows that stand in loops, or of those that do not.
fn merge_all(
    alloc: Global,
    webs: &mut Webs,
    live: &Liveness,
    sets: &mut NodeSets,
    phased: &Phased,
    in_loops: bool,
) -> Result<(), OutOfMemory> {
    let mut row: u32 = 0;
    for tree in &phased.rows {
        let within = phased.loops.get(row as usize).copied().unwrap_or(None);
        if within.is_some() == in_loops {
            webs.merge_copies(alloc, live, sets, row, tree)?;
        }
        row = row.wrapping_add(1);
    }
    Ok(())
}

/// What the rows need, and its webs, of which those of a copy are one wherever they may.
#[derive(Drop)]
pub(crate) struct Merged {
    pub(crate) live: Liveness,
    pub(crate) sets: NodeSets,
    webs: Webs,
}

/// The webs of rows, with those of copies merged as in the coalescing of Chaitin (1982).
pub(crate) fn merged_webs(alloc: Global, phased: &Phased) -> Result<Merged, OutOfMemory> {
    let rows = phased.rows.as_slice();
    let live = liveness_of(alloc, rows)?;
    let mut sets = node_sets(alloc, &live, rows)?;
    let mut webs = Webs::of(alloc, &live, &sets, rows)?;
    merge_all(alloc, &mut webs, &live, &mut sets, phased, true)?;
    merge_all(alloc, &mut webs, &live, &mut sets, phased, false)?;
    Ok(Merged { live, sets, webs })
}

/// Rows that do these with other registers, of so many, in which each web has one; `None` where there are too few
/// registers. They are taken by first fit.
pub(crate) fn painted_rows(
    alloc: Global,
    registers: u16,
    phased: &Phased,
    merged: Merged,
) -> Result<Option<Made>, OutOfMemory> {
    let rows = phased.rows.as_slice();
    let Merged { live, sets, webs } = merged;
    let mut taken = no_sets(alloc, rows)?;
    let mut places = no_places(alloc, live.count())?;
    if !webs.colour(alloc, &mut taken, &mut places, registers)? {
        return Ok(None);
    }
    let painting = Painting {
        live,
        sets,
        places,
        taken,
        registers,
    };
    let made = painting.made(alloc, phased)?;
    Ok(Some(made))
}
