//! How far values are handed on in loops, from one register to another.
use crate::branches::is_row_of_copies;
use crate::painting::Merged;
use crate::phases::{MOST_PHASES, Phased};
use pc_machine::Tree;
use pc_settled::node_below;
use pc_word::{Item, Operand, RowTree};
use std::alloc::{AllocError, Global};

/// A copy in a row of copies of a loop, which carries a value to the next iteration: the least nodes of the webs of
/// both values. Where these are two, the copy is left.
#[derive(Clone, Copy, Debug)]
struct CarriedCopy {
    /// The loop.
    number: u32,
    from: u32,
    to: u32,
}

/// The copies in rows of copies of loops.
#[derive(Drop)]
struct CarriedCopies<'a> {
    merged: &'a Merged,
    found: Vec<CarriedCopy>,
}

impl CarriedCopies<'_> {
    /// Finds those of a row, or of what is left of one.
    fn find(&mut self, number: u32, row: u32, tree: &Tree) -> Result<(), AllocError> {
        let RowTree::Step { item, next } = tree else {
            return Ok(());
        };
        if let Item::Copy {
            dest,
            from: Operand::Name(from),
        } = item
        {
            if let Some(made) = node_below(&self.merged.live, next, *dest) {
                let from = self.merged.live.node(row, *from);
                self.found.push(CarriedCopy {
                    number,
                    from: self.merged.sets.least(from),
                    to: self.merged.sets.least(made),
                })?;
            }
        }
        self.find(number, row, next)
    }
}

/// Sees that a copy that is left hands on a value once more than it was handed on before; whether that was not known.
fn see(lengths: &mut [u8], copy: CarriedCopy) -> bool {
    if copy.from == copy.to {
        return false;
    }
    let from = lengths.get(copy.from as usize).copied().unwrap_or(0);
    let due = from.saturating_add(1).min(MOST_PHASES);
    match lengths.get_mut(copy.to as usize) {
        Some(entry) if *entry < due => {
            *entry = due;
            true
        }
        _ => false,
    }
}

/// How often the value of each node is handed on at most until it stands there.
fn lengths_of(alloc: Global, nodes: u32, found: &[CarriedCopy]) -> Result<Vec<u8>, AllocError> {
    let mut lengths = Vec::new(alloc);
    for _node in 0..nodes {
        lengths.push(0)?;
    }
    for _round in 0..MOST_PHASES {
        let mut changed = false;
        for copy in found {
            changed = see(&mut lengths, *copy) || changed;
        }
        if !changed {
            return Ok(lengths);
        }
    }
    Ok(lengths)
}

/// How many phases each loop calls for: as many as there are turns in which copies that are left hand a value on, but at
/// least two. So many of its kind are needed at once, and with fewer registers for them copies have to be left.
pub(crate) fn phases_called_for(
    alloc: Global,
    loops: usize,
    phased: &Phased,
    merged: &Merged,
) -> Result<Vec<u8>, AllocError> {
    let mut copies = CarriedCopies {
        merged,
        found: Vec::new(alloc),
    };
    let mut row: u32 = 0;
    for tree in &phased.rows {
        let within = phased.loops.get(row as usize).copied().unwrap_or(None);
        if let Some(number) = within {
            if is_row_of_copies(&phased.rows, row) {
                copies.find(number, row, tree)?;
            }
        }
        row = row.wrapping_add(1);
    }
    let lengths = lengths_of(alloc, merged.live.count(), &copies.found)?;
    let mut called_for = Vec::new(alloc);
    for _number in 0..loops {
        called_for.push(2)?;
    }
    for copy in &copies.found {
        let length = lengths.get(copy.to as usize).copied().unwrap_or(0);
        if let Some(entry) = called_for.get_mut(copy.number as usize) {
            *entry = length.max(*entry);
        }
    }
    Ok(called_for)
}
