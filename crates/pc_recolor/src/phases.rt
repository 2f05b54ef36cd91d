//! Rows in several phases, as in modulo variable expansion (Lam 1988): a loop's rows stand there several times, so that
//! what one turn leaves need not be where the turn before left it.
use crate::branches::{is_row_of_copies, number_of};
use crate::exits::Exits;
use crate::loops::Loops;
use crate::painting::{step, test};
use pc_machine::{Leaf, Tree};
use pc_word::RowTree;
use std::alloc::{AllocError, Global};

/// The most phases that a loop gets.
pub(crate) const MOST_PHASES: u8 = 8;

/// How many phases of a row there are, with the one on the way in.
const ALL_PHASES: usize = 9;

/// A row of the code before, and the phase in which it stands there.
#[derive(Clone, Copy, Debug)]
struct Place {
    row: u32,
    phase: u8,
}

/// Rows in phases, of which nothing is renamed yet.
#[derive(Drop)]
pub(crate) struct Phased {
    pub(crate) rows: Vec<Tree>,
    /// The row of the code before that each one is.
    pub(crate) origins: Vec<u32>,
    /// The loop in which each row is passed again and again.
    pub(crate) loops: Vec<Option<u32>>,
}

/// Rows that are brought into phases.
#[derive(Drop)]
struct Phasing<'a> {
    rows: &'a [Tree],
    loops: &'a Loops,
    exits: &'a Exits,
    /// How many phases each loop has.
    phases: &'a [u8],
    /// The number that each row has in each phase.
    numbers: Vec<[Option<u32>; ALL_PHASES]>,
    /// What stands there, by number.
    places: Vec<Place>,
}

impl Phasing<'_> {
    /// How many phases a loop has.
    fn count(&self, number: u32) -> u8 {
        self.phases.get(number as usize).copied().unwrap_or(1)
    }

    /// The phase in which a row comes that a row of a loop leads to, which belongs to it too. Phase 0 is the way in,
    /// and is passed once; a loop of one phase has no other.
    fn phase_in_loop(&self, from: Place, to: u32, number: u32) -> u8 {
        let phases = self.count(number);
        if phases <= 1 {
            return 0;
        }
        if !self.loops.is_head(to, number) {
            return from.phase;
        }
        if from.phase < phases {
            from.phase + 1
        } else {
            1
        }
    }

    /// What comes behind a place, where a leaf leads to this row. Rows behind a loop that nothing else leads to keep
    /// its phase up to a row of copies, through which all values may go to the same registers.
    fn behind(&self, from: Place, to: u32) -> Place {
        let within = self.loops.of_row(from.row);
        let phase = match within {
            Some(number) => {
                if self.loops.of_row(to) == within {
                    self.phase_in_loop(from, to, number)
                } else {
                    self.phase_after_loop(from, to)
                }
            }
            None => self.phase_after_loop(from, to),
        };
        Place { row: to, phase }
    }

    /// The phase of a row outside of loops.
    fn phase_after_loop(&self, from: Place, to: u32) -> u8 {
        let passed = is_row_of_copies(self.rows, from.row) && !is_row_of_copies(self.rows, to);
        if self.exits.has(to) && !passed {
            from.phase
        } else {
            0
        }
    }

    /// The number of a place, which is a new one if need be.
    fn number(&mut self, place: Place) -> Result<u32, AllocError> {
        let fresh = number_of(self.places.len());
        if let Some(numbers) = self.numbers.get_mut(place.row as usize) {
            if let Some(entry) = numbers.get_mut(place.phase as usize) {
                if let Some(number) = *entry {
                    return Ok(number);
                }
                *entry = Some(fresh);
            }
        }
        self.places.push(place)?;
        Ok(fresh)
    }

    /// A row, or what is left of one, as it stands in a place.
    fn tree(&mut self, alloc: Global, from: Place, tree: &Tree) -> Result<Tree, AllocError> {
        match tree {
            RowTree::Step { item, next } => {
                let below = self.tree(alloc, from, next)?;
                step(alloc, *item, below)
            }
            RowTree::Test { on, yes, no } => {
                let one = self.tree(alloc, from, yes)?;
                let other = self.tree(alloc, from, no)?;
                test(alloc, *on, one, other)
            }
            RowTree::Leaf { leaf } => {
                let leaf = match leaf.target() {
                    Some(row) => Leaf::Goto {
                        row: self.number(self.behind(from, row))?,
                    },
                    None => *leaf,
                };
                Ok(RowTree::Leaf { leaf })
            }
        }
    }

    /// The loop in which a place is passed again and again.
    fn loop_of(&self, place: Place) -> Option<u32> {
        let number = self.loops.of_row(place.row)?;
        if self.count(number) <= 1 || place.phase > 0 {
            Some(number)
        } else {
            None
        }
    }

    /// All rows that are come to, with numbers in the order in which they are first named.
    fn made(mut self, alloc: Global) -> Result<Phased, AllocError> {
        let mut phased = Phased {
            rows: Vec::new(alloc),
            origins: Vec::new(alloc),
            loops: Vec::new(alloc),
        };
        self.number(Place { row: 0, phase: 0 })?;
        for at in 0..usize::MAX {
            let Some(place) = self.places.get(at).copied() else {
                return Ok(phased);
            };
            let Some(tree) = self.rows.get(place.row as usize) else {
                return Ok(phased);
            };
            phased.rows.push(self.tree(alloc, place, tree)?)?;
            phased.origins.push(place.row)?;
            phased.loops.push(self.loop_of(place))?;
        }
        Ok(phased)
    }
}

/// Rows with each loop in so many phases.
pub(crate) fn in_phases(
    alloc: Global,
    rows: &[Tree],
    loops: &Loops,
    exits: &Exits,
    phases: &[u8],
) -> Result<Phased, AllocError> {
    let mut numbers = Vec::new(alloc);
    for _row in rows {
        numbers.push([None; ALL_PHASES])?;
    }
    let places = Vec::new(alloc);
    Phasing {
        rows,
        loops,
        exits,
        phases,
        numbers,
        places,
    }
    .made(alloc)
}
