//! Whether a register still matters where an item of a window stands.
use crate::liveness::read_in;
use crate::registers::RegisterSet;
use pc_machine::{Leaf, Tree};
use pc_word::{Item, RowTree};

/// How many rows a way is followed through at most.
const MOST_ROWS: u32 = 256;

/// The rows of a code, and for each the registers whose values matter where it begins.
#[derive(Clone, Copy)]
pub(crate) struct Flow<'a> {
    pub(crate) rows: &'a [Tree],
    pub(crate) live: &'a [RegisterSet],
    /// For each row whether regions that it needs are entered before it.
    pub(crate) early: &'a [bool],
}

/// How carefully the items of a row are told apart from equal ones.
#[derive(Clone, Copy, PartialEq, Eq)]
pub(crate) enum Care {
    /// As `Matters`, and a row's items stand in the order in which the window's do.
    InOrder,
    /// One is taken only where what the row's writes still matters where the window's stands.
    Matters,
    /// The first is taken.
    First,
}

/// How the tests of a way come out, at most 64 of them, the first in the lowest bit.
#[derive(Clone, Copy)]
pub(crate) struct Sides {
    bits: u64,
    count: u32,
}

impl Sides {
    /// A way without tests.
    pub(crate) fn none() -> Sides {
        Sides { bits: 0, count: 0 }
    }

    /// The way with one more test above it; none where it has 64.
    pub(crate) fn below(self, yes: bool) -> Option<Sides> {
        if self.count >= 64 {
            return None;
        }
        let bit = if yes { 1u64 } else { 0u64 };
        Some(Sides {
            bits: (self.bits << 1) | bit,
            count: self.count + 1,
        })
    }

    /// How its first test comes out, and the way behind that.
    pub(crate) fn first(self) -> Option<(bool, Sides)> {
        if self.count == 0 {
            return None;
        }
        let rest = Sides {
            bits: self.bits >> 1,
            count: self.count - 1,
        };
        Some((self.bits & 1 == 1, rest))
    }
}

/// Where a value is while a row is gone through along a way.
#[derive(Clone, Copy)]
struct Walk {
    /// The registers that have it where the row begins.
    before: RegisterSet,
    /// The registers that have it behind the row.
    after: RegisterSet,
    /// The rest of the way.
    sides: Sides,
}

/// What comes of going through a row.
#[derive(Clone, Copy)]
enum Outcome {
    /// The value is read, or matters at the end of the way.
    Used,
    Unused,
    /// The way leads on to a row.
    Leads { row: u32, walk: Walk },
}

/// Whether an item that is no copy reads one of these registers.
fn reads(item: Item, registers: &RegisterSet) -> bool {
    if matches!(item, Item::Copy { .. }) {
        return false;
    }
    let mut read = RegisterSet::none();
    read.add_reads(item);
    read.meets(registers)
}

impl Walk {
    /// The same behind an item.
    fn behind(self, item: Item) -> Walk {
        let mut after = self.after;
        if let Some(dest) = item.dest() {
            after.drop_one(dest);
            if let Item::Copy { from, .. } = item {
                let mut read = RegisterSet::none();
                read.add_read(from);
                if read.meets(&self.before) {
                    after.add(dest);
                }
            }
        }
        Walk {
            before: self.before,
            after,
            sides: self.sides,
        }
    }

    /// What comes of it at a leaf.
    fn at_leaf(self, leaf: Leaf, live: &[RegisterSet]) -> Outcome {
        let Leaf::Goto { row } = leaf else {
            return Outcome::Unused;
        };
        let Some(next) = live.get(row as usize) else {
            return Outcome::Unused;
        };
        if !next.meets(&self.after) {
            return Outcome::Unused;
        }
        if self.sides.first().is_none() {
            return Outcome::Used;
        }
        let walk = Walk {
            before: self.after,
            after: self.after,
            sides: self.sides,
        };
        Outcome::Leads { row, walk }
    }

    /// What comes of it where the way ends above a test.
    fn at_end(self, tree: &Tree, live: &[RegisterSet]) -> Outcome {
        let found = read_in(tree, RegisterSet::none(), live);
        if found.meets(&self.before) || found.meets(&self.after) {
            return Outcome::Used;
        }
        Outcome::Unused
    }

    /// What comes of going through a row.
    fn through(self, tree: &Tree, live: &[RegisterSet]) -> Outcome {
        match tree {
            RowTree::Step { item, next } => {
                if reads(*item, &self.before) {
                    return Outcome::Used;
                }
                self.behind(*item).through(next, live)
            }
            RowTree::Test { on, yes, no } => {
                let mut read = RegisterSet::none();
                read.add_read(*on);
                if read.meets(&self.before) {
                    return Outcome::Used;
                }
                let Some((side, sides)) = self.sides.first() else {
                    return self.at_end(tree, live);
                };
                let walk = Walk {
                    before: self.before,
                    after: self.after,
                    sides,
                };
                if side {
                    walk.through(yes, live)
                } else {
                    walk.through(no, live)
                }
            }
            RowTree::Leaf { leaf } => self.at_leaf(*leaf, live),
        }
    }
}

impl<'a> Flow<'a> {
    /// Whether the value that a register has where a row begins is read on a way, or matters at its end.
    pub(crate) fn uses(&self, row: u32, register: u32, sides: Sides) -> bool {
        let mut holders = RegisterSet::none();
        holders.add(register);
        let walk = Walk {
            before: holders,
            after: holders,
            sides,
        };
        let mut outcome = walk.at_leaf(Leaf::Goto { row }, self.live);
        for _ in 0..MOST_ROWS {
            match outcome {
                Outcome::Used => return true,
                Outcome::Unused => return false,
                Outcome::Leads { row, walk } => match self.rows.get(row as usize) {
                    None => return false,
                    Some(tree) => outcome = walk.through(tree, self.live),
                },
            }
        }
        true
    }
}
