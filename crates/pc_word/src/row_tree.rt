//! Trees of items and tests as they are stored, whatever their leaves are.
use crate::item::{Item, Operand};

/// A tree of items and tests that are done at once, with something at each leaf.
#[derive(Debug, Drop)]
pub enum RowTree<L> {
    /// An item, and what stands below it.
    Step {
        item: Item,
        next: Box<RowTree<L>>,
    },
    /// Goes to `yes` where the operand is not 0, and else to `no`.
    Test {
        on: Operand,
        yes: Box<RowTree<L>>,
        no: Box<RowTree<L>>,
    },
    /// The end of a path.
    Leaf {
        leaf: L,
    },
}
