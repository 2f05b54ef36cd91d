//! Rows of which it is told where their items and tests come from.
use pc_word::{Item, Operand};

/// The row of a state, with the iteration and the origin of each item and test.
///
/// Iterations count from the state's own first one, 0: the first of which the window that became the state, its front and what
/// stands behind it, has anything. An origin is the number of a node of the flow graph.
#[derive(Debug, Drop)]
pub enum ToldRow {
    /// An item, and what stands below it.
    Step {
        iteration: u32,
        origin: u32,
        item: Item,
        next: Box<ToldRow>,
    },
    /// Goes to `yes` where the operand is not 0, and else to `no`.
    Test {
        iteration: u32,
        origin: u32,
        on: Operand,
        yes: Box<ToldRow>,
        no: Box<ToldRow>,
    },
    /// The end of a path: the first iteration of which anything is left there, counted like those of items. It is none where
    /// nothing is left, at the end of the program and at a trap, and where the loop is left for a region.
    /// The state that the leaf leads to may begin at a later one: what is left is tidied, which deletes what is used nowhere.
    Leaf {
        advance: Option<u32>,
    },
}
