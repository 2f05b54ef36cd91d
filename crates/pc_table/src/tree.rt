use pc_word::{Item, Operand, TrapKind};

/// The tree of a region: items and tests that are done one after the other, from the root to a leaf.
///
/// Names are variables. `origin` is the number of the node of the flow graph that an item or a test
/// comes from.
#[derive(Debug, Drop)]
pub enum RegionTree {
    /// An item, and what comes after it.
    Step {
        origin: u32,
        item: Item,
        next: Box<RegionTree>,
    },
    /// Goes to `yes` where the operand is not 0, and else to `no`.
    Test {
        origin: u32,
        on: Operand,
        yes: Box<RegionTree>,
        no: Box<RegionTree>,
    },
    /// The region that comes next, by its number.
    Next {
        region: u32,
    },
    /// The end of the program.
    Stop,
    /// A trap, with its line in the source.
    Trap {
        kind: TrapKind,
        line: u32,
    },
}
