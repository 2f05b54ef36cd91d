use pc_word::{Item, Operand, TrapKind};

/// A node of a flow graph. Nodes are named by their numbers.
#[derive(Clone, Copy, Debug, PartialEq, Eq)]
pub enum FlowNode {
    /// An item, and the node after it.
    Op {
        item: Item,
        next: u32,
    },
    /// A test, which goes to `yes` where its operand is not 0 and else to `no`. Where it is the test
    /// of a loop's condition, `turn` is the loop's number: so each turn of the loop passes it.
    Test {
        on: Operand,
        yes: u32,
        no: u32,
        turn: Option<u16>,
    },
    /// The end of the program.
    Stop,
    /// A trap, with its line in the source.
    Trap {
        kind: TrapKind,
        line: u32,
    },
}
