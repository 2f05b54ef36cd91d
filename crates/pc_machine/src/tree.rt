ghost use Rattle.std.specs.Prelude.{◌≡◌, ◌<◌, ◌^◌, length};
ghost use Rattle.pc_word.specs.Row.{leaves_of};
ghost use Rattle.pc_machine.specs.MachineCode.{row_of};

use pc_word::{RowTree, TrapKind};

/// What stands at the end of a path of a row: what comes next.
#[derive(Clone, Copy, Debug, PartialEq, Eq)]
pub enum Leaf {
    /// The row that comes next, by its number.
    Goto { row: u32 },
    /// The end of the run.
    Stop,
    /// The end of the run by a trap, which stands for a line of the source.
    Trap { kind: TrapKind, line: u32 },
}

/// A tree instruction: a tree of items and tests whose leaves say what comes next.
///
/// All operands and tests read the values from before the row. One path from the root to a leaf is
/// taken, and its items commit together. Names are registers, numbered from 0.
pub type Tree = RowTree<Leaf>;

impl Leaf {
    ghost use Rattle.std.specs.Prelude.{◌≡◌};
    ghost use Rattle.pc_machine.specs.MachineCode.{target_of, is_goto};

    /// The row to which a goto leads; `None` at an end.
    pub fn target(&self) -> Option<u32>
        ensures { result ≡ target_of self.now }
    {
        match self {
            Leaf::Goto { row } => Some(*row),
            Leaf::Stop | Leaf::Trap { .. } => None,
        }
    }

    /// Whether it is a goto to the row with this number.
    pub fn is_goto(&self, target: usize) -> bool
        ensures { result ≡ is_goto target self.now }
    {
        match self {
            Leaf::Goto { row } => *row as usize == target,
            Leaf::Stop | Leaf::Trap { .. } => false,
        }
    }
}

/// How many leaves a tree has. It takes time in proportion to the tree.
pub fn leaf_count(tree: &Tree) -> usize
    requires { length (leaves_of (row_of tree.now)) < 2 ^ 64 }
    ensures { result ≡ length (leaves_of (row_of tree.now)) }
{
    match tree {
        RowTree::Step { next, .. } => leaf_count(next),
        RowTree::Test { yes, no, .. } => leaf_count(yes) + leaf_count(no),
        RowTree::Leaf { .. } => 1,
    }
}
