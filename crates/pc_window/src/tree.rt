//! The trees of windows.
ghost use Rattle.std.specs.Prelude.{◌≡◌, ◌<◌, ◌^◌};
ghost use Rattle.pc_window.specs.Tree.{tree_size};
ghost use Rattle.pc_window.specs.StoredWindow.{tree_in};

use crate::HomeList;
use pc_word::{Item, Operand, TrapKind};

/// A tree of items and tests, down to the places where a window is left.
///
/// A node of a window is what stands above the leaves `Node`.
#[derive(Debug, Drop)]
pub enum WindowTree {
    /// An item, and what stands below it.
    Step {
        tag: u32,
        origin: u32,
        item: Item,
        rest: Box<WindowTree>,
    },
    /// Goes to `yes` where the operand is not 0, and else to `no`.
    Test {
        tag: u32,
        origin: u32,
        on: Operand,
        yes: Box<WindowTree>,
        no: Box<WindowTree>,
    },
    /// A leaf that leads to a node.
    Node {
        below: Box<WindowTree>,
    },
    /// A stub: the window is left for a region, where variables have these values.
    Exit {
        region: u32,
        tag: u32,
        homes: HomeList,
    },
    /// The end of the program.
    Stop,
    /// A trap, with its line in the source.
    Trap {
        kind: TrapKind,
        line: u32,
    },
}

impl WindowTree {
    /// The number of its items and tests.
    pub fn size(&self) -> u32
        requires { tree_size (tree_in self.now) < 2 ^ 31 }
        ensures { result ≡ tree_size (tree_in self.now) }
    {
        match self {
            WindowTree::Step { rest, .. } => 1 + rest.size(),
            WindowTree::Test { yes, no, .. } => 1 + yes.size() + no.size(),
            WindowTree::Node { below } => below.size(),
            WindowTree::Exit { .. } | WindowTree::Stop | WindowTree::Trap { .. } => 0,
        }
    }
}
