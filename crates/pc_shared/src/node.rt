//! Nodes of one item, test or leaf.
ghost use Rattle.std.specs.Prelude.{◌≡◌, Some, IsSome};
ghost use Rattle.pc_shared.specs.Links.{link_of, relinked};

use pc_arena::NodeId;
use pc_word::{Item, Operand, TrapKind};

/// An item, a test or a leaf of a window's tree. What stands below is named by its number, and so are
/// the homes of a stub.
#[derive(Clone, Copy, PartialEq, Eq)]
pub enum SharedNode {
    /// An item, and what stands below it.
    Step {
        tag: u32,
        origin: u32,
        item: Item,
        rest: NodeId,
    },
    /// Goes to `yes` where the operand is not 0, and else to `no`.
    Test {
        tag: u32,
        origin: u32,
        on: Operand,
        yes: NodeId,
        no: NodeId,
    },
    /// A leaf that leads to a node of the window.
    Node {
        below: NodeId,
    },
    /// A stub: the window is left for a region, where variables have the values of these homes.
    Exit {
        region: u32,
        tag: u32,
        homes: NodeId,
    },
    /// The end of the program.
    Stop,
    /// A trap, with its line in the source.
    Trap {
        kind: TrapKind,
        line: u32,
    },
}

impl SharedNode {
    /// What it names on a side. Only a test tells its sides apart; a stub, an end and a trap name nothing.
    pub fn link(&self, side: bool) -> Option<NodeId>
        ensures { result ≡ link_of (Some self.now) side }
    {
        match *self {
            SharedNode::Step { rest, .. } => Some(rest),
            SharedNode::Test { yes, no, .. } => { if side { Some(yes) } else { Some(no) } }
            SharedNode::Node { below } => Some(below),
            SharedNode::Exit { .. } | SharedNode::Stop | SharedNode::Trap { .. } => None,
        }
    }

    /// The node that names another number on a side.
    pub(crate) fn relinked(&self, side: bool, other: NodeId) -> SharedNode
        ensures { relinked (Some self.now) side other ≡ Some result }
    {
        match *self {
            SharedNode::Step {
                tag,
                origin,
                item,
                ..
            } => SharedNode::Step {
                tag,
                origin,
                item,
                rest: other,
            },
            SharedNode::Test {
                tag,
                origin,
                on,
                yes,
                no,
            } => {
                if side {
                    SharedNode::Test {
                        tag,
                        origin,
                        on,
                        yes: other,
                        no,
                    }
                } else {
                    SharedNode::Test {
                        tag,
                        origin,
                        on,
                        yes,
                        no: other,
                    }
                }
            }
            SharedNode::Node { .. } => SharedNode::Node { below: other },
            SharedNode::Exit { .. } | SharedNode::Stop | SharedNode::Trap { .. } => *self,
        }
    }
}
