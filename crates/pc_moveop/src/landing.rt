//! An item that comes into a node.
ghost use Rattle.std.specs.Prelude.{◌≡◌, ◌<◌, ◌^◌, true};
ghost use Rattle.pc_window.specs.Tree.{tree_size};
ghost use Rattle.pc_window.specs.StoredWindow.{tree_in};
ghost use Rattle.pc_moveop.specs.NodeTree.{nodes_in};
ghost use Rattle.pc_moveop.specs.Taking.{landed};
ghost use Rattle.pc_moveop.specs.models.Landing.{coming_in, leads_on};

use crate::nodes::leaf_count;
use crate::taking::leaf_without;
use pc_window::WindowTree;
use pc_word::Item;

/// What comes into a node: its tag and origin, and the item.
#[derive(Clone, Copy, Debug)]
pub(crate) struct Coming {
    pub(crate) tag: u32,
    pub(crate) origin: u32,
    pub(crate) item: Item,
}

/// An item comes to the end of the path above a leaf, from a place of the node behind it. `spare`
/// is a box that the new tree keeps.
fn land_here(tree: &mut WindowTree, leaf: u32, place: u32, coming: Coming, spare: Box<WindowTree>)
    requires small { tree_size (tree_in tree.old) < 2 ^ 31 }
    requires leads { leads_on tree.old ≡ true }
    ensures { nodes_in tree.new ≡ landed (coming_in coming) leaf place (nodes_in tree.old) }
{
    if leaf != 0 {
        return;
    }
    let from = std::mem::replace(tree, WindowTree::Stop);
    let mut rest = spare;
    *rest = leaf_without(from, place, coming.item.dest());
    *tree = WindowTree::Step {
        tag: coming.tag,
        origin: coming.origin,
        item: coming.item,
        rest,
    };
}

/// An item comes to the end of a node's path to a leaf, from a place of the node behind that leaf.
pub(crate) fn land(
    tree: &mut WindowTree,
    leaf: u32,
    place: u32,
    coming: Coming,
    spare: Box<WindowTree>,
)
    requires { tree_size (tree_in tree.old) < 2 ^ 31 }
    ensures { nodes_in tree.new ≡ landed (coming_in coming) leaf place (nodes_in tree.old) }
{
    match tree {
        WindowTree::Step { rest, .. } => land(rest, leaf, place, coming, spare),
        WindowTree::Test { yes, no, .. } => {
            let on_yes = leaf_count(yes);
            if leaf < on_yes {
                land(yes, leaf, place, coming, spare)
            } else {
                land(no, leaf - on_yes, place, coming, spare)
            }
        }
        WindowTree::Node { .. } => land_here(tree, leaf, place, coming, spare),
        WindowTree::Exit { .. } => {}
        WindowTree::Stop => {}
        WindowTree::Trap { .. } => {}
    }
}
