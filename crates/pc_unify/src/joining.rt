//! Two items of the nodes below a test that become one above it.
ghost use Rattle.std.specs.Prelude.{◌≡◌, ◌<◌, ◌^◌};
ghost use Rattle.pc_window.specs.Tree.{tree_size};
ghost use Rattle.pc_window.specs.StoredWindow.{tree_in};
ghost use Rattle.pc_moveop.specs.NodeTree.{Item_node, nodes_in};
ghost use Rattle.pc_moveop.specs.Taking.{leaf_without};
ghost use Rattle.pc_unify.specs.Unifying.{joined};
ghost use Rattle.pc_unify.specs.models.Twins.{coming_in};

use crate::twins::{Standing, is_yes_leaf};
use pc_moveop::{leaf_count, leaf_without};
use pc_window::WindowTree;

/// Takes the item at a place of the node behind a leaf out, where what it writes gets this name.
fn take_behind(leaf: &mut WindowTree, place: u32, name: Option<u32>)
    requires { tree_size (tree_in leaf.old) < 2 ^ 31 }
    ensures { nodes_in leaf.new ≡ leaf_without name place (nodes_in leaf.old) }
{
    let from = std::mem::replace(leaf, WindowTree::Stop);
    *leaf = leaf_without(from, place, name);
}

/// Puts an item above a tree. `spare` is a box that the new tree keeps.
fn put_above(tree: &mut WindowTree, joint: Standing, spare: Box<WindowTree>)
    ensures { nodes_in tree.new ≡ Item_node joint.tag joint.origin joint.item (nodes_in tree.old) }
{
    let mut rest = spare;
    *rest = std::mem::replace(tree, WindowTree::Stop);
    *tree = WindowTree::Step {
        tag: joint.tag,
        origin: joint.origin,
        item: joint.item,
        rest,
    };
}

/// The items at two places behind a leaf and the next one become one, right above the test of these
/// leaves.
pub(crate) fn join(
    tree: &mut WindowTree,
    leaf: u32,
    yes_place: u32,
    no_place: u32,
    joint: Standing,
    spare: Box<WindowTree>,
)
    requires { tree_size (tree_in tree.old) < 2 ^ 31 }
    ensures { nodes_in tree.new ≡ joined (coming_in joint) leaf yes_place no_place (nodes_in tree.old) }
{
    match tree {
        WindowTree::Step { rest, .. } => join(rest, leaf, yes_place, no_place, joint, spare),
        WindowTree::Test { yes, no, .. } => {
            if is_yes_leaf(leaf, yes, no) {
                take_behind(yes, yes_place, joint.item.dest());
                take_behind(no, no_place, joint.item.dest());
                put_above(tree, joint, spare);
                return;
            }
            let on_yes = leaf_count(yes);
            if leaf < on_yes {
                join(yes, leaf, yes_place, no_place, joint, spare)
            } else {
                join(no, leaf - on_yes, yes_place, no_place, joint, spare)
            }
        }
        WindowTree::Node { .. } => {}
        WindowTree::Exit { .. } => {}
        WindowTree::Stop => {}
        WindowTree::Trap { .. } => {}
    }
}
