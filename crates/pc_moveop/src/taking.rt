//! Taking an item out of its node.
ghost use Rattle.std.specs.Prelude.{◌≡◌, ◌<◌, ◌^◌};
ghost use Rattle.pc_word.specs.Items.{dest_of};
ghost use Rattle.pc_window.specs.Tree.{tree_size};
ghost use Rattle.pc_window.specs.StoredWindow.{tree_in};
ghost use Rattle.pc_moveop.specs.NodeTree.{nodes_in};
ghost use Rattle.pc_moveop.specs.Taking.{nodes_mapped, node_without, leaf_to, leaf_without};
ghost use Rattle.pc_word.specs.Naming.{renamed};

use crate::nodes::node_size;
use crate::renaming::rename;
use pc_window::{WindowTree, is_leaf};
use pc_word::Item;

/// What stands below an item, where what the item writes gets this name.
fn rest_of(item: Item, below: WindowTree, name: Option<u32>) -> WindowTree
    ensures { nodes_in result ≡ nodes_mapped (renamed (dest_of item) name) (nodes_in below) }
{
    let mut rest = below;
    rename(&mut rest, item.dest(), name);
    rest
}

/// A tree without the item at its root, where there is one.
fn without_root(tree: WindowTree, name: Option<u32>) -> WindowTree
    ensures { nodes_in result ≡ node_without name 0 (nodes_in tree) }
{
    match tree {
        WindowTree::Step { item, rest, .. } => rest_of(item, Box::into_inner(rest), name),
        other => other,
    }
}

/// Takes the item at a place of a node out, where what it writes gets this name.
pub fn take_out(tree: &mut WindowTree, place: u32, name: Option<u32>)
    requires { tree_size (tree_in tree.old) < 2 ^ 31 }
    ensures { nodes_in tree.new ≡ node_without name place (nodes_in tree.old) }
{
    if place == 0 {
        let whole = std::mem::replace(tree, WindowTree::Stop);
        *tree = without_root(whole, name);
        return;
    }
    match tree {
        WindowTree::Step { rest, .. } => take_out(rest, place - 1, name),
        WindowTree::Test { yes, no, .. } => {
            let on_yes = node_size(yes);
            if place - 1 < on_yes {
                take_out(yes, place - 1, name)
            } else {
                take_out(no, place - 1 - on_yes, name)
            }
        }
        WindowTree::Node { .. } => {}
        WindowTree::Exit { .. } => {}
        WindowTree::Stop => {}
        WindowTree::Trap { .. } => {}
    }
}

/// A leaf that leads to a node; a node without items and tests is skipped.
pub fn leaf_to(below: Box<WindowTree>) -> WindowTree
    ensures { nodes_in result ≡ leaf_to (nodes_in below.value) }
{
    if is_leaf(&below) {
        return Box::into_inner(below);
    }
    WindowTree::Node { below }
}

/// A leaf once the item at a place of the node behind it is taken out.
pub fn leaf_without(leaf: WindowTree, place: u32, name: Option<u32>) -> WindowTree
    requires { tree_size (tree_in leaf) < 2 ^ 31 }
    ensures { nodes_in result ≡ leaf_without name place (nodes_in leaf) }
{
    match leaf {
        WindowTree::Node { below } => {
            let mut below = below;
            take_out(&mut below, place, name);
            leaf_to(below)
        }
        other => other,
    }
}
