//! The nodes of a window, and the paths that lead to them.
ghost use Rattle.std.specs.Prelude.{◌≡◌, ◌≤◌, ◌<◌, ◌+◌, ◌^◌, Some, IfSome, IsSome};
ghost use Rattle.std.specs.Option.{option_map, option_copied};
ghost use Rattle.pc_window.specs.Tree.{tree_size};
ghost use Rattle.pc_window.specs.StoredWindow.{tree_in};
ghost use Rattle.pc_moveop.specs.NodeTree.{nodes_in, node_size, leaf_count, child_at, node_at, with_node, child_changed, led_on};

use pc_window::WindowTree;

/// The number of leaves of a node.
pub fn leaf_count(tree: &WindowTree) -> u32
    requires small { tree_size (tree_in tree.now) < 2 ^ 31 }
    ensures count { result ≡ leaf_count (nodes_in tree.now) }
    ensures within { result ≤ tree_size (tree_in tree.now) + 1 }
{
    match tree {
        WindowTree::Step { rest, .. } => leaf_count(rest),
        WindowTree::Test { yes, no, .. } => leaf_count(yes) + leaf_count(no),
        WindowTree::Node { .. } => 1,
        WindowTree::Exit { .. } => 1,
        WindowTree::Stop => 1,
        WindowTree::Trap { .. } => 1,
    }
}

/// The number of items and tests of a node.
pub fn node_size(tree: &WindowTree) -> u32
    requires small { tree_size (tree_in tree.now) < 2 ^ 31 }
    ensures count { result ≡ node_size (nodes_in tree.now) }
    ensures within { result ≤ tree_size (tree_in tree.now) }
{
    match tree {
        WindowTree::Step { rest, .. } => 1 + node_size(rest),
        WindowTree::Test { yes, no, .. } => 1 + node_size(yes) + node_size(no),
        WindowTree::Node { .. } => 0,
        WindowTree::Exit { .. } => 0,
        WindowTree::Stop => 0,
        WindowTree::Trap { .. } => 0,
    }
}

/// The node that a leaf of a node leads to.
pub fn child_at(tree: &WindowTree, leaf: u32) -> Option<&WindowTree>
    requires small { tree_size (tree_in tree.now) < 2 ^ 31 }
    ensures node { option_map nodes_in (option_copied result) ≡ child_at leaf (nodes_in tree.now) }
    ensures small { IfSome result (λ node. tree_size (tree_in node.now) ≤ tree_size (tree_in tree.now)) }
{
    match tree {
        WindowTree::Step { rest, .. } => child_at(rest, leaf),
        WindowTree::Test { yes, no, .. } => {
            let on_yes = leaf_count(yes);
            if leaf < on_yes {
                return child_at(yes, leaf);
            }
            child_at(no, leaf - on_yes)
        }
        WindowTree::Node { below } => {
            if leaf == 0 {
                return Some(below);
            }
            None
        }
        WindowTree::Exit { .. } => None,
        WindowTree::Stop => None,
        WindowTree::Trap { .. } => None,
    }
}

/// The node that a path leads to: a leaf of the first node, a leaf of the node there, and so on.
pub fn node_at<'a>(tree: &'a WindowTree, path: &[u16]) -> Option<&'a WindowTree>
    requires small { tree_size (tree_in tree.now) < 2 ^ 31 }
    ensures node { option_map nodes_in (option_copied result) ≡ node_at path.now (nodes_in tree.now) }
    ensures small { IfSome result (λ node. tree_size (tree_in node.now) ≤ tree_size (tree_in tree.now)) }
{
    match path.split_first() {
        None => Some(tree),
        Some((leaf, rest)) => match child_at(tree, *leaf as u32) {
            None => None,
            Some(child) => node_at(child, rest),
        },
    }
}

/// Puts a node in place of the one that a path leads to, and gives that one back.
pub fn swap_node(tree: &mut WindowTree, path: &[u16], node: WindowTree) -> WindowTree
    requires small { tree_size (tree_in tree.old) < 2 ^ 31 }
    requires there { IsSome (node_at path.now (nodes_in tree.old)) }
    ensures tree { nodes_in tree.new ≡ with_node path.now (nodes_in node) (nodes_in tree.old) }
    ensures node { node_at path.now (nodes_in tree.old) ≡ Some (nodes_in result) }
{
    match path.split_first() {
        None => std::mem::replace(tree, node),
        Some((leaf, rest)) => swap_below(tree, *leaf as u32, rest, node),
    }
}

/// The same below a leaf.
fn swap_below(tree: &mut WindowTree, leaf: u32, path: &[u16], node: WindowTree) -> WindowTree
    requires small { tree_size (tree_in tree.old) < 2 ^ 31 }
    requires there { IsSome (led_on (child_at leaf (nodes_in tree.old)) (node_at path.now)) }
    ensures tree { nodes_in tree.new ≡ child_changed leaf (with_node path.now (nodes_in node)) (nodes_in tree.old) }
    ensures node { led_on (child_at leaf (nodes_in tree.old)) (node_at path.now) ≡ Some (nodes_in result) }
{
    match tree {
        WindowTree::Step { rest, .. } => swap_below(rest, leaf, path, node),
        WindowTree::Test { yes, no, .. } => {
            let on_yes = leaf_count(yes);
            if leaf < on_yes {
                return swap_below(yes, leaf, path, node);
            }
            swap_below(no, leaf - on_yes, path, node)
        }
        WindowTree::Node { below } => match path.split_first() {
            None => std::mem::replace(below, node),
            Some((next, rest)) => swap_below(below, *next as u32, rest, node),
        },
        WindowTree::Exit { .. } => node,
        WindowTree::Stop => node,
        WindowTree::Trap { .. } => node,
    }
}
