//! The front that comes next, where the one before it was emptied.
ghost use Rattle.std.specs.Prelude.{◌≡◌, ◌≤◌, ◌<◌, ◌+◌, ◌^◌, length, IfOk};
ghost use Rattle.pc_window.specs.Tree.{tree_size};
ghost use Rattle.pc_window.specs.StoredWindow.{tree_in};
ghost use Rattle.pc_moveop.specs.NodeTree.{Leads_to, nodes_in, node_size};
ghost use Rattle.pc_unify.specs.Deleting.{in_own_nodes, as_front, first_node, front_left};
ghost use Rattle.pc_unify.specs.models.Emptied.{left_size, emptied_size};

use pc_moveop::node_size;
use pc_window::{WindowTree, is_leaf};
use std::alloc::{AllocError, Global};

/// Boxes that are to be filled.
pub(crate) type Boxes = Vec<Box<WindowTree>>;

/// So many boxes that are to be filled.
pub(crate) fn spare_boxes(alloc: Global, count: u32) -> Result<Boxes, AllocError>
    ensures { IfOk result (λ boxes. length boxes.items ≡ count) }
{
    let mut boxes = Vec::new(alloc);
    for at in 0..count {
        boxes.push(Box::new(alloc, WindowTree::Stop)?)?;
    }
    Ok(boxes)
}

/// The items and tests of the first node that has any.
fn first_size(tree: &WindowTree) -> u32
    requires { tree_size (tree_in tree.now) < 2 ^ 31 }
    ensures { result ≡ node_size (first_node (nodes_in tree.now)) }
{
    match tree {
        WindowTree::Node { below } => first_size(below),
        other => node_size(other),
    }
}

/// The items and tests of the node that becomes the front, where this is what is left of the front.
fn left_size(tree: &WindowTree) -> u32
    requires { tree_size (tree_in tree.now) < 2 ^ 31 }
    ensures { result ≡ left_size (nodes_in tree.now) }
{
    match tree {
        WindowTree::Node { below } => first_size(below),
        _ => 0,
    }
}

/// The items and tests of the node that becomes the front, where an item of this front goes and leaves
/// it empty; else 0.
pub(crate) fn emptied_size(tree: &WindowTree) -> u32
    requires { tree_size (tree_in tree.now) < 2 ^ 31 }
    ensures { result ≡ emptied_size (nodes_in tree.now) }
{
    match tree {
        WindowTree::Step { rest, .. } => left_size(rest),
        other => left_size(other),
    }
}

/// A tree comes to stand in a node of its own.
fn wrap(tree: &mut WindowTree, spare: &mut Boxes)
    requires { 0 < length spare.old.items }
    ensures tree { nodes_in tree.new ≡ Leads_to (nodes_in tree.old) }
    ensures spare { length spare.new.items + 1 ≡ length spare.old.items }
{
    if let Some(below) = spare.pop() {
        let mut below = below;
        *below = std::mem::replace(tree, WindowTree::Stop);
        *tree = WindowTree::Node { below };
    }
}

/// Puts each item and test of what stands below an item or a test into a node of its own.
fn put_in_own_nodes(tree: &mut WindowTree, spare: &mut Boxes)
    requires { node_size (nodes_in tree.old) ≤ length spare.old.items }
    ensures tree { nodes_in tree.new ≡ in_own_nodes (nodes_in tree.old) }
    ensures spare { length spare.new.items + node_size (nodes_in tree.old) ≡ length spare.old.items }
{
    match tree {
        WindowTree::Step { rest, .. } => put_in_own_nodes(rest, spare),
        WindowTree::Test { yes, no, .. } => {
            put_in_own_nodes(yes, spare);
            put_in_own_nodes(no, spare)
        }
        _ => return,
    }
    wrap(tree, spare)
}

/// Puts each item and test of a node that becomes the front into a node of its own.
fn put_as_front(tree: &mut WindowTree, spare: &mut Boxes)
    requires { node_size (nodes_in tree.old) ≤ length spare.old.items }
    ensures { nodes_in tree.new ≡ as_front (nodes_in tree.old) }
{
    match tree {
        WindowTree::Step { rest, .. } => put_in_own_nodes(rest, spare),
        WindowTree::Test { yes, no, .. } => {
            put_in_own_nodes(yes, spare);
            put_in_own_nodes(no, spare)
        }
        _ => {}
    }
}

/// The first node that has an item or a test, if there is one.
fn first_node(tree: WindowTree) -> WindowTree
    ensures { nodes_in result ≡ first_node (nodes_in tree) }
{
    match tree {
        WindowTree::Node { below } => first_node(Box::into_inner(below)),
        other => other,
    }
}

/// The next node becomes the front where this one is empty. There is a box for each of its items and
/// tests.
pub(crate) fn skip_empty_front(tree: &mut WindowTree, spare: &mut Boxes)
    requires { left_size (nodes_in tree.old) ≤ length spare.old.items }
    ensures { nodes_in tree.new ≡ front_left (nodes_in tree.old) }
{
    if let WindowTree::Node { .. } = tree {
        let empty = std::mem::replace(tree, WindowTree::Stop);
        *tree = first_node(empty);
        put_as_front(tree, spare)
    }
}
