//! Two items on the two sides of a test that are equal but for their names.
ghost use Rattle.std.specs.Prelude.{◌≡◌, ◌<◌, ◌+◌, ◌^◌, Some};
ghost use Rattle.pc_window.specs.Tree.{tree_size};
ghost use Rattle.pc_window.specs.StoredWindow.{tree_in};
ghost use Rattle.pc_moveop.specs.NodeTree.{nodes_in, node_at};
ghost use Rattle.pc_moveop.specs.Climbing.{mover_in, mover_at};
ghost use Rattle.pc_unify.specs.Unifying.{leads_on, is_yes_leaf, are_sides};
ghost use Rattle.pc_unify.specs.models.Twins.{FindsItem, FindsTwins};

use pc_moveop::{leaf_count, node_at, node_size};
use pc_window::{Window, WindowTree};
use pc_word::Item;

/// An item of a node, with its tag and origin.
#[derive(Clone, Copy, Debug)]
pub(crate) struct Standing {
    pub(crate) tag: u32,
    pub(crate) origin: u32,
    pub(crate) item: Item,
}

/// The item at a place of a node.
#[tactic(auto, using(crate::proofs::FoundTwins::standing))]
fn item_in(tree: &WindowTree, place: u32) -> Option<Standing>
    requires { tree_size (tree_in tree.now) < 2 ^ 31 }
    ensures { FindsItem (mover_in place (nodes_in tree.now)) result }
{
    match tree {
        WindowTree::Step {
            tag,
            origin,
            item,
            rest,
        } => {
            if place == 0 {
                return Some(Standing {
                    tag: *tag,
                    origin: *origin,
                    item: *item,
                });
            }
            item_in(rest, place - 1)
        }
        WindowTree::Test { yes, no, .. } => {
            if place == 0 {
                return None;
            }
            let on_yes = node_size(yes);
            if place - 1 < on_yes {
                return item_in(yes, place - 1);
            }
            item_in(no, place - 1 - on_yes)
        }
        WindowTree::Node { .. } => None,
        WindowTree::Exit { .. } => None,
        WindowTree::Stop => None,
        WindowTree::Trap { .. } => None,
    }
}

/// The item at a place of the node that a leaf leads to.
#[tactic(auto, using(crate::proofs::FoundTwins::standing))]
fn item_at(tree: &WindowTree, leaf: u32, place: u32) -> Option<Standing>
    requires { tree_size (tree_in tree.now) < 2 ^ 31 }
    ensures { FindsItem (mover_at leaf place (nodes_in tree.now)) result }
{
    match tree {
        WindowTree::Step { rest, .. } => item_at(rest, leaf, place),
        WindowTree::Test { yes, no, .. } => {
            let on_yes = leaf_count(yes);
            if leaf < on_yes {
                return item_at(yes, leaf, place);
            }
            item_at(no, leaf - on_yes, place)
        }
        WindowTree::Node { below } => {
            if leaf == 0 {
                return item_in(below, place);
            }
            None
        }
        WindowTree::Exit { .. } => None,
        WindowTree::Stop => None,
        WindowTree::Trap { .. } => None,
    }
}

/// Whether a tree is a leaf that leads to a node.
fn leads_on(tree: &WindowTree) -> bool
    ensures { result ≡ leads_on (nodes_in tree.now) }
{
    match tree {
        WindowTree::Node { .. } => true,
        WindowTree::Step { .. } => false,
        WindowTree::Test { .. } => false,
        WindowTree::Exit { .. } => false,
        WindowTree::Stop => false,
        WindowTree::Trap { .. } => false,
    }
}

/// Whether a leaf is the yes side of a test whose two sides lead to nodes.
pub(crate) fn is_yes_leaf(leaf: u32, yes: &WindowTree, no: &WindowTree) -> bool
    ensures { result ≡ is_yes_leaf leaf (nodes_in yes.now) (nodes_in no.now) }
{
    if leaf != 0 {
        return false;
    }
    if !leads_on(yes) {
        return false;
    }
    leads_on(no)
}

/// Whether a leaf and the next one are the two sides of one test, and lead to nodes.
fn are_sides(tree: &WindowTree, leaf: u32) -> bool
    requires { tree_size (tree_in tree.now) < 2 ^ 31 }
    ensures { result ≡ are_sides leaf (nodes_in tree.now) }
{
    match tree {
        WindowTree::Step { rest, .. } => are_sides(rest, leaf),
        WindowTree::Test { yes, no, .. } => {
            if is_yes_leaf(leaf, yes, no) {
                return true;
            }
            let on_yes = leaf_count(yes);
            if leaf < on_yes {
                return are_sides(yes, leaf);
            }
            are_sides(no, leaf - on_yes)
        }
        WindowTree::Node { .. } => false,
        WindowTree::Exit { .. } => false,
        WindowTree::Stop => false,
        WindowTree::Trap { .. } => false,
    }
}

/// The yes item of two that are equal but for their names, behind a leaf and the next one, where
/// these are the two sides of one test.
#[tactic(auto, using(crate::proofs::FoundTwins::twins))]
fn twins_at(node: &WindowTree, leaf: u16, yes_place: u16, no_place: u16) -> Option<Standing>
    requires { tree_size (tree_in node.now) < 2 ^ 31 }
    ensures { FindsTwins leaf yes_place no_place (Some (nodes_in node.now)) result }
{
    if leaf == u16::MAX {
        return None;
    }
    if !are_sides(node, leaf as u32) {
        return None;
    }
    let Some(on_yes) = item_at(node, leaf as u32, yes_place as u32) else {
        return None;
    };
    let Some(on_no) = item_at(node, leaf as u32 + 1, no_place as u32) else {
        return None;
    };
    if !on_yes.item.is_alike(on_no.item) {
        return None;
    }
    Some(on_yes)
}

/// The same behind a node that a path leads to, where there is that node.
#[tactic(auto, using(crate::proofs::FoundTwins::twins))]
pub(crate) fn find(
    window: &Window,
    parent: &[u16],
    leaf: u16,
    yes_place: u16,
    no_place: u16,
) -> Option<Standing>
    requires { tree_size (tree_in window.now.tree) < 2 ^ 31 }
    ensures { FindsTwins leaf yes_place no_place (node_at parent.now (nodes_in window.now.tree)) result }
{
    match node_at(&window.tree, parent) {
        None => None,
        Some(node) => twins_at(node, leaf, yes_place, no_place),
    }
}
