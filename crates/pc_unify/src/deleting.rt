//! Deleting one item.
ghost use Rattle.std.specs.Prelude.{◌≡◌, ◌<◌, ◌^◌, ◌+◌, Some, None, List, OnOk, OnErr, IfErr, if◌then◌else◌};
ghost use Rattle.pc_window.specs.Tree.{tree_size};
ghost use Rattle.pc_window.specs.Names.{uses};
ghost use Rattle.pc_window.specs.Steps.{IsProper};
ghost use Rattle.pc_window.specs.StoredWindow.{tree_in, window_in};
ghost use Rattle.pc_moveop.specs.NodeTree.{nodes_in, whole_tree};
ghost use Rattle.pc_moveop.specs.Moving.{Fails, WalkKept};
ghost use Rattle.pc_moveop.specs.declared.error.MoveError.TheVariants.{Depends};
ghost use Rattle.pc_unify.specs.Deleting.{refusal_of_item, closed, refusal_of_standing, standing_at, IsWhyNotDelete, node_deleted, child_closed, item_deleted, front_left, without_item, IsDeleted};

use crate::emptied::{emptied_size, skip_empty_front, spare_boxes};
use pc_moveop::{MoveError, leaf_count, leaf_to, node_at, node_size};
use pc_window::{Window, WindowTree, homes_use};
use pc_word::Item;
use std::alloc::{AllocError, Global};

/// Whether a name is used in a tree, and not defined above.
fn uses(tree: &WindowTree, name: u32) -> bool
    ensures { result ≡ uses (whole_tree (nodes_in tree.now)) name }
{
    match tree {
        WindowTree::Step { item, rest, .. } => {
            if item.reads(name) {
                return true;
            }
            if item.writes(name) {
                return false;
            }
            uses(rest, name)
        }
        WindowTree::Test { on, yes, no, .. } => {
            if on.is_name(name) {
                return true;
            }
            if uses(yes, name) {
                return true;
            }
            uses(no, name)
        }
        WindowTree::Node { below } => uses(below, name),
        WindowTree::Exit { homes, .. } => homes_use(homes.as_slice(), name),
        WindowTree::Stop => false,
        WindowTree::Trap { .. } => false,
    }
}

/// Why a name may not go that is used below.
fn used_below(name: u32, rest: &WindowTree) -> Option<MoveError>
    ensures { result ≡ (if uses (whole_tree (nodes_in rest.now)) name then Some (Depends name) else None) }
{
    if uses(rest, name) {
        return Some(MoveError::Depends { name });
    }
    None
}

/// Why an item may not be deleted.
fn refusal_of_item(item: Item, rest: &WindowTree) -> Option<MoveError>
    ensures { result ≡ refusal_of_item item (whole_tree (nodes_in rest.now)) }
{
    match item {
        Item::Bin { dest, .. } | Item::Load { dest, .. } | Item::More { dest } => {
            used_below(dest, rest)
        }
        _ => Some(MoveError::NotThere),
    }
}

/// Why the item at a place of a node may not be deleted.
fn refusal_at(tree: &WindowTree, place: u32) -> Option<MoveError>
    requires { tree_size (tree_in tree.now) < 2 ^ 31 }
    ensures { result ≡ refusal_of_standing (standing_at place (nodes_in tree.now)) }
{
    match tree {
        WindowTree::Step { item, rest, .. } => {
            if place == 0 {
                return refusal_of_item(*item, rest);
            }
            refusal_at(rest, place - 1)
        }
        WindowTree::Test { yes, no, .. } => {
            if place == 0 {
                return Some(MoveError::NotThere);
            }
            let on_yes = node_size(yes);
            if place - 1 < on_yes {
                return refusal_at(yes, place - 1);
            }
            refusal_at(no, place - 1 - on_yes)
        }
        WindowTree::Node { .. } => Some(MoveError::NotThere),
        WindowTree::Exit { .. } => Some(MoveError::NotThere),
        WindowTree::Stop => Some(MoveError::NotThere),
        WindowTree::Trap { .. } => Some(MoveError::NotThere),
    }
}

/// Why an item may not be deleted, if it may not. See `delete`.
pub fn why_not_delete(window: &Window, node: &[u16], place: u16) -> Option<MoveError>
    requires { tree_size (tree_in window.now.tree) < 2 ^ 31 }
    ensures { IsWhyNotDelete window.now node.now place result }
{
    match node_at(&window.tree, node) {
        None => Some(MoveError::NotThere),
        Some(tree) => refusal_at(tree, place as u32),
    }
}

/// What stands below the item at the root.
fn below_root(tree: WindowTree) -> WindowTree
    ensures { nodes_in result ≡ node_deleted 0 (nodes_in tree) }
{
    match tree {
        WindowTree::Step { rest, .. } => Box::into_inner(rest),
        other => other,
    }
}

/// Takes the item at a place of a node away.
fn drop_item(tree: &mut WindowTree, place: u32)
    requires { tree_size (tree_in tree.old) < 2 ^ 31 }
    ensures { nodes_in tree.new ≡ node_deleted place (nodes_in tree.old) }
{
    if place == 0 {
        let whole = std::mem::replace(tree, WindowTree::Stop);
        *tree = below_root(whole);
        return;
    }
    match tree {
        WindowTree::Step { rest, .. } => drop_item(rest, place - 1),
        WindowTree::Test { yes, no, .. } => {
            let on_yes = node_size(yes);
            if place - 1 < on_yes {
                drop_item(yes, place - 1)
            } else {
                drop_item(no, place - 1 - on_yes)
            }
        }
        WindowTree::Node { .. } => {}
        WindowTree::Exit { .. } => {}
        WindowTree::Stop => {}
        WindowTree::Trap { .. } => {}
    }
}

/// A leaf that leads to a node without items and tests leads on where that node does.
fn closed(leaf: WindowTree) -> WindowTree
    ensures { nodes_in result ≡ closed (nodes_in leaf) }
{
    match leaf {
        WindowTree::Node { below } => leaf_to(below),
        other => other,
    }
}

/// The item at a place of the node behind a leaf and then a path goes.
fn delete_below(tree: &mut WindowTree, leaf: u32, path: &[u16], place: u32)
    requires { tree_size (tree_in tree.old) < 2 ^ 31 }
    ensures { nodes_in tree.new ≡ child_closed leaf (item_deleted path.now place) (nodes_in tree.old) }
{
    match tree {
        WindowTree::Step { rest, .. } => delete_below(rest, leaf, path, place),
        WindowTree::Test { yes, no, .. } => {
            let on_yes = leaf_count(yes);
            if leaf < on_yes {
                delete_below(yes, leaf, path, place)
            } else {
                delete_below(no, leaf - on_yes, path, place)
            }
        }
        WindowTree::Node { below } => {
            if leaf != 0 {
                return;
            }
            match path.split_first() {
                None => drop_item(below, place),
                Some((next, rest)) => delete_below(below, *next as u32, rest, place),
            }
            let whole = std::mem::replace(tree, WindowTree::Stop);
            *tree = closed(whole);
        }
        WindowTree::Exit { .. } => {}
        WindowTree::Stop => {}
        WindowTree::Trap { .. } => {}
    }
}

/// The item at a place of the front goes. Where it was the only one, the next node becomes the front.
fn delete_in_front(alloc: Global, tree: &mut WindowTree, place: u32) -> Result<(), AllocError>
    requires { tree_size (tree_in tree.old) < 2 ^ 31 }
    ensures deleted { OnOk result (nodes_in tree.new ≡ front_left (node_deleted place (nodes_in tree.old))) }
    ensures undone { OnErr result (tree.new ≡ tree.old) }
{
    let mut spare = spare_boxes(alloc, emptied_size(tree))?;
    drop_item(tree, place);
    skip_empty_front(tree, &mut spare);
    Ok(())
}

/// The item at a place of the node that a path leads to goes.
fn delete_at(
    alloc: Global,
    tree: &mut WindowTree,
    path: &[u16],
    place: u32,
) -> Result<(), AllocError>
    requires { tree_size (tree_in tree.old) < 2 ^ 31 }
    ensures deleted { OnOk result (nodes_in tree.new ≡ without_item path.now place (nodes_in tree.old)) }
    ensures undone { OnErr result (tree.new ≡ tree.old) }
{
    match path.split_first() {
        None => delete_in_front(alloc, tree, place),
        Some((leaf, rest)) => {
            delete_below(tree, *leaf as u32, rest, place);
            Ok(())
        }
    }
}

/// Deletes a Bin, Load or More whose name is used nowhere below.
///
/// `node` is the path of leaves that leads from the front to the item's node; the front's own path
/// is empty. `place` is the item's place there, counted in preorder, from 0. A node that is left
/// without items and tests is skipped. Where that is the front, the next node becomes the front, with
/// each of its items and tests in a node of its own: this alone takes memory. On `Err` the window is
/// as before.
pub fn delete(alloc: Global, window: &mut Window, node: &[u16], place: u16) -> Result<(), MoveError>
    requires proper { IsProper (window_in window.old) }
    requires small { tree_size (tree_in window.old.tree) < 2 ^ 31 }
    ensures legal { OnOk result (IsWhyNotDelete window.old node.now place None) }
    ensures fails { IfErr result (λ why. Fails (IsWhyNotDelete window.old node.now place) window.old window.new why) }
    ensures deleted { OnOk result (IsDeleted window.old window.new node.now place) }
    ensures proper { OnOk result (IsProper (window_in window.new)) }
    ensures keeps { OnOk result (WalkKept window.old window.new) }
{
    match why_not_delete(window, node, place) {
        Some(why) => Err(why),
        None => {
            delete_at(alloc, &mut window.tree, node, place as u32)?;
            Ok(())
        }
    }
}
