//! Equal items on the two sides of a test of the front.
ghost use Rattle.std.specs.Prelude.{◌<◌, ◌^◌};
ghost use Rattle.pc_window.specs.Tree.{tree_size};
ghost use Rattle.pc_window.specs.StoredWindow.{tree_in};

use crate::bounds::{is_small, size};
use crate::error::ReplayError;
use crate::locating::{Location, locate};
use crate::raising::place_number;
use pc_fill::ReadyNode;
use pc_moveop::{leaf_count, node_at};
use pc_window::{Window, WindowTree};
use pc_word::Item;
use std::alloc::Global;

/// An item without the name that it writes.
fn unnamed(item: Item) -> Item {
    match item {
        Item::Bin {
            op,
            left,
            right,
            ..
        } => Item::Bin {
            op,
            dest: 0,
            left,
            right,
        },
        Item::Copy { from, .. } => Item::Copy { dest: 0, from },
        Item::Load { array, index, .. } => Item::Load {
            dest: 0,
            array,
            index,
        },
        Item::Store { .. } => item,
        Item::Print { .. } => item,
        Item::Read { .. } => Item::Read { dest: 0 },
        Item::More { .. } => Item::More { dest: 0 },
    }
}

/// The place of the first item of a tree that is equal to one that is ready but for its name, and has
/// the same tag and origin.
fn twin_place(tree: &WindowTree, ready: ReadyNode, item: Item) -> Option<u32>
    requires { tree_size (tree_in tree.now) < 2 ^ 30 }
{
    match tree {
        WindowTree::Step {
            tag,
            origin,
            item: other,
            rest,
        } => {
            if *tag == ready.tag && *origin == ready.origin && unnamed(*other) == unnamed(item) {
                return Some(0);
            }
            after(1, twin_place(rest, ready, item))
        }
        WindowTree::Test { yes, no, .. } => match twin_place(yes, ready, item) {
            Some(place) => place.checked_add(1),
            None => after(1 + size(yes)?, twin_place(no, ready, item)),
        },
        WindowTree::Node { below } => twin_place(below, ready, item),
        WindowTree::Exit { .. } => None,
        WindowTree::Stop => None,
        WindowTree::Trap { .. } => None,
    }
}

/// A place behind others.
fn after(others: u32, place: Option<u32>) -> Option<u32> {
    place?.checked_add(others)
}

/// Whether a tree is a leaf that leads to a node.
fn leads_on(tree: &WindowTree) -> bool {
    match tree {
        WindowTree::Node { .. } => true,
        _ => false,
    }
}

/// Whether a leaf and the next one are the two sides of one test of a node.
fn are_sides(tree: &WindowTree, leaf: u32) -> bool
    requires { tree_size (tree_in tree.now) < 2 ^ 31 }
{
    match tree {
        WindowTree::Step { rest, .. } => are_sides(rest, leaf),
        WindowTree::Test { yes, no, .. } => {
            if leaf == 0 && leads_on(yes) && leads_on(no) {
                return true;
            }
            let on_yes = leaf_count(yes);
            if leaf < on_yes {
                return are_sides(yes, leaf);
            }
            are_sides(no, leaf - on_yes)
        }
        WindowTree::Node { .. } => false,
        WindowTree::Exit { .. } => false,
        WindowTree::Stop => false,
        WindowTree::Trap { .. } => false,
    }
}

/// Where the twin stands of an item that is ready behind a leaf of the front: behind the next leaf,
/// where the two are the sides of one test.
pub(crate) fn twin_of(
    alloc: Global,
    window: &Window,
    leaf: u16,
    ready: ReadyNode,
    item: Item,
) -> Result<Option<Location>, ReplayError> {
    if !is_small(window) {
        return Err(ReplayError::TooLarge);
    }
    if !are_sides(&window.tree, leaf as u32) {
        return Ok(None);
    }
    let from: [u16; 1] = [place_number(leaf as u32 + 1)?];
    let Some(node) = node_at(&window.tree, &from) else {
        return Ok(None);
    };
    if size(node).is_none() {
        return Err(ReplayError::TooLarge);
    }
    match twin_place(node, ready, item) {
        None => Ok(None),
        Some(place) => {
            let at = locate(alloc, node, place, &from)?;
            Ok(Some(at))
        }
    }
}
