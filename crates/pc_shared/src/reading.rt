//! Walks of what a number unfolds to, place by place.
ghost use Rattle.std.specs.Prelude.{◌≡◌, ◌<◌, ◌^◌, IfOk, IfSome};
ghost use Rattle.pc_window.specs.Tree.{tree_size};
ghost use Rattle.pc_shared.specs.NodeTree.{nodes_in, plain_tree, count_places};
ghost use Rattle.pc_shared.specs.Unfolding.{tree_at, Stands};

use crate::node::SharedNode;
use crate::store::Store;
use pc_arena::NodeId;
use pc_window::{HomeList, WindowTree};
use pc_word::OutOfMemory;
use std::alloc::Global;

/// From this number on there are no places.
const MOST_PLACES: u32 = 1 << 31;

/// The number of items and tests of the tree of a number, no deeper than so many nodes.
#[tactic(auto, using(crate::proofs::Standing::standing))]
pub(crate) fn size_at(store: &Store, id: NodeId, most: u32) -> u32
    requires stands { Stands most store.now id }
    requires few { tree_size (plain_tree (tree_at most store.now id)) < 2 ^ 31 }
    ensures { result ≡ tree_size (plain_tree (tree_at most store.now id)) }
{
    match *store.nodes.get(id) {
        SharedNode::Step { rest, .. } => 1 + size_at(store, rest, most - 1),
        SharedNode::Test { yes, no, .. } => 1
            + size_at(store, yes, most - 1)
            + size_at(store, no, most - 1),
        SharedNode::Node { below } => size_at(store, below, most - 1),
        SharedNode::Exit { .. } | SharedNode::Stop | SharedNode::Trap { .. } => 0,
    }
}

/// At how many places nodes are seen in the tree of a number, no deeper than so many nodes.
#[tactic(auto, using(crate::proofs::Standing::standing))]
pub(crate) fn places_at(store: &Store, id: NodeId, most: u32) -> u32
    requires stands { Stands most store.now id }
    requires few { count_places (tree_at most store.now id) < 2 ^ 31 }
    ensures { result ≡ count_places (tree_at most store.now id) }
{
    match *store.nodes.get(id) {
        SharedNode::Step { rest, .. } => 1 + places_at(store, rest, most - 1),
        SharedNode::Test { yes, no, .. } => 1
            + places_at(store, yes, most - 1)
            + places_at(store, no, most - 1),
        SharedNode::Node { below } => 1 + places_at(store, below, most - 1),
        SharedNode::Exit { .. } | SharedNode::Stop | SharedNode::Trap { .. } => 1,
    }
}

/// The tree of a number, no deeper than so many nodes, in a box.
#[cycle(owned)]
fn boxed_tree(
    alloc: Global,
    store: &Store,
    id: NodeId,
    most: u32,
) -> Result<Box<WindowTree>, OutOfMemory>
    requires { Stands most store.now id }
    ensures { IfOk result (λ tree. nodes_in tree.value ≡ tree_at most store.now id) }
{
    let tree = owned_tree(alloc, store, id, most)?;
    let boxed = Box::new(alloc, tree)?;
    Ok(boxed)
}

/// The tree of a number, no deeper than so many nodes, with nodes of its own.
#[cycle(owned)]
#[tactic(auto, using(crate::proofs::Standing::standing))]
pub(crate) fn owned_tree(
    alloc: Global,
    store: &Store,
    id: NodeId,
    most: u32,
) -> Result<WindowTree, OutOfMemory>
    requires { Stands most store.now id }
    ensures { IfOk result (λ tree. nodes_in tree ≡ tree_at most store.now id) }
{
    match *store.nodes.get(id) {
        SharedNode::Step {
            tag,
            origin,
            item,
            rest,
        } => {
            let rest = boxed_tree(alloc, store, rest, most - 1)?;
            Ok(WindowTree::Step {
                tag,
                origin,
                item,
                rest,
            })
        }
        SharedNode::Test {
            tag,
            origin,
            on,
            yes,
            no,
        } => {
            let yes = boxed_tree(alloc, store, yes, most - 1)?;
            let no = boxed_tree(alloc, store, no, most - 1)?;
            Ok(WindowTree::Test {
                tag,
                origin,
                on,
                yes,
                no,
            })
        }
        SharedNode::Node { below } => {
            let below = boxed_tree(alloc, store, below, most - 1)?;
            Ok(WindowTree::Node { below })
        }
        SharedNode::Exit { region, tag, homes } => {
            let homes = HomeList::from_slice(alloc, store.homes.get(homes).as_slice())?;
            Ok(WindowTree::Exit { region, tag, homes })
        }
        SharedNode::Stop => Ok(WindowTree::Stop),
        SharedNode::Trap { kind, line } => Ok(WindowTree::Trap { kind, line }),
    }
}

/// The number of places of a tree that owns its nodes, unless it is 2^32 or more.
fn count_owned(tree: &WindowTree) -> Option<u32>
    ensures { IfSome result (λ count. count ≡ count_places (nodes_in tree.now)) }
{
    match tree {
        WindowTree::Step { rest, .. } => count_owned(rest)?.checked_add(1),
        WindowTree::Test { yes, no, .. } => {
            let on_yes = count_owned(yes)?;
            let on_no = count_owned(no)?;
            on_yes.checked_add(on_no)?.checked_add(1)
        }
        WindowTree::Node { below } => count_owned(below)?.checked_add(1),
        WindowTree::Exit { .. } | WindowTree::Stop | WindowTree::Trap { .. } => Some(1),
    }
}

/// The number of places of a tree that owns its nodes, where it is below 2^31.
pub(crate) fn count_few(tree: &WindowTree) -> Result<u32, OutOfMemory>
    ensures count { IfOk result (λ count. count ≡ count_places (nodes_in tree.now)) }
    ensures few { IfOk result (λ count. count < 2 ^ 31) }
{
    match count_owned(tree) {
        Some(count) if count < MOST_PLACES => Ok(count),
        _ => Err(OutOfMemory::Memory),
    }
}
