//! Where items and tests stand in a window.
ghost use Rattle.std.specs.Prelude.{◌≡◌, ◌<◌, ◌≤◌, ◌+◌, ◌^◌};
ghost use Rattle.pc_window.specs.Tree.{tree_size};
ghost use Rattle.pc_window.specs.StoredWindow.{tree_in};

use crate::bounds::size;
use crate::error::ReplayError;
use crate::raising::place_number;
use pc_moveop::{leaf_count, node_size};
use pc_window::WindowTree;
use std::alloc::{AllocError, Global};

/// Where an item or test stands: the leaves that lead from the front to its node, and its place there.
#[derive(Debug, Drop)]
pub(crate) struct Location {
    pub(crate) path: Vec<u16>,
    pub(crate) place: u16,
}

/// How far a search in a node has come: how many items and tests, and how many leaves, were passed.
#[derive(Clone, Copy, Debug)]
struct Passed {
    places: u32,
    leaves: u32,
}

/// Nothing was passed.
const NOTHING_PASSED: Passed = Passed {
    places: 0,
    leaves: 0,
};

impl Passed {
    /// One item or test more.
    fn and_one(self) -> Passed
        requires few { self.places < 2 ^ 31 }
        ensures places { result.places ≡ self.places + 1 }
        ensures leaves { result.leaves ≡ self.leaves }
    {
        Passed {
            places: self.places + 1,
            ..self
        }
    }

    /// The items, tests and leaves of a node more.
    fn and_node(self, node: &WindowTree) -> Passed
        requires places { self.places + tree_size (tree_in node.now) < 2 ^ 31 }
        requires leaves { self.leaves + tree_size (tree_in node.now) < 2 ^ 31 }
        ensures places { result.places ≤ self.places + tree_size (tree_in node.now) }
        ensures leaves { result.leaves ≤ self.leaves + tree_size (tree_in node.now) + 1 }
    {
        Passed {
            places: self.places + node_size(node),
            leaves: self.leaves + leaf_count(node),
        }
    }
}

/// A path that goes on by one more leaf.
fn go_on(path: &mut Vec<u16>, leaf: u16) -> Result<(), AllocError> {
    path.push(leaf)?;
    Ok(())
}

/// The place in its node of the item or test at a preorder place of a tree. Behind a leaf the path
/// is longer.
fn place_in_node(
    tree: &WindowTree,
    place: u32,
    passed: Passed,
    path: &mut Vec<u16>,
) -> Result<u16, ReplayError>
    requires small { tree_size (tree_in tree.now) < 2 ^ 30 }
    requires places { passed.places + tree_size (tree_in tree.now) < 2 ^ 31 }
    requires leaves { passed.leaves + tree_size (tree_in tree.now) < 2 ^ 31 }
{
    match tree {
        WindowTree::Step { rest, .. } => {
            if place == 0 {
                return place_number(passed.places);
            }
            place_in_node(rest, place - 1, passed.and_one(), path)
        }
        WindowTree::Test { yes, no, .. } => {
            if place == 0 {
                return place_number(passed.places);
            }
            // Not reached: the tree is small.
            let Some(on_yes) = size(yes) else {
                return Err(ReplayError::TooLarge);
            };
            let behind = passed.and_one();
            if place - 1 < on_yes {
                return place_in_node(yes, place - 1, behind, path);
            }
            place_in_node(no, place - 1 - on_yes, behind.and_node(yes), path)
        }
        WindowTree::Node { below } => {
            go_on(path, place_number(passed.leaves)?)?;
            place_in_node(below, place, NOTHING_PASSED, path)
        }
        WindowTree::Exit { .. } => Err(ReplayError::NotFound),
        WindowTree::Stop => Err(ReplayError::NotFound),
        WindowTree::Trap { .. } => Err(ReplayError::NotFound),
    }
}

/// Where the item or test at a preorder place of a tree stands; the tree is a node that a path leads
/// to.
pub(crate) fn locate(
    alloc: Global,
    tree: &WindowTree,
    place: u32,
    from: &[u16],
) -> Result<Location, ReplayError> {
    if size(tree).is_none() {
        return Err(ReplayError::TooLarge);
    }
    let mut path = Vec::new(alloc);
    for leaf in from {
        go_on(&mut path, *leaf)?;
    }
    let place = place_in_node(tree, place, NOTHING_PASSED, &mut path)?;
    Ok(Location { path, place })
}
