//! Items and tests that rise node by node.
ghost use Rattle.std.specs.Prelude.{◌<◌, ◌≤◌, ◌^◌, OnOk, IfOk};
ghost use Rattle.pc_window.specs.Tree.{tree_size};
ghost use Rattle.pc_window.specs.Steps.{IsProper};
ghost use Rattle.pc_window.specs.StoredWindow.{tree_in, window_in};
ghost use Rattle.pc_replay.specs.Replaying.{ComesTo, IsSmall};

use crate::bounds::is_small;
use crate::error::ReplayError;
use pc_movecj::move_cj;
use pc_moveop::{leaf_count, move_op, node_at, node_size};
use pc_unify::unify;
use pc_window::{Window, WindowTree};
use std::alloc::Global;

/// The number of a leaf or place, as a move takes it; `TooLarge` above 65,535.
pub(crate) fn place_number(number: u32) -> Result<u16, ReplayError> {
    if number > u16::MAX as u32 {
        return Err(ReplayError::TooLarge);
    }
    Ok(number as u16)
}

/// The place at which an item stands that comes to the end of a node's path to a leaf.
fn place_above(node: &WindowTree, leaf: u32) -> u32
    requires small { tree_size (tree_in node.now) < 2 ^ 31 }
    ensures within { result ≤ tree_size (tree_in node.now) }
{
    match node {
        WindowTree::Step { rest, .. } => 1 + place_above(rest, leaf),
        WindowTree::Test { yes, no, .. } => {
            let on_yes = leaf_count(yes);
            if leaf < on_yes {
                return 1 + place_above(yes, leaf);
            }
            1 + node_size(yes) + place_above(no, leaf - on_yes)
        }
        WindowTree::Node { .. } => 0,
        WindowTree::Exit { .. } => 0,
        WindowTree::Stop => 0,
        WindowTree::Trap { .. } => 0,
    }
}

/// The same in the node that a path leads to.
fn landing(window: &Window, parent: &[u16], leaf: u16) -> Result<u16, ReplayError>
    ensures { IfOk result (λ place. IsSmall window.now) }
{
    if !is_small(window) {
        return Err(ReplayError::TooLarge);
    }
    match node_at(&window.tree, parent) {
        None => Err(ReplayError::NotFound),
        Some(node) => place_number(place_above(node, leaf as u32)),
    }
}

/// An item comes into the node above its own. Gives its place there.
#[tactic(auto, using(crate::proofs::Moved::moves))]
pub(crate) fn raise_once(
    alloc: Global,
    window: &mut Window,
    parent: &[u16],
    leaf: u16,
    place: u16,
) -> Result<u16, ReplayError>
    requires { IsProper (window_in window.old) }
    ensures { OnOk result (ComesTo window.old window.new) }
{
    let landing = landing(window, parent, leaf)?;
    move_op(alloc, window, parent, leaf, place)?;
    Ok(landing)
}

/// A test comes into the node above its own.
#[tactic(auto, using(crate::proofs::Moved::moves))]
fn raise_test_once(
    alloc: Global,
    window: &mut Window,
    parent: &[u16],
    leaf: u16,
) -> Result<(), ReplayError>
    requires { IsProper (window_in window.old) }
    ensures { OnOk result (ComesTo window.old window.new) }
{
    if !is_small(window) {
        return Err(ReplayError::TooLarge);
    }
    move_cj(alloc, window, parent, leaf)?;
    Ok(())
}

/// Two items right behind the front become one of the front.
#[tactic(auto, using(crate::proofs::Moved::moves))]
pub(crate) fn unify_once(
    alloc: Global,
    window: &mut Window,
    leaf: u16,
    yes_place: u16,
    no_place: u16,
) -> Result<(), ReplayError>
    requires { IsProper (window_in window.old) }
    ensures { OnOk result (ComesTo window.old window.new) }
{
    if !is_small(window) {
        return Err(ReplayError::TooLarge);
    }
    unify(alloc, window, &[], leaf, yes_place, no_place)?;
    Ok(())
}

/// An item comes up along a path of leaves, until it stands in the node behind the first of them.
/// Gives its place there.
#[tactic(auto, using(crate::proofs::Moved::moves))]
pub(crate) fn raise(
    alloc: Global,
    window: &mut Window,
    path: &[u16],
    place: u16,
) -> Result<u16, ReplayError>
    requires { IsProper (window_in window.old) }
    ensures { OnOk result (ComesTo window.old window.new) }
{
    let mut place = place;
    for up in 1..path.len() {
        let at = path.len() - up;
        place = raise_once(alloc, window, &path[..at], path[at], place)?;
    }
    Ok(place)
}

/// A test comes up along a path of leaves, until it stands in the front.
#[tactic(auto, using(crate::proofs::Moved::moves))]
pub(crate) fn raise_test(
    alloc: Global,
    window: &mut Window,
    path: &[u16],
) -> Result<(), ReplayError>
    requires { IsProper (window_in window.old) }
    ensures { OnOk result (ComesTo window.old window.new) }
{
    for up in 0..path.len() {
        let at = path.len() - 1 - up;
        raise_test_once(alloc, window, &path[..at], path[at])?;
    }
    Ok(())
}
