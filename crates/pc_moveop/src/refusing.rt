//! Why a move is refused.
ghost use Rattle.std.specs.Prelude.{◌≡◌, ◌≤◌, ◌<◌, ◌^◌, Option, Some, None, IfOk, OnOk, IfErr};
ghost use Rattle.pc_word.specs.Items.{operands_of};
ghost use Rattle.pc_window.specs.Tree.{tree_size};
ghost use Rattle.pc_window.specs.Filled.{item_count, memory_count};
ghost use Rattle.pc_window.specs.StoredWindow.{tree_in, forms_in};
ghost use Rattle.pc_moveop.specs.NodeTree.{nodes_in, node_front};
ghost use Rattle.pc_moveop.specs.Climbing.{Mover};
ghost use Rattle.pc_moveop.specs.Refusing.{first_refusal, no_room_for, no_room_at, mover_of, IsWhyNot, RefusesFound};
ghost use Rattle.pc_moveop.specs.models.Climbs.{Finds, first_marked};

use crate::climbing::{Climb, climb_at, first_defined};
use crate::error::{MoveError, RoomKind};
use crate::nodes::node_at;
use pc_window::{Window, WindowTree};
use pc_word::{Item, Limits};

/// The items of a node.
pub fn item_count(tree: &WindowTree) -> u32
    requires { tree_size (tree_in tree.now) < 2 ^ 31 }
    ensures count { result ≡ item_count (node_front (nodes_in tree.now)) }
    ensures within { result ≤ tree_size (tree_in tree.now) }
{
    match tree {
        WindowTree::Step { rest, .. } => 1 + item_count(rest),
        WindowTree::Test { yes, no, .. } => item_count(yes) + item_count(no),
        WindowTree::Node { .. } => 0,
        WindowTree::Exit { .. } => 0,
        WindowTree::Stop => 0,
        WindowTree::Trap { .. } => 0,
    }
}

/// The loads and stores of a node.
pub fn memory_count(tree: &WindowTree) -> u32
    requires { tree_size (tree_in tree.now) < 2 ^ 31 }
    ensures count { result ≡ memory_count (node_front (nodes_in tree.now)) }
    ensures within { result ≤ tree_size (tree_in tree.now) }
{
    match tree {
        WindowTree::Step { item, rest, .. } => {
            let below = memory_count(rest);
            if item.is_memory() {
                return 1 + below;
            }
            below
        }
        WindowTree::Test { yes, no, .. } => memory_count(yes) + memory_count(no),
        WindowTree::Node { .. } => 0,
        WindowTree::Exit { .. } => 0,
        WindowTree::Stop => 0,
        WindowTree::Trap { .. } => 0,
    }
}

/// Why an item may not rise, by what it meets.
pub(crate) fn refusal_of_way(climb: Climb) -> Option<MoveError>
    ensures { result ≡ first_refusal (first_marked climb.first_defined climb.second_defined (operands_of climb.item)) climb.conflict climb.crosses climb.effect climb.item }
{
    if let Some(name) = first_defined(climb) {
        return Some(MoveError::Depends { name });
    }
    if let Some(origin) = climb.conflict {
        return Some(MoveError::MemoryOrder { origin });
    }
    if climb.crosses {
        if !climb.item.only_computes() {
            return Some(MoveError::EffectAboveTest);
        }
    }
    if climb.effect {
        if climb.item.is_effect() {
            return Some(MoveError::EffectOrder);
        }
    }
    None
}

/// What a front has no room for, where it is to take an item.
fn no_room_for(tree: &WindowTree, limits: Limits, item: Item) -> Option<MoveError>
    requires { tree_size (tree_in tree.now) < 2 ^ 31 }
    ensures { result ≡ no_room_for limits item (node_front (nodes_in tree.now)) }
{
    if item_count(tree) >= limits.ops as u32 {
        return Some(MoveError::Full {
            kind: RoomKind::Ops,
        });
    }
    if item.is_memory() {
        if memory_count(tree) >= limits.mem as u32 {
            return Some(MoveError::Full {
                kind: RoomKind::Mem,
            });
        }
    }
    None
}

/// The same of any node: those behind the front have room for all.
pub(crate) fn no_room_at(window: &Window, path: &[u16], item: Item) -> Option<MoveError>
    requires { tree_size (tree_in window.now.tree) < 2 ^ 31 }
    ensures { result ≡ no_room_at path.now window.now.limits item (node_front (nodes_in window.now.tree)) }
{
    match path.split_first() {
        None => no_room_for(&window.tree, window.limits, item),
        Some(_) => None,
    }
}

/// Why what was found may not come into a node.
#[tactic(auto, using(crate::proofs::Refused::refusing))]
fn refusal_of(window: &Window, parent: &[u16], climb: Climb) -> Option<MoveError>
    requires { tree_size (tree_in window.now.tree) < 2 ^ 31 }
    ensures { (found : Option Mover) → Finds (forms_in window.now.names.forms) found (Some climb) → RefusesFound window.now parent.now found result }
{
    if let Some(why) = refusal_of_way(climb) {
        return Some(why);
    }
    no_room_at(window, parent, climb.item)
}

/// What stands at a place of the node behind a leaf of a node, where there is that node.
fn find(window: &Window, parent: &[u16], leaf: u32, place: u32) -> Option<Climb>
    requires { tree_size (tree_in window.now.tree) < 2 ^ 31 }
    ensures { Finds (forms_in window.now.names.forms) (mover_of window.now parent.now leaf place) result }
{
    match node_at(&window.tree, parent) {
        None => None,
        Some(node) => climb_at(&window.names, node, leaf, place),
    }
}

/// What a move names, where the move is legal, or why it is refused.
#[tactic(auto, using(crate::proofs::Refused::refusing))]
pub(crate) fn legal_mover(
    window: &Window,
    parent: &[u16],
    leaf: u32,
    place: u32,
) -> Result<Climb, MoveError>
    requires { tree_size (tree_in window.now.tree) < 2 ^ 31 }
    ensures found { IfOk result (λ climb. Finds (forms_in window.now.names.forms) (mover_of window.now parent.now leaf place) (Some climb)) }
    ensures legal { OnOk result (IsWhyNot window.now parent.now leaf place None) }
    ensures refused { IfErr result (λ why. IsWhyNot window.now parent.now leaf place (Some why)) }
{
    match find(window, parent, leaf, place) {
        None => Err(MoveError::NotThere),
        Some(climb) => match refusal_of(window, parent, climb) {
            None => Ok(climb),
            Some(why) => Err(why),
        },
    }
}
