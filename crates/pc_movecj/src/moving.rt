//! Moving the first test of a node into the node above.
ghost use Rattle.std.specs.Prelude.{◌≡◌, ◌<◌, ◌≤◌, ◌+◌, ◌^◌, suc, Some, None, IfOk, IfErr, IsSome, OnOk, OnErr, Option};
ghost use Rattle.pc_window.specs.Tree.{tree_size};
ghost use Rattle.pc_window.specs.Filled.{test_count};
ghost use Rattle.pc_window.specs.Steps.{IsProper};
ghost use Rattle.pc_window.specs.StoredWindow.{tree_in, window_in};
ghost use Rattle.pc_moveop.specs.NodeTree.{nodes_in, node_at, node_front, NoEmptyNode};
ghost use Rattle.pc_moveop.specs.Moving.{NodeChanges, Fails, WalkKept};
ghost use Rattle.pc_movecj.specs.Dividing.{MovingTest, divided};
ghost use Rattle.pc_movecj.specs.MovingTest.{no_room_for_test, test_of, refusal_of_test, IsWhyNotTest, TestHasMoved};
ghost use Rattle.pc_movecj.specs.models.TestClimbs.{FindsTest, items_behind};

use crate::climbing::{TestClimb, moving_test_at};
use crate::dividing::{Spare, divide, spare_for};
use pc_moveop::{MoveError, RoomKind, node_at, swap_node};
use pc_window::{Window, WindowTree};
use pc_word::Operand;
use std::alloc::{AllocError, Global};

/// The tests of a node.
fn test_count(tree: &WindowTree) -> u32
    requires { tree_size (tree_in tree.now) < 2 ^ 31 }
    ensures count { result ≡ test_count (node_front (nodes_in tree.now)) }
    ensures within { result ≤ tree_size (tree_in tree.now) }
{
    match tree {
        WindowTree::Step { rest, .. } => test_count(rest),
        WindowTree::Test { yes, no, .. } => 1 + test_count(yes) + test_count(no),
        WindowTree::Node { .. } => 0,
        WindowTree::Exit { .. } => 0,
        WindowTree::Stop => 0,
        WindowTree::Trap { .. } => 0,
    }
}

/// Whether the front has no room for a test; a node behind it has room for all.
fn no_room(window: &Window, parent: &[u16]) -> Option<MoveError>
    requires { tree_size (tree_in window.now.tree) < 2 ^ 31 }
    ensures { result ≡ no_room_for_test parent.now window.now.limits (node_front (nodes_in window.now.tree)) }
{
    match parent.split_first() {
        Some(_) => None,
        None => {
            if test_count(&window.tree) >= window.limits.tests as u32 {
                return Some(MoveError::Full {
                    kind: RoomKind::Tests,
                });
            }
            None
        }
    }
}

/// The first test of the node behind a leaf of a node, where there is that node.
fn find(window: &Window, parent: &[u16], leaf: u32) -> Option<TestClimb>
    requires { tree_size (tree_in window.now.tree) < 2 ^ 31 }
    ensures { FindsTest (test_of window.now parent.now leaf) result }
{
    match node_at(&window.tree, parent) {
        None => None,
        Some(node) => moving_test_at(node, leaf),
    }
}

/// Why a test that was found may not move.
#[tactic(auto, using(crate::proofs::TestClimbs::refusing))]
fn refusal_of(window: &Window, parent: &[u16], climb: TestClimb) -> Option<MoveError>
    requires { tree_size (tree_in window.now.tree) < 2 ^ 31 }
    ensures { (m : Option MovingTest) → FindsTest m (Some climb) → result ≡ refusal_of_test window.now parent.now m }
{
    if climb.defined {
        if let Operand::Name(name) = climb.on {
            return Some(MoveError::Depends { name });
        }
    }
    no_room(window, parent)
}

/// The test that a move names, where the move is legal, or why it is refused.
#[tactic(auto, using(crate::proofs::TestClimbs::refusing))]
fn legal_test(window: &Window, parent: &[u16], leaf: u32) -> Result<TestClimb, MoveError>
    requires { tree_size (tree_in window.now.tree) < 2 ^ 31 }
    ensures found { IfOk result (λ climb. FindsTest (test_of window.now parent.now leaf) (Some climb)) }
    ensures legal { OnOk result (IsWhyNotTest window.now parent.now leaf None) }
    ensures refused { IfErr result (λ why. IsWhyNotTest window.now parent.now leaf (Some why)) }
{
    match find(window, parent, leaf) {
        None => Err(MoveError::NotThere),
        Some(climb) => match refusal_of(window, parent, climb) {
            None => Ok(climb),
            Some(why) => Err(why),
        },
    }
}

/// Why the first test of a node may not move into the node above, if it may not: the first refusal
/// in the order of `MoveError`. See `move_cj`.
pub fn why_not(window: &Window, parent: &[u16], leaf: u16) -> Option<MoveError>
    requires { tree_size (tree_in window.now.tree) < 2 ^ 31 }
    ensures { IsWhyNotTest window.now parent.now leaf result }
{
    match legal_test(window, parent, leaf as u32) {
        Ok(_) => None,
        Err(why) => Some(why),
    }
}

/// All that a move needs, before anything is changed.
fn prepared(alloc: Global, window: &Window, parent: &[u16], leaf: u32) -> Result<Spare, AllocError>
    requires small { tree_size (tree_in window.now.tree) < 2 ^ 31 }
    requires there { IsSome (node_at parent.now (nodes_in window.now.tree)) }
    ensures { IfOk result (λ spare. nodes_in spare.items.value ≡ items_behind leaf (node_at parent.now (nodes_in window.now.tree))) }
{
    let node = node_at(&window.tree, parent).unwrap();
    spare_for(alloc, node, leaf)
}

/// A test comes into the node that a path leads to, in place of a leaf there.
#[tactic(auto, using(pc_moveop::proofs::Brought::bringing))]
fn bring(tree: &mut WindowTree, parent: &[u16], leaf: u32, climb: TestClimb, spare: Spare)
    requires small { tree_size (tree_in tree.old) < 2 ^ 31 }
    requires there { IsSome (node_at parent.now (nodes_in tree.old)) }
    requires items { nodes_in spare.items.value ≡ items_behind leaf (node_at parent.now (nodes_in tree.old)) }
    ensures { NodeChanges (nodes_in tree.old) (nodes_in tree.new) parent.now (divided climb.tag climb.origin climb.on leaf) }
{
    let mut node = swap_node(tree, parent, WindowTree::Stop);
    divide(&mut node, leaf, climb, spare);
    swap_node(tree, parent, node);
}

/// What may move moves. On `Err` the window is as before.
#[tactic(auto, using(crate::proofs::TestClimbs::carrying))]
fn carry(
    alloc: Global,
    window: &mut Window,
    parent: &[u16],
    leaf: u32,
    climb: TestClimb,
) -> Result<(), AllocError>
    requires small { tree_size (tree_in window.old.tree) < 2 ^ 31 }
    requires found { FindsTest (test_of window.old parent.now leaf) (Some climb) }
    ensures moved { OnOk result (TestHasMoved window.old window.new parent.now leaf) }
    ensures undone { OnErr result (window.new ≡ window.old) }
{
    let spare = prepared(alloc, window, parent, leaf)?;
    bring(&mut window.tree, parent, leaf, climb, spare);
    Ok(())
}

/// Moves the first test of a node into the node above, in place of the leaf between them.
///
/// `parent` is the path of leaves that leads from the front to the node above; the front's own path
/// is empty. `leaf` is a leaf of that node that leads to the test's node; leaves are counted in
/// preorder, from 0. The items before the test then stand on both of its sides. On `Err` the window
/// is as before.
pub fn move_cj(
    alloc: Global,
    window: &mut Window,
    parent: &[u16],
    leaf: u16,
) -> Result<(), MoveError>
    requires proper { IsProper (window_in window.old) }
    requires small { tree_size (tree_in window.old.tree) < 2 ^ 31 }
    ensures legal { OnOk result (IsWhyNotTest window.old parent.now leaf None) }
    ensures fails { IfErr result (λ why. Fails (IsWhyNotTest window.old parent.now leaf) window.old window.new why) }
    ensures moved { OnOk result (TestHasMoved window.old window.new parent.now leaf) }
    ensures proper { OnOk result (IsProper (window_in window.new)) }
    ensures keeps { OnOk result (WalkKept window.old window.new) }
    ensures size { OnOk result (tree_size (tree_in window.new.tree) ≤ suc (tree_size (tree_in window.old.tree) + tree_size (tree_in window.old.tree))) }
    ensures nodes { OnOk result (NoEmptyNode (nodes_in window.old.tree) → NoEmptyNode (nodes_in window.new.tree)) }
{
    let climb = legal_test(window, parent, leaf as u32)?;
    carry(alloc, window, parent, leaf as u32, climb)?;
    Ok(())
}
