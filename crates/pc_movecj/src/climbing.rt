//! A test on its way up into the node above, and whether its operand is defined there.
ghost use Rattle.std.specs.Prelude.{◌≡◌, ◌<◌, ◌^◌, [], ◌∷◌, Some, Bool, ℕ, Option};
ghost use Rattle.pc_window.specs.Tree.{tree_size};
ghost use Rattle.pc_window.specs.StoredWindow.{tree_in};
ghost use Rattle.pc_moveop.specs.NodeTree.{nodes_in};
ghost use Rattle.pc_moveop.specs.Climbing.{Passed_item, first_defined};
ghost use Rattle.pc_moveop.specs.Refusing.{depends_on};
ghost use Rattle.pc_movecj.specs.Dividing.{MovingTest, passing_test, first_test, moving_test_at};
ghost use Rattle.pc_movecj.specs.models.TestClimbs.{FindsTest};

use pc_moveop::{MoveError, defines, leaf_count};
use pc_window::WindowTree;
use pc_word::{Item, Operand};

/// A test on its way up, and whether its operand is defined there.
#[derive(Clone, Copy, Debug)]
pub(crate) struct TestClimb {
    pub(crate) tag: u32,
    pub(crate) origin: u32,
    pub(crate) on: Operand,
    pub(crate) defined: bool,
}

/// A test once it has passed an item.
#[tactic(auto, using(crate::proofs::TestClimbs::climbs))]
fn past_item(climb: TestClimb, above: Item) -> TestClimb
    ensures { (finished : Bool) (origin : ℕ) (m : Option MovingTest) → FindsTest m (Some climb)
        → FindsTest (passing_test (Passed_item finished origin above) m) (Some result) }
{
    TestClimb {
        defined: defines(above, Some(climb.on), climb.defined),
        ..climb
    }
}

/// The first test of a node.
#[tactic(auto, using(crate::proofs::TestClimbs::searches))]
fn first_test(tree: &WindowTree) -> Option<TestClimb>
    ensures { FindsTest (first_test (nodes_in tree.now)) result }
{
    match tree {
        WindowTree::Step { item, rest, .. } => match first_test(rest) {
            None => None,
            Some(climb) => Some(past_item(climb, *item)),
        },
        WindowTree::Test {
            tag,
            origin,
            on,
            ..
        } => Some(TestClimb {
            tag: *tag,
            origin: *origin,
            on: *on,
            defined: false,
        }),
        WindowTree::Node { .. } => None,
        WindowTree::Exit { .. } => None,
        WindowTree::Stop => None,
        WindowTree::Trap { .. } => None,
    }
}

/// The first test of the node that a leaf leads to, on its way to that leaf.
#[tactic(auto, using(crate::proofs::TestClimbs::searches))]
pub(crate) fn moving_test_at(tree: &WindowTree, leaf: u32) -> Option<TestClimb>
    requires { tree_size (tree_in tree.now) < 2 ^ 31 }
    ensures { FindsTest (moving_test_at leaf (nodes_in tree.now)) result }
{
    match tree {
        WindowTree::Step { item, rest, .. } => match moving_test_at(rest, leaf) {
            None => None,
            Some(climb) => Some(past_item(climb, *item)),
        },
        WindowTree::Test { yes, no, .. } => {
            let on_yes = leaf_count(yes);
            if leaf < on_yes {
                return moving_test_at(yes, leaf);
            }
            moving_test_at(no, leaf - on_yes)
        }
        WindowTree::Node { below } => {
            if leaf == 0 {
                return first_test(below);
            }
            None
        }
        WindowTree::Exit { .. } => None,
        WindowTree::Stop => None,
        WindowTree::Trap { .. } => None,
    }
}
