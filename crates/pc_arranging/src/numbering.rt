//! The parts of a window by their numbers in preorder.
ghost use Rattle.std.specs.Prelude.{◌≡◌, ◌≤◌, ◌<◌, ◌+◌, ◌^◌, ◌&&◌, nat_lt, nat_le};
ghost use Rattle.pc_window.specs.Tree.{tree_size};
ghost use Rattle.pc_window.specs.StoredWindow.{tree_in, front_in};
ghost use Rattle.pc_arranging.specs.Numbering.{leaf_count, part_count, place_on_no_side, place_beyond, place_across};

use pc_window::{WindowTree, is_leaf};

/// How many leaves a tree has: stubs, ends and traps.
pub(crate) fn leaf_count(tree: &WindowTree) -> u32
    requires { tree_size (tree_in tree.now) < 2 ^ 30 }
    ensures count { result ≡ leaf_count (tree_in tree.now) }
    ensures few { result ≤ tree_size (tree_in tree.now) + 1 }
{
    match tree {
        WindowTree::Step { rest, .. } => leaf_count(rest),
        WindowTree::Test { yes, no, .. } => leaf_count(yes) + leaf_count(no),
        WindowTree::Node { below } => leaf_count(below),
        WindowTree::Exit { .. } | WindowTree::Stop | WindowTree::Trap { .. } => 1,
    }
}

/// How many items, tests and leaves a tree has together.
pub(crate) fn part_count(tree: &WindowTree) -> u32
    requires { tree_size (tree_in tree.now) < 2 ^ 30 }
    ensures count { result ≡ part_count (tree_in tree.now) }
    ensures few { result ≤ tree_size (tree_in tree.now) + tree_size (tree_in tree.now) + 1 }
{
    match tree {
        WindowTree::Step { rest, .. } => 1 + part_count(rest),
        WindowTree::Test { yes, no, .. } => 1 + part_count(yes) + part_count(no),
        WindowTree::Node { below } => part_count(below),
        WindowTree::Exit { .. } | WindowTree::Stop | WindowTree::Trap { .. } => 1,
    }
}

/// Where a test is the root, and places below it are on its two sides: the second, counted from the
/// no side's root.
#[tactic(auto, using(crate::proofs::Numbers::across))]
fn place_on_no_side(on_yes: u32, on_no: u32, size: u32) -> Option<u32>
    ensures { result ≡ place_on_no_side on_yes on_no size }
{
    if on_yes == 0 || on_yes > size || on_no <= size {
        return None;
    }
    Some(on_no - 1 - size)
}

/// The same of a test of a front with these sides. There is none where something on them is in the
/// front.
#[tactic(auto, using(crate::proofs::Numbers::beyond))]
fn place_beyond(yes: &WindowTree, no: &WindowTree, on_yes: u32, on_no: u32) -> Option<u32>
    requires { tree_size (tree_in yes.now) < 2 ^ 30 }
    ensures { result ≡ place_beyond (front_in yes.now) (front_in no.now) on_yes on_no }
{
    if !is_leaf(yes) {
        return None;
    }
    if !is_leaf(no) {
        return None;
    }
    place_on_no_side(on_yes, on_no, yes.size())
}

/// Where places below the test of a front with a number are on its two sides: the second, counted
/// from the no side's root.
#[tactic(auto, using(crate::proofs::Numbers::across))]
pub(crate) fn place_across(tree: &WindowTree, test: u32, on_yes: u32, on_no: u32) -> Option<u32>
    requires { tree_size (tree_in tree.now) < 2 ^ 30 }
    ensures { result ≡ place_across (front_in tree.now) test on_yes on_no }
{
    match tree {
        WindowTree::Step { rest, .. } => {
            if test == 0 {
                return None;
            }
            let on_yes = on_yes.saturating_sub(1);
            place_across(rest, test - 1, on_yes, on_no.saturating_sub(1))
        }
        WindowTree::Test { yes, no, .. } => {
            if test == 0 {
                return place_beyond(yes, no, on_yes, on_no);
            }
            let on_yes = on_yes.saturating_sub(1);
            let on_no = on_no.saturating_sub(1);
            let size = yes.size();
            if test - 1 < size {
                return place_across(yes, test - 1, on_yes, on_no);
            }
            let on_no = on_no.saturating_sub(size);
            place_across(no, test - 1 - size, on_yes.saturating_sub(size), on_no)
        }
        WindowTree::Node { .. } => None,
        WindowTree::Exit { .. } => None,
        WindowTree::Stop => None,
        WindowTree::Trap { .. } => None,
    }
}
