//! What is left behind the leaves of a front.
ghost use Rattle.std.specs.Prelude.{◌≡◌, ◌∷◌, ◌++◌, [], map, true, IfOk, OnOk};
ghost use Rattle.std.specs.List.{AllByRecursion};
ghost use Rattle.pc_word.specs.Row.{leaves_of};
ghost use Rattle.pc_window.specs.Steps.{front_row};
ghost use Rattle.pc_window.specs.StoredWindow.{tree_in, front_in, InNodes, NodesBehind};

use pc_window::WindowTree;
use std::alloc::{AllocError, Global};

/// Appends a copy of the tree behind each leaf of a front, in preorder.
fn push_rests(
    alloc: Global,
    tree: &WindowTree,
    rests: &mut Vec<WindowTree>,
) -> Result<(), AllocError>
    ensures rests { OnOk result (map tree_in rests.new.items ≡ map tree_in rests.old.items ++ leaves_of (front_row (λ rest. rest) (front_in tree.now))) }
    ensures nodes { OnOk result (NodesBehind tree.now → AllByRecursion (InNodes true) rests.old.items → AllByRecursion (InNodes true) rests.new.items) }
{
    match tree {
        WindowTree::Step { rest, .. } => push_rests(alloc, rest, rests),
        WindowTree::Test { yes, no, .. } => {
            push_rests(alloc, yes, rests)?;
            push_rests(alloc, no, rests)
        }
        WindowTree::Node { below } => push_copy(alloc, below, rests),
        WindowTree::Exit { .. } | WindowTree::Stop | WindowTree::Trap { .. } => {
            push_copy(alloc, tree, rests)
        }
    }
}

/// Appends a copy of a tree.
fn push_copy(
    alloc: Global,
    tree: &WindowTree,
    rests: &mut Vec<WindowTree>,
) -> Result<(), AllocError>
    ensures rests { OnOk result (map tree_in rests.new.items ≡ map tree_in rests.old.items ++ tree_in tree.now ∷ []) }
    ensures nodes { OnOk result (InNodes true tree.now → AllByRecursion (InNodes true) rests.old.items → AllByRecursion (InNodes true) rests.new.items) }
{
    let copy = tree.copy(alloc)?;
    rests.push(copy)?;
    Ok(())
}

/// A copy of the tree behind each leaf of a front, in preorder.
pub(crate) fn rests_of(alloc: Global, tree: &WindowTree) -> Result<Vec<WindowTree>, AllocError>
    ensures rests { IfOk result (λ rests. map tree_in rests.items ≡ leaves_of (front_row (λ rest. rest) (front_in tree.now))) }
    ensures nodes { IfOk result (λ rests. NodesBehind tree.now → AllByRecursion (InNodes true) rests.items) }
{
    let mut rests = Vec::new(alloc);
    push_rests(alloc, tree, &mut rests)?;
    Ok(rests)
}
