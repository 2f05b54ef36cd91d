//! Tidying.
ghost use Rattle.std.specs.Prelude.{◌≡◌, ◌≤◌, length, true, false, IfOk, OnOk};
ghost use Rattle.pc_word.specs.Items.{dest_of};
ghost use Rattle.pc_table.specs.Table.{Table};
ghost use Rattle.pc_window.specs.Tree.{tree_size};
ghost use Rattle.pc_window.specs.Kept.{WindowKeeps};
ghost use Rattle.pc_window.specs.Names.{uses};
ghost use Rattle.pc_window.specs.Opening.{TreeBelow};
ghost use Rattle.pc_window.specs.Tidying.{tidied, above};
ghost use Rattle.pc_window.specs.Steps.{Tidies, IsProper};
ghost use Rattle.pc_window.specs.StoredWindow.{tree_in, window_in, InNodes};
ghost use Rattle.pc_unify.specs.models.Marks.{is_marked, Marks, WritesNone, SidesApart};

use crate::marks::{is_needed, mark, mark_homes, mark_item};
use pc_window::{Window, WindowError, WindowTree, is_leaf};
use std::alloc::{AllocError, Global};

/// Deletes each Bin, Load and More whose name is used nowhere below, until there is none. Each item
/// and each test is then a node of its own. A window that is not given back, for want of memory, is
/// dropped.
#[tactic(auto, using(crate::proofs::Tidied::windows))]
pub fn tidy(alloc: Global, window: Window) -> Result<Window, WindowError>
    requires { IsProper (window_in window) }
    ensures tidies { IfOk result (λ later. Tidies (window_in window) (window_in later)) }
    ensures nodes { IfOk result (λ later. InNodes true later.tree) }
    ensures size { IfOk result (λ later. tree_size (tree_in later.tree) ≤ tree_size (tree_in window.tree)) }
    ensures proper { IfOk result (λ later. IsProper (window_in later)) }
    ensures keeps { IfOk result (λ later. (table : Table) → WindowKeeps table (window_in window) (window_in later)) }
{
    let mut window = window;
    let mut marks = vec![in alloc; false; window.names.forms.len()]?;
    tidy_tree(alloc, &mut window.tree, true, &mut marks)?;
    Ok(window)
}

/// Tidies a tree, at the root of a node or else below an item or test. Marks what is used in it,
/// beside what is marked already. The boxes of what stays are kept.
fn tidy_tree(
    alloc: Global,
    tree: &mut WindowTree,
    at_root: bool,
    marks: &mut [bool],
) -> Result<(), AllocError>
    requires below { TreeBelow (length marks.old) (tree_in tree.old) }
    requires unmarked { WritesNone (is_marked marks.old) (tree_in tree.old) }
    requires apart { SidesApart (tree_in tree.old) }
    ensures tree { OnOk result (tree_in tree.new ≡ tidied (tree_in tree.old)) }
    ensures marks { OnOk result (Marks marks.old marks.new (uses (tidied (tree_in tree.old)))) }
    ensures nodes { OnOk result (InNodes at_root tree.new) }
{
    match tree {
        WindowTree::Step { item, rest, .. } => {
            tidy_tree(alloc, rest, false, marks)?;
            if is_needed(marks, *item) {
                mark_item(marks, *item);
                return put_in_node(alloc, tree, at_root);
            }
            let rest = std::mem::replace(&mut **rest, WindowTree::Stop);
            *tree = lifted(rest, at_root);
        }
        WindowTree::Test { on, yes, no, .. } => {
            tidy_tree(alloc, yes, false, marks)?;
            tidy_tree(alloc, no, false, marks)?;
            mark(marks, *on);
            return put_in_node(alloc, tree, at_root);
        }
        WindowTree::Node { below } => {
            tidy_tree(alloc, below, true, marks)?;
            if at_root || is_leaf(below) {
                *tree = std::mem::replace(&mut **below, WindowTree::Stop);
            }
        }
        WindowTree::Exit { homes, .. } => mark_homes(marks, homes.as_slice()),
        WindowTree::Stop => {}
        WindowTree::Trap { .. } => {}
    }
    Ok(())
}

/// Puts an item or test in a node of its own, where it does not stand at the root of one.
fn put_in_node(alloc: Global, tree: &mut WindowTree, at_root: bool) -> Result<(), AllocError>
    requires { InNodes true tree.old }
    ensures tree { OnOk result (tree_in tree.new ≡ tree_in tree.old) }
    ensures nodes { OnOk result (InNodes at_root tree.new) }
{
    if at_root {
        return Ok(());
    }
    let whole = std::mem::replace(tree, WindowTree::Stop);
    let below = Box::new(alloc, whole)?;
    *tree = WindowTree::Node { below };
    Ok(())
}

/// What takes the place of an item that goes: the tree below it, taken out of its own node where the
/// item stood at the root of one.
fn lifted(tree: WindowTree, at_root: bool) -> WindowTree
    requires { InNodes false tree }
    ensures tree { tree_in result ≡ tree_in tree }
    ensures nodes { InNodes at_root result }
{
    match tree {
        WindowTree::Node { below } if at_root => Box::into_inner(below),
        other => other,
    }
}
