//! Unwinding: stub by stub, the least tag first.
ghost use Rattle.std.specs.Prelude.{◌≡◌, ◌≤◌, ◌<◌, ◌+◌, ◌^◌, true, OnOk, IfOk};
ghost use Rattle.pc_table.specs.StoredTable.{table_of};
ghost use Rattle.pc_window.specs.Tree.{tree_size};
ghost use Rattle.pc_window.specs.Unwinding.{Unwinds};
ghost use Rattle.pc_window.specs.Kept.{WindowKeeps};
ghost use Rattle.pc_window.specs.Steps.{UnwindsTo, IsProper};
ghost use Rattle.pc_window.specs.StoredWindow.{tree_in, window_in, InNodes};
ghost use Rattle.pc_unwind.specs.models.Named.{StubsAreThere};
ghost use Rattle.pc_unwind.specs.Unwindable.{CanUnwind, HasGrown};
ghost use Rattle.pc_unwind.specs.models.Walking.{HasRoom, RootAtMost, RootStaysAtMost, most_root_tag, with_growth};

use crate::growth::Growth;
use crate::homes::HomeTable;
use crate::nodes::split;
use crate::replacing::replace_stub;
use crate::tags::least_tags;
use crate::walking::walk;
use pc_table::RegionTable;
use pc_window::{Window, WindowError, WindowTree};
use std::alloc::{AllocError, Global};

/// Unwinds a window.
///
/// A stub inside the window's loop may be replaced by its region's tree where its tag is less than
/// `number` above the least tag of the window. Those of the least tag come first, and of these the
/// first in preorder, until there is none, or the next one would bring the window above 2,048 items
/// and tests. Each item and each test is then a node of its own, also where there is nothing to
/// unwind: where the window has no loop, or `number` is below 2.
pub fn unwind(
    alloc: Global,
    window: Window,
    table: &RegionTable,
    number: u8,
) -> Result<Window, WindowError>
    requires able { CanUnwind (table_of table.now) (window_in window) }
    ensures unwinds { IfOk result (λ later. UnwindsTo (table_of table.now) number (window_in window) (window_in later)) }
    ensures nodes { IfOk result (λ later. InNodes true later.tree) }
    ensures grown { IfOk result (λ later. HasGrown (table_of table.now) number (window_in window) (window_in later)) }
    ensures proper { IfOk result (λ later. IsProper (window_in window) → IsProper (window_in later)) }
    ensures keeps { IfOk result (λ later. IsProper (window_in window) → WindowKeeps (table_of table.now) (window_in window) (window_in later)) }
{
    let size = window.size();
    let Window {
        tree,
        names,
        limits,
        inside,
    } = window;
    let mut tree = split(alloc, tree)?;
    let homes = HomeTable::new();
    let mut growth = Growth { names, size, homes };
    unwind_tree(alloc, table, inside, number as u32, &mut growth, &mut tree)?;
    Ok(Window {
        tree,
        names: growth.names,
        limits,
        inside,
    })
}

/// Unwinds a window, where its loop may be unwound at all.
#[tactic(auto, using(crate::proofs::Reaching::few))]
fn unwind_tree(
    alloc: Global,
    table: &RegionTable,
    inside: Option<u16>,
    number: u32,
    growth: &mut Growth,
    tree: &mut WindowTree,
) -> Result<(), AllocError>
    requires number { number < 2 ^ 8 }
    requires nodes { InNodes true tree.old }
    requires stubs { StubsAreThere (table_of table.now) (tree_in tree.old) }
    requires room { HasRoom growth.old }
    requires size { growth.old.size ≡ tree_size (tree_in tree.old) }
    requires root { RootStaysAtMost (table_of table.now) most_root_tag (tree_in tree.old) }
    ensures unwinds { OnOk result (Unwinds (table_of table.now) inside number (with_growth (tree_in tree.old) growth.old) (with_growth (tree_in tree.new) growth.new)) }
    ensures nodes { OnOk result (InNodes true tree.new) }
{
    if number < 2 {
        return Ok(());
    }
    unwind_stub(alloc, table, inside, number, growth, tree)
}

/// Unwinds a window that may be a stub alone: this as long as it is one, and then all tags.
fn unwind_stub(
    alloc: Global,
    table: &RegionTable,
    inside: Option<u16>,
    number: u32,
    growth: &mut Growth,
    tree: &mut WindowTree,
) -> Result<(), AllocError>
    requires several { 2 ≤ number }
    requires number { number < 2 ^ 8 }
    requires nodes { InNodes true tree.old }
    requires stubs { StubsAreThere (table_of table.now) (tree_in tree.old) }
    requires room { HasRoom growth.old }
    requires size { growth.old.size ≡ tree_size (tree_in tree.old) }
    requires root { RootStaysAtMost (table_of table.now) most_root_tag (tree_in tree.old) }
    ensures unwinds { OnOk result (Unwinds (table_of table.now) inside number (with_growth (tree_in tree.old) growth.old) (with_growth (tree_in tree.new) growth.new)) }
    ensures nodes { OnOk result (InNodes true tree.new) }
{
    match tree {
        WindowTree::Exit { region, .. } => {
            if !table.is_inside(*region, inside) {
                return Ok(());
            }
            let replaced = replace_stub(alloc, table, inside, growth, tree, true)?;
            if !replaced {
                return Ok(());
            }
            unwind_stub(alloc, table, inside, number, growth, tree)
        }
        WindowTree::Stop => Ok(()),
        WindowTree::Trap { .. } => Ok(()),
        WindowTree::Node { .. } => Ok(()),
        WindowTree::Step { .. } => unwind_tags(alloc, table, inside, number, growth, tree),
        WindowTree::Test { .. } => unwind_tags(alloc, table, inside, number, growth, tree),
    }
}

/// Unwinds the stubs of the least tag, and then those of greater ones, as long as a stub's tag is less
/// than `number` above the least one of the window.
fn unwind_tags(
    alloc: Global,
    table: &RegionTable,
    inside: Option<u16>,
    number: u32,
    growth: &mut Growth,
    tree: &mut WindowTree,
) -> Result<(), AllocError>
    requires several { 2 ≤ number }
    requires number { number < 2 ^ 8 }
    requires nodes { InNodes true tree.old }
    requires stubs { StubsAreThere (table_of table.now) (tree_in tree.old) }
    requires room { HasRoom growth.old }
    requires size { growth.old.size ≡ tree_size (tree_in tree.old) }
    requires root { RootAtMost most_root_tag (tree_in tree.old) }
    ensures unwinds { OnOk result (Unwinds (table_of table.now) inside number (with_growth (tree_in tree.old) growth.old) (with_growth (tree_in tree.new) growth.new)) }
    ensures nodes { OnOk result (InNodes true tree.new) }
{
    let least = least_tags(table, inside, tree);
    let Some(tag) = least.inside else {
        return Ok(());
    };
    if tag >= least.front() + number {
        return Ok(());
    }
    let full = walk(alloc, table, inside, tag, growth, tree, true)?;
    if full {
        return Ok(());
    }
    unwind_tags(alloc, table, inside, number, growth, tree)
}
