//! How large windows are.
ghost use Rattle.std.specs.Prelude.{◌≡◌, ◌<◌, ◌≤◌, ◌^◌, true, length, IfOk, IfSome};
ghost use Rattle.pc_table.specs.StoredTable.{table_of};
ghost use Rattle.pc_window.specs.Tree.{tree_size};
ghost use Rattle.pc_window.specs.StoredWindow.{tree_in, window_in};
ghost use Rattle.pc_unwind.specs.Unwindable.{CanUnwind};

use crate::naming::parts_are_there;
use pc_table::RegionTable;
use pc_window::{Window, WindowTree};
use std::alloc::{AllocError, Global};

/// More than the items and tests that a window may have.
const TOO_MANY: u32 = 1 << 30;

/// The items and tests of a window that is unwound or filled.
const MOST_SIZE: u32 = 2048;

/// A number that is not too large.
fn few(number: u32) -> Option<u32>
    ensures same { IfSome result (λ n. n ≡ number) }
    ensures few { IfSome result (λ n. n < 2 ^ 30) }
{
    if number < TOO_MANY {
        return Some(number);
    }
    None
}

/// The items and tests of a tree, where there are fewer than 2^30.
pub fn size(tree: &WindowTree) -> Option<u32>
    ensures size { IfSome result (λ n. n ≡ tree_size (tree_in tree.now)) }
    ensures few { IfSome result (λ n. n < 2 ^ 30) }
{
    match tree {
        WindowTree::Step { rest, .. } => few(1 + size(rest)?),
        WindowTree::Test { yes, no, .. } => few(1 + size(yes)? + size(no)?),
        WindowTree::Node { below } => size(below),
        WindowTree::Exit { .. } => Some(0),
        WindowTree::Stop => Some(0),
        WindowTree::Trap { .. } => Some(0),
    }
}

/// Whether a window is small enough to be unwound and filled.
pub fn may_be_filled(window: &Window) -> bool
    ensures size { (result ≡ true) → tree_size (tree_in window.now.tree) ≤ 2048 }
    ensures names { (result ≡ true) → length window.now.names.forms ≤ 2 ^ 30 }
    ensures variables { (result ≡ true) → window.now.names.next_variable ≤ 2 ^ 30 }
{
    let Some(size) = size(&window.tree) else {
        return false;
    };
    if size > MOST_SIZE || window.names.forms.len() > 1 << 30 {
        return false;
    }
    window.names.next_variable <= 1 << 30
}

/// Whether a window is so small, and what it names is there in a table.
#[tactic(auto, using(crate::proofs::Unwindable::small_windows))]
pub fn may_be_unwound(
    alloc: Global,
    table: &RegionTable,
    window: &Window,
) -> Result<bool, AllocError>
    ensures { IfOk result (λ may. may ≡ true → CanUnwind (table_of table.now) (window_in window.now)) }
{
    if !may_be_filled(window) {
        return Ok(false);
    }
    parts_are_there(alloc, table, &window.tree)
}
