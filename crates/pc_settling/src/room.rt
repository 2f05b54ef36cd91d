//! Whether a window may be unwound.
ghost use Rattle.std.specs.Prelude.{◌≡◌, ◌&&◌, nat_lt, length};
ghost use Rattle.pc_table.specs.Table.{region_live};
ghost use Rattle.pc_table.specs.StoredTable.{table_of};
ghost use Rattle.pc_window.specs.StoredWindow.{tree_in, window_in};
ghost use Rattle.pc_settling.specs.Begun.{has_array, are_homes_of, parts_fit, has_room};

use pc_table::RegionTable;
use pc_window::{Home, Window, WindowTree};

/// The greatest number of names, form variables and tags that a window may have before it is unwound.
const MOST_NUMBER: u32 = 1 << 29;

/// Whether an item's array, if it has one, is there.
fn has_array(table: &RegionTable, array: Option<u8>) -> bool
    ensures { result ≡ has_array (table_of table.now) array }
{
    match array {
        None => true,
        Some(array) => (array as usize) < table.arrays.len(),
    }
}

/// Whether homes are of these variables, in their order.
#[tactic(auto, using(crate::proofs::HomeLists::homes))]
fn are_homes_of(variables: &[u32], homes: &[Home]) -> bool
    ensures { result ≡ are_homes_of variables.now homes.now }
{
    if variables.len() != homes.len() {
        return false;
    }
    for at in 0..homes.len() {
        if homes[at].variable != variables[at] {
            return false;
        }
    }
    true
}

/// Whether a stub leads to a region of the table, with a home for each variable that is live at its head.
fn stub_fits(table: &RegionTable, region: u32, homes: &[Home]) -> bool
    ensures { result ≡ (nat_lt region (length table.now.regions) && are_homes_of (region_live (table_of table.now) region) homes.now) }
{
    if region as usize >= table.regions.len() {
        return false;
    }
    are_homes_of(table.live(region).as_slice(), homes)
}

/// Whether what a tree names is there in a table, and no tag is too great.
fn parts_fit(table: &RegionTable, tree: &WindowTree) -> bool
    ensures { result ≡ parts_fit (table_of table.now) (tree_in tree.now) }
{
    match tree {
        WindowTree::Step {
            tag,
            item,
            rest,
            ..
        } => *tag <= MOST_NUMBER && has_array(table, item.array()) && parts_fit(table, rest),
        WindowTree::Test { tag, yes, no, .. } => {
            *tag <= MOST_NUMBER && parts_fit(table, yes) && parts_fit(table, no)
        }
        WindowTree::Node { below } => parts_fit(table, below),
        WindowTree::Exit { region, tag, homes } => {
            *tag <= MOST_NUMBER && stub_fits(table, *region, homes.as_slice())
        }
        WindowTree::Stop => true,
        WindowTree::Trap { .. } => true,
    }
}

/// Whether a window may be unwound: there is room for names and form variables, what its tree names is
/// there, and no tag is too great.
#[tactic(auto, using(crate::proofs::Rooms::rooms))]
pub(crate) fn has_room(table: &RegionTable, window: &Window) -> bool
    ensures { result ≡ has_room (table_of table.now) (window_in window.now) }
{
    window.names.forms.len() <= MOST_NUMBER as usize
        && window.names.next_variable <= MOST_NUMBER
        && parts_fit(table, &window.tree)
}
