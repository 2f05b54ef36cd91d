//! Whether what a window names is there in its table.
ghost use Rattle.std.specs.Prelude.{◌≡◌, ◌^◌, true, map, IfOk};
ghost use Rattle.pc_table.specs.StoredTable.{table_of};
ghost use Rattle.pc_window.specs.There.{ArrayIsThere, PartsAreThere, StubIsThere};
ghost use Rattle.pc_window.specs.StoredWindow.{tree_in};

use pc_table::{RegionTable, VarList};
use pc_window::{Home, WindowTree};
use pc_word::Item;
use std::alloc::{AllocError, Global};

/// No tag of a window is above it.
const MOST_TAG: u32 = 1 << 30;

/// Whether the array of an item is there.
fn array_is_there(table: &RegionTable, item: Item) -> bool
    ensures { (result ≡ true) → ArrayIsThere (table_of table.now) item }
{
    match item {
        Item::Load { array, .. } => (array as usize) < table.arrays.len(),
        Item::Store { array, .. } => (array as usize) < table.arrays.len(),
        Item::Bin { .. } => true,
        Item::Copy { .. } => true,
        Item::Print { .. } => true,
        Item::Read { .. } => true,
        Item::More { .. } => true,
    }
}

/// The variables that have these homes.
fn variables_of(alloc: Global, homes: &[Home]) -> Result<VarList, AllocError>
    ensures { IfOk result (λ variables. variables ≡ map (λ home. home.variable) homes.now) }
{
    let mut variables = VarList::new(alloc);
    for home in homes {
        variables.push(home.variable)?;
    }
    Ok(variables)
}

/// Whether two lists of variables are the same.
fn are_same(some: &[u32], others: &[u32]) -> bool
    ensures { (result ≡ true) → some.now ≡ others.now }
{
    some == others
}

/// Whether the region of a stub is there, and its homes are those of the variables that are live at
/// the region's head.
#[tactic(auto, using(crate::proofs::NamedThere::stubs))]
fn stub_is_there(
    alloc: Global,
    table: &RegionTable,
    region: u32,
    homes: &[Home],
) -> Result<bool, AllocError>
    ensures { IfOk result (λ there. there ≡ true → StubIsThere (table_of table.now) region homes.now) }
{
    let variables = variables_of(alloc, homes)?;
    if region as usize >= table.regions.len() {
        return Ok(false);
    }
    Ok(are_same(variables.as_slice(), table.live(region).as_slice()))
}

/// Whether what a tree names is there, and its tags are low.
pub(crate) fn parts_are_there(
    alloc: Global,
    table: &RegionTable,
    tree: &WindowTree,
) -> Result<bool, AllocError>
    ensures { IfOk result (λ there. there ≡ true → PartsAreThere (table_of table.now) (2 ^ 30) (tree_in tree.now)) }
{
    match tree {
        WindowTree::Step {
            tag,
            item,
            rest,
            ..
        } => {
            if *tag > MOST_TAG || !array_is_there(table, *item) {
                return Ok(false);
            }
            parts_are_there(alloc, table, rest)
        }
        WindowTree::Test { tag, yes, no, .. } => {
            if *tag > MOST_TAG || !parts_are_there(alloc, table, yes)? {
                return Ok(false);
            }
            parts_are_there(alloc, table, no)
        }
        WindowTree::Node { below } => parts_are_there(alloc, table, below),
        WindowTree::Exit { region, tag, homes } => {
            if *tag > MOST_TAG {
                return Ok(false);
            }
            stub_is_there(alloc, table, *region, homes.as_slice())
        }
        WindowTree::Stop => Ok(true),
        WindowTree::Trap { .. } => Ok(true),
    }
}
