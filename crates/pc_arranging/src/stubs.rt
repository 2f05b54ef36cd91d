//! A stub, named by the number of its leaf, becomes its region's tree.
ghost use Rattle.std.specs.Prelude.{◌≡◌, ◌≤◌, ◌<◌, ◌+◌, ◌^◌, ◌&&◌, ◌||◌, true, false, length, nat_le, IfOk};
ghost use Rattle.pc_table.specs.StoredTable.{table_of};
ghost use Rattle.pc_table.specs.TableKeeps.{most_region_nodes};
ghost use Rattle.pc_window.specs.Tree.{tree_size};
ghost use Rattle.pc_window.specs.There.{PartsAreThere, StubIsThere};
ghost use Rattle.pc_window.specs.StoredWindow.{tree_in, supply_in, InNodes};
ghost use Rattle.pc_arranging.specs.CanArrange.{most_tag};
ghost use Rattle.pc_arranging.specs.Arranging.{most_names};
ghost use Rattle.pc_window.specs.Opening.{first_new};
ghost use Rattle.pc_arranging.specs.Naming.{entered_at};
ghost use Rattle.pc_arranging.specs.Stubs.{loop_within, may_open, opened_at};
ghost use Rattle.pc_arranging.specs.models.Doing.{made_if, OpensTo};

use crate::naming::{home_count, name_homes};
use crate::numbering::leaf_count;
use pc_table::RegionTable;
use pc_unwind::{homes_by_variable, placed};
use pc_window::{Home, NameTable, VARIABLES, WindowTree, graft};
use std::alloc::{AllocError, Global};

/// The greatest tag of a stub that is opened.
const MOST_OPENED_TAG: u32 = (1 << 30) - 1;

/// The loop as for which tags count in the tree of a region that is opened in a window of a loop, or
/// entered.
fn loop_within(table: &RegionTable, enters: bool, inside: Option<u16>, region: u32) -> Option<u16>
    ensures { result ≡ loop_within (table_of table.now) enters inside region }
{
    if enters {
        return table.innermost_loop(region);
    }
    inside
}

/// Whether a stub may be opened, or entered.
#[tactic(auto, using(crate::proofs::Opened::asking))]
fn may_open(table: &RegionTable, enters: bool, inside: Option<u16>, region: u32, tag: u32) -> bool
    ensures { result ≡ may_open (table_of table.now) enters inside region tag }
{
    if tag > MOST_OPENED_TAG {
        return false;
    }
    if enters {
        return true;
    }
    table.is_inside(region, inside)
}

/// The tree in place of a stub, where it may be opened.
#[tactic(auto, using(crate::proofs::Opened::grafting))]
fn opened(
    alloc: Global,
    table: &RegionTable,
    enters: bool,
    inside: Option<u16>,
    region: u32,
    tag: u32,
    homes: &[Home],
    names: &mut NameTable,
) -> Result<Option<WindowTree>, AllocError>
    requires stub { StubIsThere (table_of table.now) region homes.now }
    requires names { length names.old.forms ≤ most_names + first_new }
    requires variables { names.old.next_variable ≤ most_names + first_new }
    ensures { IfOk result (λ tree. OpensTo (table_of table.now) enters inside region tag homes.now names.old names.new tree) }
{
    if !may_open(table, enters, inside, region, tag) {
        return Ok(None);
    }
    let mut homes = homes_by_variable(homes);
    let loop_of_tags = loop_within(table, enters, inside, region);
    let from = table.tree(region);
    let tree = graft(alloc, table, loop_of_tags, tag, from, names, &mut homes)?;
    Ok(Some(tree))
}

/// Puts the tree of its region in place of the stub with a number among the leaves of a tree, which
/// stands at the root of a node or else below an item or test. Says whether it did.
#[tactic(auto, using(crate::proofs::Opened::opening))]
pub(crate) fn open_at(
    alloc: Global,
    table: &RegionTable,
    enters: bool,
    inside: Option<u16>,
    tree: &mut WindowTree,
    leaf: u32,
    names: &mut NameTable,
    at_root: bool,
) -> Result<bool, AllocError>
    requires nodes { InNodes at_root tree.old }
    requires parts { PartsAreThere (table_of table.now) most_tag (tree_in tree.old) }
    requires small { tree_size (tree_in tree.old) < 2 ^ 30 }
    requires names { length names.old.forms ≤ most_names + first_new }
    requires variables { names.old.next_variable ≤ most_names + first_new }
    ensures opened { IfOk result (λ done. opened_at (table_of table.now) enters inside (supply_in names.old) (tree_in tree.old) leaf
        ≡ made_if done (record { tree = tree_in tree.new; names = supply_in names.new })) }
    ensures nodes { IfOk result (λ done. InNodes at_root tree.new) }
{
    match tree {
        WindowTree::Step { rest, .. } => open_at(
            alloc, table, enters, inside, rest, leaf, names, false,
        ),
        WindowTree::Test { yes, no, .. } => {
            let on_yes = leaf_count(yes);
            if leaf < on_yes {
                return open_at(alloc, table, enters, inside, yes, leaf, names, false);
            }
            let leaf = leaf - on_yes;
            open_at(alloc, table, enters, inside, no, leaf, names, false)
        }
        WindowTree::Node { below } => open_at(
            alloc, table, enters, inside, below, leaf, names, true,
        ),
        WindowTree::Exit { region, tag, homes } => {
            if leaf != 0 {
                return Ok(false);
            }
            let homes = homes.as_slice();
            match opened(alloc, table, enters, inside, *region, *tag, homes, names)? {
                None => Ok(false),
                Some(new) => {
                    *tree = placed(alloc, new, at_root)?;
                    Ok(true)
                }
            }
        }
        WindowTree::Stop => Ok(false),
        WindowTree::Trap { .. } => Ok(false),
    }
}

/// Enters the stub with a number among the leaves: gives its homes names, and puts the tree of its
/// region in its place. Says whether it did.
#[tactic(auto, using(crate::proofs::Entered::entering))]
pub(crate) fn enter_at(
    alloc: Global,
    table: &RegionTable,
    inside: Option<u16>,
    tree: &mut WindowTree,
    leaf: u32,
    names: &mut NameTable,
) -> Result<bool, AllocError>
    requires nodes { InNodes false tree.old }
    requires parts { PartsAreThere (table_of table.now) most_tag (tree_in tree.old) }
    requires small { tree_size (tree_in tree.old) < 2 ^ 29 }
    requires names { length names.old.forms ≤ most_names }
    requires variables { names.old.next_variable ≤ most_names }
    ensures entered { IfOk result (λ done. entered_at (table_of table.now) inside (record { tree = tree_in tree.old; names = supply_in names.old }) leaf
        ≡ made_if done (record { tree = tree_in tree.new; names = supply_in names.new })) }
    ensures nodes { IfOk result (λ done. done ≡ true → InNodes false tree.new) }
{
    let count = home_count(tree, leaf);
    if count > VARIABLES {
        return Ok(false);
    }
    if !name_homes(alloc, tree, names, leaf, 0, count as u32)? {
        return Ok(false);
    }
    open_at(alloc, table, true, inside, tree, leaf, names, false)
}
