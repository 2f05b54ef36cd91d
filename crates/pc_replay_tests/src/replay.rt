//! Windows of small regions, filled at once and by single moves.
ghost use Rattle.std.specs.Prelude.{◌≡◌, ◌<◌, true, length, IfOk};
ghost use Rattle.pc_word.specs.declared.item.Item.TheVariants.{Print};
ghost use Rattle.pc_word.specs.declared.item.Operand.TheVariants.{Lit};
ghost use Rattle.pc_table.specs.Table.{table_tree, table_region, table_regions};
ghost use Rattle.pc_table.specs.StoredTable.{table_of};
ghost use Rattle.pc_window.specs.Steps.{IsProper};
ghost use Rattle.pc_window.specs.StoredWindow.{window_in, IsJustOpened, InNodes};
ghost use Rattle.pc_replay_tests.specs.JumpingTrees.{sum_tree, load_tree, over_print, over_tests, test_over_print, two_sums, region_of, jumping_table};

use crate::comparing::{Compared, NONE_COMPARED, compare};
use crate::tables::{asks, does};
use pc_replay::ReplayError;
use pc_table::{Region, RegionList, RegionTable, RegionTree, VarList};
use pc_window::{Window, WindowError};
use pc_word::{Item, LengthList, Limits, LoopList, OpCode, Operand};
use std::alloc::{AllocError, Global};
use std::test::Fail;

/// What each test of the regions here is on.
const ALWAYS: Operand = Operand::Lit(1);

/// `a = 3 + 1; print(a);`.
fn sum_and_print(alloc: Global) -> Result<RegionTree, AllocError>
    ensures { IfOk result (λ tree. table_tree tree ≡ sum_tree) }
{
    let print = Item::Print {
        value: Operand::Name(1),
    };
    let sum = Item::Bin {
        op: OpCode::Add,
        dest: 1,
        left: Operand::Lit(3),
        right: Operand::Lit(1),
    };
    let tree = does(alloc, 4, print, RegionTree::Stop)?;
    does(alloc, 3, sum, tree)
}

/// The print of a number.
fn print(value: i32) -> Item
    ensures { result ≡ Print (Lit value) }
{
    Item::Print {
        value: Operand::Lit(value),
    }
}

/// `print(1); print(2); a = 3 + 1; print(a);`.
fn sum_below_print(alloc: Global) -> Result<RegionTree, AllocError>
    ensures { IfOk result (λ tree. table_tree tree ≡ over_print) }
{
    let tree = sum_and_print(alloc)?;
    let tree = does(alloc, 1, print(2), tree)?;
    does(alloc, 0, print(1), tree)
}

/// `t[0] = 7; a = t[1]; print(a);`.
fn load_and_print(alloc: Global) -> Result<RegionTree, AllocError>
    ensures { IfOk result (λ tree. table_tree tree ≡ load_tree) }
{
    let store = Item::Store {
        array: 0,
        index: Operand::Lit(0),
        value: Operand::Lit(7),
    };
    let load = Item::Load {
        dest: 1,
        array: 0,
        index: Operand::Lit(1),
    };
    let print = Item::Print {
        value: Operand::Name(1),
    };
    let tree = does(alloc, 5, print, RegionTree::Stop)?;
    let tree = does(alloc, 4, load, tree)?;
    does(alloc, 3, store, tree)
}

/// `if (1) if (1) if (1) { t[0] = 7; a = t[1]; print(a); }`.
fn load_below_tests(alloc: Global) -> Result<RegionTree, AllocError>
    ensures { IfOk result (λ tree. table_tree tree ≡ over_tests) }
{
    let tree = load_and_print(alloc)?;
    let tree = asks(alloc, 2, ALWAYS, tree, RegionTree::Stop)?;
    let tree = asks(alloc, 1, ALWAYS, tree, RegionTree::Stop)?;
    asks(alloc, 0, ALWAYS, tree, RegionTree::Stop)
}

/// `print(1); print(2); if (1) { a = 3 + 1; print(a); }`.
fn test_below_print(alloc: Global) -> Result<RegionTree, AllocError>
    ensures { IfOk result (λ tree. table_tree tree ≡ test_over_print) }
{
    let tree = sum_and_print(alloc)?;
    let tree = asks(alloc, 2, ALWAYS, tree, RegionTree::Stop)?;
    let tree = does(alloc, 1, print(2), tree)?;
    does(alloc, 0, print(1), tree)
}

/// `if (1) { print(2); a = 3 + 1; print(a); } else { a = 3 + 1; print(a); }`, where both sums are of
/// one node.
fn sums_on_both_sides(alloc: Global) -> Result<RegionTree, AllocError>
    ensures { IfOk result (λ tree. table_tree tree ≡ two_sums) }
{
    let yes = sum_and_print(alloc)?;
    let yes = does(alloc, 5, print(2), yes)?;
    let no = sum_and_print(alloc)?;
    asks(alloc, 0, ALWAYS, yes, no)
}

/// A region in no loop, at whose head nothing is live.
fn region(alloc: Global, tree: RegionTree) -> Region
    ensures { table_region result ≡ region_of (table_tree tree) }
{
    Region {
        head: 0,
        tree,
        live: VarList::new(alloc),
        inside: None,
        heads: None,
    }
}

/// The four, each as a region.
fn four_regions(alloc: Global) -> Result<RegionList, AllocError>
    ensures { IfOk result (λ regions. table_regions regions ≡ jumping_table.regions) }
{
    let mut regions = RegionList::new(alloc);
    let tree = sum_below_print(alloc)?;
    regions.push(region(alloc, tree))?;
    let tree = load_below_tests(alloc)?;
    regions.push(region(alloc, tree))?;
    let tree = test_below_print(alloc)?;
    regions.push(region(alloc, tree))?;
    let tree = sums_on_both_sides(alloc)?;
    regions.push(region(alloc, tree))?;
    Ok(regions)
}

/// The table of the four.
#[tactic(auto, using(crate::proofs::JumpingTreesKept::jumping))]
fn four_region_table(alloc: Global) -> Result<RegionTable, AllocError>
    ensures { IfOk result (λ table. table_of table ≡ jumping_table) }
{
    let regions = four_regions(alloc)?;
    let mut arrays = LengthList::new(alloc);
    arrays.push(4)?;
    Ok(RegionTable {
        regions,
        loops: LoopList::new(alloc),
        arrays,
    })
}

/// The window of a region. Its front has room for one test.
fn opened(alloc: Global, table: &RegionTable, region: u32) -> Result<Window, WindowError>
    requires { region < length table.now.regions }
    ensures proper { IfOk result (λ window. IsProper (window_in window)) }
    ensures small { IfOk result (λ window. IsJustOpened window) }
    ensures nodes { IfOk result (λ window. InNodes true window.tree) }
{
    let limits = Limits {
        ops: 8,
        tests: 1,
        mem: 1,
    };
    Window::of_region(alloc, table, region, limits)
}

/// The same of a region's window.
#[tactic(auto, using(pc_fill::proofs::Opened::opened_windows))]
fn compare_region(
    alloc: Global,
    table: &RegionTable,
    region: u32,
    all: &mut Compared,
) -> Result<(), ReplayError>
    requires { region < length table.now.regions }
{
    let window = opened(alloc, table, region)?;
    compare(alloc, window, all)?;
    Ok(())
}

/// Whether each of the regions is changed by filling, and so by single moves.
fn are_replayed(alloc: Global) -> Result<bool, ReplayError> {
    let table = four_region_table(alloc)?;
    let mut all = NONE_COMPARED;
    for region in 0..table.regions.len() {
        compare_region(alloc, &table, region as u32, &mut all)?;
    }
    Ok(all.alike && all.changed == 4)
}

#[test]
fn filling_comes_about_by_single_moves(rt: HostRuntime) -> Result<(), Fail> {
    assert!(rt; are_replayed(rt.alloc())?);
    Ok(())
}
