//! How much a region's tree brings into a window.
ghost use Rattle.std.specs.Prelude.{◌≡◌, ◌≤◌};
ghost use Rattle.pc_table.specs.Table.{table_tree};
ghost use Rattle.pc_table.specs.TableKeeps.{units, most_region_nodes};
ghost use Rattle.pc_unwind.specs.models.Walking.{brought_size};

use pc_table::RegionTree;
use pc_word::Item;

/// How many items and tests a region's tree brings into a window. A copy brings none.
pub(crate) fn brought_size(tree: &RegionTree) -> u32
    requires { units (table_tree tree.now) ≤ most_region_nodes }
    ensures brought { result ≡ brought_size (table_tree tree.now) }
    ensures few { result ≤ units (table_tree tree.now) }
{
    match tree {
        RegionTree::Step { item, next, .. } => match item {
            Item::Copy { .. } => brought_size(next),
            _ => 1 + brought_size(next),
        },
        RegionTree::Test { yes, no, .. } => 1 + brought_size(yes) + brought_size(no),
        RegionTree::Next { .. } => 0,
        RegionTree::Stop => 0,
        RegionTree::Trap { .. } => 0,
    }
}
