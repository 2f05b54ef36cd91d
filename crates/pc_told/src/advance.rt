//! How many iterations a leaf goes on.
ghost use Rattle.std.specs.Prelude.{◌≡◌};
ghost use Rattle.pc_table.specs.StoredTable.{table_of};
ghost use Rattle.pc_window.specs.StoredWindow.{tree_in};
ghost use Rattle.pc_told.specs.Tellings.{advance_behind, advance_at_root};

use pc_table::RegionTable;
use pc_window::WindowTree;

/// By how many iterations what stands behind a leaf begins after this one, where the front has an item or test.
pub(crate) fn advance_behind(
    table: &RegionTable,
    inside: Option<u16>,
    first: u32,
    tree: &WindowTree,
) -> Option<u32>
    ensures { result ≡ advance_behind (table_of table.now) inside first (tree_in tree.now) }
{
    match tree {
        WindowTree::Step { .. } | WindowTree::Test { .. } => {
            Some(tree.front_tag().saturating_sub(first))
        }
        WindowTree::Node { below } => advance_behind(table, inside, first, below),
        WindowTree::Exit { region, tag, .. } => {
            if !table.is_inside(*region, inside) {
                return None;
            }
            Some(tag.saturating_sub(first))
        }
        WindowTree::Stop | WindowTree::Trap { .. } => None,
    }
}

/// The same where the front has neither item nor test.
pub(crate) fn advance_at_root(
    table: &RegionTable,
    inside: Option<u16>,
    first: u32,
    tree: &WindowTree,
) -> Option<u32>
    ensures { result ≡ advance_at_root (table_of table.now) inside first (tree_in tree.now) }
{
    match tree {
        WindowTree::Exit { .. } => None,
        WindowTree::Node { below } => advance_at_root(table, inside, first, below),
        WindowTree::Step { .. }
        | WindowTree::Test { .. }
        | WindowTree::Stop
        | WindowTree::Trap { .. } => advance_behind(table, inside, first, tree),
    }
}
