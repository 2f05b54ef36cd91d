//! One walk of a tree, which unwinds all stubs of one tag.
ghost use Rattle.std.specs.Prelude.{◌≤◌, ◌<◌, ◌^◌, OnOk, IfOk};
ghost use Rattle.pc_table.specs.StoredTable.{table_of};
ghost use Rattle.pc_window.specs.Tree.{tree_size};
ghost use Rattle.pc_window.specs.StoredWindow.{tree_in, InNodes};
ghost use Rattle.pc_unwind.specs.models.Named.{StubsAreThere};
ghost use Rattle.pc_unwind.specs.models.Walking.{HasRoom, Walks};

use crate::growth::Growth;
use crate::replacing::replace_stub;
use pc_table::RegionTable;
use pc_window::WindowTree;
use std::alloc::{AllocError, Global};

/// Unwinds all stubs of a tree that are inside the loop and have this tag, and in turn those of the
/// trees in their place, in preorder. Says whether it stopped since the window would be too large.
#[tactic(auto, using(crate::proofs::Walks::walks))]
pub(crate) fn walk(
    alloc: Global,
    table: &RegionTable,
    inside: Option<u16>,
    tag: u32,
    growth: &mut Growth,
    tree: &mut WindowTree,
    at_root: bool,
) -> Result<bool, AllocError>
    requires tag { tag < 2 ^ 31 }
    requires nodes { InNodes at_root tree.old }
    requires stubs { StubsAreThere (table_of table.now) (tree_in tree.old) }
    requires room { HasRoom growth.old }
    requires part { tree_size (tree_in tree.old) ≤ growth.old.size }
    ensures walks { IfOk result (λ full. Walks (table_of table.now) inside tag (tree_in tree.old) growth.old (tree_in tree.new) growth.new full) }
    ensures nodes { OnOk result (InNodes at_root tree.new) }
    ensures stubs { OnOk result (StubsAreThere (table_of table.now) (tree_in tree.new)) }
    ensures room { OnOk result (HasRoom growth.new) }
    ensures more { OnOk result (growth.old.size ≤ growth.new.size) }
{
    match tree {
        WindowTree::Step { rest, .. } => walk(alloc, table, inside, tag, growth, rest, false),
        WindowTree::Test { yes, no, .. } => {
            let full = walk(alloc, table, inside, tag, growth, yes, false)?;
            if full {
                return Ok(true);
            }
            walk(alloc, table, inside, tag, growth, no, false)
        }
        WindowTree::Node { below } => walk(alloc, table, inside, tag, growth, below, true),
        WindowTree::Exit {
            region,
            tag: at,
            ..
        } => {
            if *at != tag {
                return Ok(false);
            }
            if !table.is_inside(*region, inside) {
                return Ok(false);
            }
            let replaced = replace_stub(alloc, table, inside, growth, tree, at_root)?;
            if !replaced {
                return Ok(true);
            }
            walk(alloc, table, inside, tag, growth, tree, at_root)
        }
        WindowTree::Stop => Ok(false),
        WindowTree::Trap { .. } => Ok(false),
    }
}
