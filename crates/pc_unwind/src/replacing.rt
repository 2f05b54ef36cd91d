//! One stub, unwound.
ghost use Rattle.std.specs.Prelude.{◌≡◌, ◌<◌, ◌^◌, true, IfOk};
ghost use Rattle.pc_table.specs.StoredTable.{table_of};
ghost use Rattle.pc_window.specs.There.{StubIsThere};
ghost use Rattle.pc_window.specs.StoredWindow.{tree_in};
ghost use Rattle.pc_unwind.specs.models.Named.{TagsAtMost, StubsAreThere};
ghost use Rattle.pc_unwind.specs.models.Walking.{HasRoom, MayReplace, MayReplaceStub, most_stub_tag, is_stub};

use crate::growth::Growth;
use crate::nodes::placed;
use crate::regions::brought_size;
use pc_table::RegionTable;
use pc_window::{Home, WindowTree};
use std::alloc::{AllocError, Global};

/// The items and tests that a window may have after unwinding.
const MOST_UNWOUND: u32 = 2048;

/// Puts the tree of its region in place of a stub, which stands at the root of a node or else below an
/// item or test. Says whether it did: the stub stays where the window would be too large.
pub(crate) fn replace_stub(
    alloc: Global,
    table: &RegionTable,
    inside: Option<u16>,
    growth: &mut Growth,
    tree: &mut WindowTree,
    at_root: bool,
) -> Result<bool, AllocError>
    requires stub { is_stub tree.old ≡ true }
    requires there { StubsAreThere (table_of table.now) (tree_in tree.old) }
    requires tag { TagsAtMost most_stub_tag (tree_in tree.old) }
    requires room { HasRoom growth.old }
    ensures { IfOk result (λ replaced. MayReplaceStub (table_of table.now) inside at_root tree.old growth.old tree.new growth.new replaced) }
{
    match tree {
        WindowTree::Exit { region, tag, homes } => {
            match replacement(
                alloc,
                table,
                inside,
                *tag,
                growth,
                *region,
                homes.as_slice(),
            )? {
                Some(new) => {
                    *tree = placed(alloc, new, at_root)?;
                    Ok(true)
                }
                None => Ok(false),
            }
        }
        WindowTree::Step { .. } | WindowTree::Test { .. } | WindowTree::Node { .. } =>
            unreachable!(),
        WindowTree::Stop | WindowTree::Trap { .. } => unreachable!(),
    }
}

/// The tree in place of a stub: that of its region, with homes in place of variables. `None` where
/// the window would be too large with it.
#[tactic(auto, using(crate::proofs::TableRegions::regions))]
fn replacement(
    alloc: Global,
    table: &RegionTable,
    inside: Option<u16>,
    tag: u32,
    growth: &mut Growth,
    region: u32,
    homes: &[Home],
) -> Result<Option<WindowTree>, AllocError>
    requires stub { StubIsThere (table_of table.now) region homes.now }
    requires tag { tag < 2 ^ 31 }
    requires room { HasRoom growth.old }
    ensures { IfOk result (λ tree. MayReplace (table_of table.now) inside tag region homes.now growth.old growth.new tree) }
{
    let from = table.tree(region);
    let more = brought_size(from);
    if growth.size + more > MOST_UNWOUND {
        return Ok(None);
    }
    let names = &mut growth.names;
    let tree = growth
        .homes
        .graft(alloc, table, inside, tag, from, names, homes)?;
    growth.size += more;
    Ok(Some(tree))
}
