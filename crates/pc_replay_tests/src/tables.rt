//! Trees of regions, put together.
ghost use Rattle.std.specs.Prelude.{◌≡◌, IfOk};
ghost use Rattle.pc_table.specs.Table.{table_tree, Does, Asks};

use pc_table::RegionTree;
use pc_word::{Item, Operand};
use std::alloc::{AllocError, Global};

/// An item above a tree.
pub(crate) fn does(
    alloc: Global,
    origin: u32,
    item: Item,
    below: RegionTree,
) -> Result<RegionTree, AllocError>
    ensures { IfOk result (λ tree. table_tree tree ≡ Does origin item (table_tree below)) }
{
    let next = Box::new(alloc, below)?;
    Ok(RegionTree::Step { origin, item, next })
}

/// A test above two trees.
pub(crate) fn asks(
    alloc: Global,
    origin: u32,
    on: Operand,
    yes: RegionTree,
    no: RegionTree,
) -> Result<RegionTree, AllocError>
    ensures { IfOk result (λ tree. table_tree tree ≡ Asks origin on (table_tree yes) (table_tree no)) }
{
    let yes = Box::new(alloc, yes)?;
    let no = Box::new(alloc, no)?;
    Ok(RegionTree::Test {
        origin,
        on,
        yes,
        no,
    })
}
