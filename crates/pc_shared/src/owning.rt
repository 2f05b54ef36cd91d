//! A shared node, copied for one of the nodes that name it.
ghost use Rattle.std.specs.Prelude.{◌≡◌, ℕ, IsSome, Some, IfOk};
ghost use Rattle.pc_arena.specs.Held.{value_at};
ghost use Rattle.pc_shared.specs.Links.{link_of};
ghost use Rattle.pc_shared.specs.Unfolding.{Stands, KeepsTrees};
ghost use Rattle.pc_shared.specs.Owning.{Owns};
ghost use Rattle.pc_shared.specs.Places.{places_of};

use crate::store::Store;
use pc_arena::NodeId;
use pc_word::OutOfMemory;

/// Copies the node that a node names on a side; the node names the copy then. No tree changes. The copy is seen
/// where the node that names it is, and nowhere else.
pub(crate) fn own_link(
    store: &mut Store,
    parent: NodeId,
    side: bool,
    most: u32,
) -> Result<NodeId, OutOfMemory>
    requires stands { Stands most store.old parent }
    requires linked { IsSome (link_of (value_at store.old.nodes parent) side) }
    ensures owns { IfOk result (λ copy. (child : ℕ) → link_of (value_at store.old.nodes parent) side ≡ Some child
        → Owns store.old store.new parent side child copy) }
    ensures alone { IfOk result (λ copy. (deep id : ℕ) → Stands deep store.old id → places_of deep store.new copy id ≡ places_of deep store.old parent id) }
    ensures keeps { KeepsTrees store.old store.new }
{
    store.nodes.reserve(1)?;
    let node = *store.nodes.get(parent);
    let child = node.link(side).unwrap();
    let found = *store.nodes.get(child);
    let copy = store.nodes.put(found);
    let renewed = node.relinked(side, copy);
    let _before = store.nodes.replace(parent, renewed);
    Ok(copy)
}
