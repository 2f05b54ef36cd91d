//! Trees brought into a store, equal nodes once.
ghost use Rattle.std.specs.Prelude.{◌≡◌, Some, true, IfSome, IfOk};
ghost use Rattle.pc_arena.specs.Held.{value_at};
ghost use Rattle.pc_shared.specs.NodeTree.{nodes_in, count_places};
ghost use Rattle.pc_shared.specs.Unfolding.{Extends, Becomes, Stands, tree_at};

use crate::digest::{homes_digest, node_digest};
use crate::node::SharedNode;
use crate::store::Store;
use indexmap::IndexMap;
use pc_arena::{Arena, NodeId};
use pc_window::{Home, HomeList, WindowTree};
use pc_word::OutOfMemory;
use std::alloc::Global;

/// A store to which trees are added.
#[derive(Drop)]
struct Keeper {
    store: Store,
    /// Where a node with a digest was put last. It is looked at again, so that nothing rests on it.
    known_nodes: IndexMap<u64, NodeId>,
    /// Where homes with a digest were put last, which are looked at again too.
    known_homes: IndexMap<u64, NodeId>,
}

/// Whether homes are the same.
fn are_same(homes: &[Home], others: &[Home]) -> bool
    ensures { result ≡ true → homes.now ≡ others.now }
{
    homes == others
}

/// The number of a node, where it was told.
fn known_node(
    store: &Store,
    known: &IndexMap<u64, NodeId>,
    digest: u64,
    node: &SharedNode,
) -> Option<NodeId>
    ensures { IfSome result (λ id. value_at store.now.nodes id ≡ Some node.now) }
{
    let id = match known.get(&digest) {
        Some(id) => *id,
        None => return None,
    };
    if !store.nodes.holds(id) {
        return None;
    }
    if *store.nodes.get(id) == *node {
        Some(id)
    } else {
        None
    }
}

/// The number of homes, where it was told.
fn known_homes(
    store: &Store,
    known: &IndexMap<u64, NodeId>,
    digest: u64,
    homes: &HomeList,
) -> Option<NodeId>
    ensures { IfSome result (λ id. value_at store.now.homes id ≡ Some homes.now) }
{
    let id = match known.get(&digest) {
        Some(id) => *id,
        None => return None,
    };
    if !store.homes.holds(id) {
        return None;
    }
    if are_same(store.homes.get(id).as_slice(), homes.as_slice()) {
        Some(id)
    } else {
        None
    }
}

impl Keeper {
    /// A keeper of an empty store. It takes no memory.
    fn new(alloc: Global) -> Keeper {
        Keeper {
            store: Store {
                nodes: Arena::new(alloc),
                homes: Arena::new(alloc),
            },
            known_nodes: IndexMap::new(alloc),
            known_homes: IndexMap::new(alloc),
        }
    }

    /// The store.
    fn into_store(self) -> Store
        ensures { result ≡ self.store }
    {
        self.store
    }

    /// The number of a node, which is kept now if it was not.
    #[tactic(auto, using(crate::proofs::Growing::growing))]
    fn keep_node(&mut self, node: SharedNode) -> Result<NodeId, OutOfMemory>
        ensures kept { IfOk result (λ id. value_at self.new.store.nodes id ≡ Some node) }
        ensures extends { Extends self.old.store self.new.store }
    {
        let digest = node_digest(&node);
        if let Some(id) = known_node(&self.store, &self.known_nodes, digest, &node) {
            return Ok(id);
        }
        self.store.nodes.reserve(1)?;
        let id = self.store.nodes.put(node);
        self.known_nodes.insert(digest, id)?;
        Ok(id)
    }

    /// The number of homes, which are kept now if they were not.
    #[tactic(auto, using(crate::proofs::Growing::growing))]
    fn keep_homes(&mut self, alloc: Global, homes: &HomeList) -> Result<NodeId, OutOfMemory>
        ensures kept { IfOk result (λ id. value_at self.new.store.homes id ≡ Some homes.now) }
        ensures extends { Extends self.old.store self.new.store }
    {
        let digest = homes_digest(homes.as_slice());
        if let Some(id) = known_homes(&self.store, &self.known_homes, digest, homes) {
            return Ok(id);
        }
        let copied = HomeList::from_slice(alloc, homes.as_slice())?;
        self.store.homes.reserve(1)?;
        let id = self.store.homes.put(copied);
        self.known_homes.insert(digest, id)?;
        Ok(id)
    }

    /// Keeps a tree. Nodes that are there already are not kept again.
    #[tactic(auto, using(crate::proofs::Kept::kept))]
    fn keep(&mut self, alloc: Global, tree: &WindowTree) -> Result<NodeId, OutOfMemory>
        ensures { IfOk result (λ id. Becomes self.old.store self.new.store (count_places (nodes_in tree.now)) id (nodes_in tree.now)) }
    {
        match tree {
            WindowTree::Step {
                tag,
                origin,
                item,
                rest,
            } => {
                let rest = self.keep(alloc, rest)?;
                let id = self.keep_node(SharedNode::Step {
                    tag: *tag,
                    origin: *origin,
                    item: *item,
                    rest,
                })?;
                Ok(id)
            }
            WindowTree::Test {
                tag,
                origin,
                on,
                yes,
                no,
            } => {
                let yes = self.keep(alloc, yes)?;
                let no = self.keep(alloc, no)?;
                let id = self.keep_node(SharedNode::Test {
                    tag: *tag,
                    origin: *origin,
                    on: *on,
                    yes,
                    no,
                })?;
                Ok(id)
            }
            WindowTree::Node { below } => {
                let below = self.keep(alloc, below)?;
                let id = self.keep_node(SharedNode::Node { below })?;
                Ok(id)
            }
            WindowTree::Exit { region, tag, homes } => {
                let homes = self.keep_homes(alloc, homes)?;
                let id = self.keep_node(SharedNode::Exit {
                    region: *region,
                    tag: *tag,
                    homes,
                })?;
                Ok(id)
            }
            WindowTree::Stop => {
                let id = self.keep_node(SharedNode::Stop)?;
                Ok(id)
            }
            WindowTree::Trap { kind, line } => {
                let id = self.keep_node(SharedNode::Trap {
                    kind: *kind,
                    line: *line,
                })?;
                Ok(id)
            }
        }
    }
}

/// A store of a tree of so many places alone, and the number that the tree has there.
pub(crate) fn kept_tree(
    alloc: Global,
    tree: &WindowTree,
    places: u32,
) -> Result<(Store, NodeId), OutOfMemory>
    requires { places ≡ count_places (nodes_in tree.now) }
    ensures stands { IfOk result (λ kept. Stands places kept.0 kept.1) }
    ensures tree { IfOk result (λ kept. tree_at places kept.0 kept.1 ≡ nodes_in tree.now) }
{
    let mut keeper = Keeper::new(alloc);
    let root = keeper.keep(alloc, tree)?;
    Ok((keeper.into_store(), root))
}
