//! Nodes of one item or test.
ghost use Rattle.std.specs.Prelude.{◌≡◌, true, false, IfOk};
ghost use Rattle.pc_window.specs.StoredWindow.{tree_in, is_leaf, InNodes};

use crate::tree::WindowTree;
use std::alloc::{AllocError, Global};

/// A tree as what stands below an item or test: in a node of its own, where it has an item or test.
#[tactic(auto, using(crate::proofs::GraftsStored::nodes))]
pub fn in_node(alloc: Global, tree: WindowTree) -> Result<Box<WindowTree>, AllocError>
    ensures tree { IfOk result (λ below. tree_in below.value ≡ tree_in tree) }
    ensures nodes { IfOk result (λ below. InNodes true tree → InNodes false below.value) }
{
    if !is_leaf(&tree) {
        let below = Box::new(alloc, tree)?;
        let node = Box::new(alloc, WindowTree::Node { below })?;
        return Ok(node);
    }
    let leaf = Box::new(alloc, tree)?;
    Ok(leaf)
}

/// Whether a tree has neither item nor test.
pub fn is_leaf(tree: &WindowTree) -> bool
    ensures { result ≡ is_leaf tree.now }
{
    match tree {
        WindowTree::Step { .. } => false,
        WindowTree::Test { .. } => false,
        WindowTree::Node { .. } => true,
        WindowTree::Exit { .. } => true,
        WindowTree::Stop => true,
        WindowTree::Trap { .. } => true,
    }
}
