//! Windows whose items and tests are nodes of their own.
ghost use Rattle.std.specs.Prelude.{◌≡◌, true, false, IfOk};
ghost use Rattle.pc_window.specs.StoredWindow.{tree_in, InNodes};

use pc_window::{WindowTree, in_node, is_leaf};
use std::alloc::{AllocError, Global};

/// Whether each item and each test of a tree is in a node of its own already.
fn is_split(tree: &WindowTree, at_root: bool) -> bool
    ensures { (result ≡ true) → InNodes at_root tree.now }
{
    match tree {
        WindowTree::Step { rest, .. } => at_root && is_split(rest, false),
        WindowTree::Test { yes, no, .. } => at_root && is_split(yes, false) && is_split(no, false),
        WindowTree::Node { below } => !at_root && is_split(below, true),
        WindowTree::Exit { .. } => true,
        WindowTree::Stop => true,
        WindowTree::Trap { .. } => true,
    }
}

/// The tree with each item and each test in a node of its own; the tree itself where it is so already.
pub fn split(alloc: Global, tree: WindowTree) -> Result<WindowTree, AllocError>
    ensures tree { IfOk result (λ single. tree_in single ≡ tree_in tree) }
    ensures nodes { IfOk result (λ single. InNodes true single) }
{
    if is_split(&tree, true) {
        return Ok(tree);
    }
    in_single_nodes(alloc, tree)
}

/// The tree with each item and each test in a node of its own.
fn in_single_nodes(alloc: Global, tree: WindowTree) -> Result<WindowTree, AllocError>
    ensures tree { IfOk result (λ single. tree_in single ≡ tree_in tree) }
    ensures nodes { IfOk result (λ single. InNodes true single) }
{
    match tree {
        WindowTree::Step {
            tag,
            origin,
            item,
            rest,
        } => {
            let rest = in_single_nodes(alloc, Box::into_inner(rest))?;
            let rest = in_node(alloc, rest)?;
            Ok(WindowTree::Step {
                tag,
                origin,
                item,
                rest,
            })
        }
        WindowTree::Test {
            tag,
            origin,
            on,
            yes,
            no,
        } => {
            let yes = in_single_nodes(alloc, Box::into_inner(yes))?;
            let no = in_single_nodes(alloc, Box::into_inner(no))?;
            let yes = in_node(alloc, yes)?;
            let no = in_node(alloc, no)?;
            Ok(WindowTree::Test {
                tag,
                origin,
                on,
                yes,
                no,
            })
        }
        WindowTree::Node { below } => in_single_nodes(alloc, Box::into_inner(below)),
        WindowTree::Exit { region, tag, homes } => Ok(WindowTree::Exit { region, tag, homes }),
        WindowTree::Stop => Ok(WindowTree::Stop),
        WindowTree::Trap { kind, line } => Ok(WindowTree::Trap { kind, line }),
    }
}

/// A tree as what stands at the root of a node, or else below an item or test: there in a node of
/// its own, where it has an item or test.
#[tactic(auto, using(pc_window::proofs::GraftsStored::nodes))]
pub fn placed(alloc: Global, tree: WindowTree, at_root: bool) -> Result<WindowTree, AllocError>
    requires { InNodes true tree }
    ensures tree { IfOk result (λ placed. tree_in placed ≡ tree_in tree) }
    ensures nodes { IfOk result (λ placed. InNodes at_root placed) }
{
    if at_root {
        return Ok(tree);
    }
    if is_leaf(&tree) {
        return Ok(tree);
    }
    let below = Box::new(alloc, tree)?;
    Ok(WindowTree::Node { below })
}
