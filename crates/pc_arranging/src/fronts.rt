//! Windows with nothing in front.
ghost use Rattle.std.specs.Prelude.{◌≡◌, false, IfOk};
ghost use Rattle.pc_window.specs.StoredWindow.{tree_in, window_in, InNodes, NodesBehind};
ghost use Rattle.pc_arranging.specs.Arranging.{begun};

use pc_unwind::split;
use pc_window::{Window, WindowTree, in_node};
use pc_word::Limits;
use std::alloc::{AllocError, Global};

/// The tree with nothing in its front: each item and each test is a node of its own, below a root that
/// has none.
pub(crate) fn unfinished(alloc: Global, tree: WindowTree) -> Result<WindowTree, AllocError>
    ensures tree { IfOk result (λ it. tree_in it ≡ tree_in tree) }
    ensures nodes { IfOk result (λ it. InNodes false it) }
{
    let single = split(alloc, tree)?;
    let below = in_node(alloc, single)?;
    Ok(Box::into_inner(below))
}

/// The window in which steps begin: nothing is in its front, whose limits are as wide as can be.
#[tactic(auto, using(crate::proofs::Begun::beginning))]
pub(crate) fn begin(alloc: Global, window: Window) -> Result<Window, AllocError>
    ensures begun { IfOk result (λ it. window_in it ≡ begun (window_in window)) }
    ensures nodes { IfOk result (λ it. NodesBehind it.tree) }
{
    let Window {
        tree,
        names,
        inside,
        ..
    } = window;
    let tree = unfinished(alloc, tree)?;
    let limits = Limits {
        ops: 255,
        tests: 255,
        mem: 255,
    };
    Ok(Window {
        tree,
        names,
        limits,
        inside,
    })
}
