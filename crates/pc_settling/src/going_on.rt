//! Progress from one claim to the next.
ghost use Rattle.std.specs.Prelude.{◌≡◌};
ghost use Rattle.pc_window.specs.Tree.{whole};
ghost use Rattle.pc_window.specs.StoredWindow.{tree_in, window_in};
ghost use Rattle.pc_settling.specs.Arrives.{has_test_or_stub, progress};

use pc_window::{Window, WindowTree};

/// Whether a tree has a test or a stub.
fn has_test_or_stub(tree: &WindowTree) -> bool
    ensures { result ≡ has_test_or_stub (tree_in tree.now) }
{
    match tree {
        WindowTree::Step { rest, .. } => has_test_or_stub(rest),
        WindowTree::Test { .. } => true,
        WindowTree::Node { below } => has_test_or_stub(below),
        WindowTree::Exit { .. } => true,
        WindowTree::Stop => false,
        WindowTree::Trap { .. } => false,
    }
}

/// Whether there is progress from a claim of this rank, whose window has this least tag, to one of a rank
/// at which a window arrives: the rank falls, or the window's least tag is greater and it has a test or a
/// stub.
#[tactic(auto, using(crate::proofs::FoundProgress::fronts))]
pub fn progress(rank: u32, tag: u32, next_rank: u32, window: &Window) -> bool
    ensures { result ≡ progress rank tag next_rank (whole (window_in window.now).front) }
{
    next_rank < rank || (tag < window.front_tag() && has_test_or_stub(&window.tree))
}
