//! Leaves that end as what is left does.
ghost use Rattle.std.specs.Prelude.{◌≡◌, ◌↔◌, true, Some};
ghost use Rattle.pc_window.specs.Tree.{whole};
ghost use Rattle.pc_window.specs.StoredWindow.{tree_in, window_in};
ghost use Rattle.pc_settling.specs.Arrives.{end_of};

use pc_machine::Leaf;
use pc_window::{Window, WindowTree};

/// The leaf that ends as a tree does, if the tree is an end.
fn end_of(tree: &WindowTree) -> Option<Leaf>
    ensures { result ≡ end_of (tree_in tree.now) }
{
    match tree {
        WindowTree::Step { .. } => None,
        WindowTree::Test { .. } => None,
        WindowTree::Node { below } => end_of(below),
        WindowTree::Exit { .. } => None,
        WindowTree::Stop => Some(Leaf::Stop),
        WindowTree::Trap { kind, line } => Some(Leaf::Trap {
            kind: *kind,
            line: *line,
        }),
    }
}

/// Whether a leaf ends as a window does: at the end of the program, or with the same trap of the same
/// line.
pub fn ends_alike(leaf: Leaf, window: &Window) -> bool
    ensures { (result ≡ true) ↔ (end_of (whole (window_in window.now).front) ≡ Some leaf) }
{
    match end_of(&window.tree) {
        None => false,
        Some(end) => end == leaf,
    }
}
