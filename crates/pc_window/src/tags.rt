//! The least tags of trees and windows.
ghost use Rattle.std.specs.Prelude.{◌≡◌};
ghost use Rattle.pc_window.specs.Tree.{whole};
ghost use Rattle.pc_window.specs.StoredWindow.{tree_in, window_in};
ghost use Rattle.pc_window.specs.Unwinding.{lesser_tag, least_tag, front_tag};

use crate::tree::WindowTree;
use crate::window::Window;

/// The lesser of two tags, where there are any.
pub fn lesser_tag(one: Option<u32>, other: Option<u32>) -> Option<u32>
    ensures { result ≡ lesser_tag one other }
{
    match (one, other) {
        (Some(one), Some(other)) => Some(one.min(other)),
        (Some(one), None) => Some(one),
        (None, other) => other,
    }
}

impl WindowTree {
    /// The least tag of its items, tests and stubs, where it has any.
    pub fn least_tag(&self) -> Option<u32>
        ensures { result ≡ least_tag (tree_in self.now) }
    {
        match self {
            WindowTree::Step { tag, rest, .. } => lesser_tag(Some(*tag), rest.least_tag()),
            WindowTree::Test { tag, yes, no, .. } => {
                lesser_tag(Some(*tag), lesser_tag(yes.least_tag(), no.least_tag()))
            }
            WindowTree::Node { below } => below.least_tag(),
            WindowTree::Exit { tag, .. } => Some(*tag),
            WindowTree::Stop | WindowTree::Trap { .. } => None,
        }
    }

    /// The least tag of its items, tests and stubs, and 0 where it has none.
    pub fn front_tag(&self) -> u32
        ensures { result ≡ front_tag (tree_in self.now) }
    {
        match self.least_tag() {
            Some(tag) => tag,
            None => 0,
        }
    }
}

impl Window {
    /// The first iteration of which it has anything: the least tag of its items, tests and stubs, and 0 where it has none.
    #[tactic(auto, using(crate::proofs::WindowsStored::whole_in))]
    pub fn front_tag(&self) -> u32
        ensures { result ≡ front_tag (whole (window_in self.now).front) }
    {
        self.tree.front_tag()
    }
}
