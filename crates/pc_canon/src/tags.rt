//! The first tag of a tree.
ghost use Rattle.std.specs.Prelude.{◌≡◌};
ghost use Rattle.pc_window.specs.StoredWindow.{tree_in};
ghost use Rattle.pc_canon.specs.Canonical.{tags_of, first_tag};
ghost use Rattle.pc_canon.specs.models.Written.{lesser, least_found};

use pc_window::WindowTree;

/// The least tag of items, tests and stubs, and 0 where there is none.
#[tactic(auto, using(crate::proofs::FirstTags::least))]
pub(crate) fn first_tag(tree: &WindowTree) -> u32
    ensures { result ≡ first_tag (tags_of (tree_in tree.now)) }
{
    least_tag(tree, None).unwrap_or(0)
}

/// The least tag of a tree and of what was found before.
#[tactic(auto, using(crate::proofs::FirstTags::least))]
fn least_tag(tree: &WindowTree, found: Option<u32>) -> Option<u32>
    ensures { result ≡ least_found found (tags_of (tree_in tree.now)) }
{
    match tree {
        WindowTree::Step { tag, rest, .. } => least_tag(rest, Some(lesser(found, *tag))),
        WindowTree::Test { tag, yes, no, .. } => {
            let found = least_tag(yes, Some(lesser(found, *tag)));
            least_tag(no, found)
        }
        WindowTree::Node { below } => least_tag(below, found),
        WindowTree::Exit { tag, .. } => Some(lesser(found, *tag)),
        WindowTree::Stop => found,
        WindowTree::Trap { .. } => found,
    }
}

/// The least of a tag and of what was found before.
fn lesser(found: Option<u32>, tag: u32) -> u32
    ensures { result ≡ lesser found tag }
{
    match found {
        None => tag,
        Some(found) => found.min(tag),
    }
}
