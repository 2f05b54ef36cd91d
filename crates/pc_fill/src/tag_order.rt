//! Whether tags never fall on the way down behind a front.
ghost use Rattle.std.specs.Prelude.{◌≡◌, ◌↔◌, true};
ghost use Rattle.pc_window.specs.StoredWindow.{tree_in, front_in};
ghost use Rattle.pc_fill.specs.models.TagOrder.{TagsInOrder, TagsInOrderBehind};

use pc_window::WindowTree;

/// Whether no tag of a tree is less than the one above it, nor than this.
fn are_tags_in_order(tree: &WindowTree, least: u32) -> bool
    ensures { (result ≡ true) ↔ TagsInOrder least (tree_in tree.now) }
{
    match tree {
        WindowTree::Step { tag, rest, .. } => {
            if *tag < least {
                return false;
            }
            are_tags_in_order(rest, *tag)
        }
        WindowTree::Test { tag, yes, no, .. } => {
            if *tag < least {
                return false;
            }
            if !are_tags_in_order(yes, *tag) {
                return false;
            }
            are_tags_in_order(no, *tag)
        }
        WindowTree::Node { below } => are_tags_in_order(below, least),
        WindowTree::Exit { .. } => true,
        WindowTree::Stop => true,
        WindowTree::Trap { .. } => true,
    }
}

/// Whether no tag behind a front is less than one above it there.
pub(crate) fn are_tags_in_order_behind(tree: &WindowTree) -> bool
    ensures { (result ≡ true) ↔ TagsInOrderBehind (front_in tree.now) }
{
    match tree {
        WindowTree::Step { rest, .. } => are_tags_in_order_behind(rest),
        WindowTree::Test { yes, no, .. } => {
            if !are_tags_in_order_behind(yes) {
                return false;
            }
            are_tags_in_order_behind(no)
        }
        WindowTree::Node { below } => are_tags_in_order(below, 0),
        WindowTree::Exit { .. } => true,
        WindowTree::Stop => true,
        WindowTree::Trap { .. } => true,
    }
}
