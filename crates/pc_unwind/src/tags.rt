//! Tags of a tree.
ghost use Rattle.std.specs.Prelude.{◌≡◌};
ghost use Rattle.pc_table.specs.StoredTable.{table_of};
ghost use Rattle.pc_window.specs.Unwinding.{lesser_tag, least_inside, least_tag, or_zero};
ghost use Rattle.pc_window.specs.StoredWindow.{tree_in};

use pc_table::RegionTable;
use pc_window::{WindowTree, lesser_tag};

/// The least tags of a tree, where it has any.
#[derive(Clone, Copy, Debug)]
pub(crate) struct LeastTags {
    /// Of items, tests and stubs.
    pub(crate) all: Option<u32>,
    /// Of the stubs that are inside the loop.
    pub(crate) inside: Option<u32>,
}

impl LeastTags {
    /// The least tag of all, and 0 where there is none.
    pub(crate) fn front(self) -> u32
        ensures { result ≡ or_zero self.all }
    {
        match self.all {
            Some(tag) => tag,
            None => 0,
        }
    }
}

/// The least tags of a tree.
#[tactic(auto, using(crate::proofs::LesserTags::tags))]
pub(crate) fn least_tags(table: &RegionTable, inside: Option<u16>, tree: &WindowTree) -> LeastTags
    ensures all { result.all ≡ least_tag (tree_in tree.now) }
    ensures inside { result.inside ≡ least_inside (table_of table.now) inside (tree_in tree.now) }
{
    let mut least = LeastTags {
        all: None,
        inside: None,
    };
    add_tags(table, inside, tree, &mut least);
    least
}

/// Takes the tags of a tree into the least ones.
#[tactic(auto, using(crate::proofs::LesserTags::tags))]
fn add_tags(table: &RegionTable, inside: Option<u16>, tree: &WindowTree, least: &mut LeastTags)
    ensures all { least.new.all ≡ lesser_tag least.old.all (least_tag (tree_in tree.now)) }
    ensures inside { least.new.inside ≡ lesser_tag least.old.inside (least_inside (table_of table.now) inside (tree_in tree.now)) }
{
    match tree {
        WindowTree::Step { tag, rest, .. } => {
            least.all = lesser_tag(least.all, Some(*tag));
            add_tags(table, inside, rest, least)
        }
        WindowTree::Test { tag, yes, no, .. } => {
            least.all = lesser_tag(least.all, Some(*tag));
            add_tags(table, inside, yes, least);
            add_tags(table, inside, no, least)
        }
        WindowTree::Node { below } => add_tags(table, inside, below, least),
        WindowTree::Exit { region, tag, .. } => {
            least.all = lesser_tag(least.all, Some(*tag));
            if table.is_inside(*region, inside) {
                least.inside = lesser_tag(least.inside, Some(*tag));
            }
        }
        WindowTree::Stop => {}
        WindowTree::Trap { .. } => {}
    }
}
