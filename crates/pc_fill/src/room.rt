//! How much room a window's front has left.
ghost use Rattle.std.specs.Prelude.{◌≡◌, ◌↔◌, ◌<◌, ◌^◌, ◌+◌, suc, if◌then◌else◌, true};
ghost use Rattle.pc_word.specs.Items.{is_memory};
ghost use Rattle.pc_window.specs.Tree.{tree_size};
ghost use Rattle.pc_window.specs.StoredWindow.{tree_in, front_in};
ghost use Rattle.pc_fill.specs.models.Search.{AreCounts, FrontFits, HasRoom};

use pc_window::WindowTree;
use pc_word::{Item, Limits};

/// How many items, loads and stores, and tests a front has.
#[derive(Clone, Copy, Debug)]
pub(crate) struct Counts {
    pub(crate) items: u32,
    pub(crate) memory: u32,
    pub(crate) tests: u32,
}

/// The counts of a front.
#[tactic(auto, using(crate::proofs::Counting::counting))]
pub(crate) fn count_front(tree: &WindowTree) -> Counts
    requires { tree_size (tree_in tree.now) < 2 ^ 31 }
    ensures counts { AreCounts result (front_in tree.now) }
    ensures within { FrontFits result (tree_size (tree_in tree.now)) }
{
    match tree {
        WindowTree::Step { item, rest, .. } => with_item(count_front(rest), *item),
        WindowTree::Test { yes, no, .. } => with_test(count_front(yes), count_front(no)),
        WindowTree::Node { .. } => none(),
        WindowTree::Exit { .. } => none(),
        WindowTree::Stop => none(),
        WindowTree::Trap { .. } => none(),
    }
}

/// The counts of a leaf.
fn none() -> Counts
    ensures { result ≡ record { items = 0; memory = 0; tests = 0 } }
{
    Counts {
        items: 0,
        memory: 0,
        tests: 0,
    }
}

/// The counts with an item above.
fn with_item(below: Counts, item: Item) -> Counts
    requires items { below.items < 2 ^ 31 }
    requires memory { below.memory < 2 ^ 31 }
    ensures { result ≡ record { items = suc below.items; memory = (if is_memory item then 1 else 0) + below.memory; tests = below.tests } }
{
    let touches = if item.is_memory() { 1 } else { 0 };
    Counts {
        items: below.items + 1,
        memory: touches + below.memory,
        tests: below.tests,
    }
}

/// The counts with a test above.
fn with_test(yes: Counts, no: Counts) -> Counts
    requires items { yes.items + no.items < 2 ^ 31 }
    requires memory { yes.memory + no.memory < 2 ^ 31 }
    requires tests { yes.tests + no.tests < 2 ^ 31 }
    ensures { result ≡ record { items = yes.items + no.items; memory = yes.memory + no.memory; tests = suc (yes.tests + no.tests) } }
{
    Counts {
        items: yes.items + no.items,
        memory: yes.memory + no.memory,
        tests: yes.tests + no.tests + 1,
    }
}

/// Whether a front with these counts has room for one more item that is no load or store.
pub(crate) fn has_item_room(counts: Counts, limits: Limits) -> bool
    ensures { (result ≡ true) ↔ (counts.items < limits.ops) }
{
    counts.items < limits.ops as u32
}

/// Whether an item, or a test, has room in a front with these counts.
pub(crate) fn has_room(counts: Counts, limits: Limits, what: Option<Item>) -> bool
    ensures { (result ≡ true) ↔ HasRoom limits what counts }
{
    match what {
        None => counts.tests < limits.tests as u32,
        Some(item) => {
            if !item.is_memory() {
                return counts.items < limits.ops as u32;
            }
            if counts.memory >= limits.mem as u32 {
                return false;
            }
            counts.items < limits.ops as u32
        }
    }
}
