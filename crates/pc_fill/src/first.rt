//! The first item or test of a window that is ready and has room, looked for place by place.
ghost use Rattle.std.specs.Prelude.{◌≡◌, ◌↔◌, ◌<◌, ◌+◌, ◌^◌, ◌∷◌, [], true, Some, None, slice_get, IfSome};
ghost use Rattle.pc_word.specs.Items.{operand_list, operands_of};
ghost use Rattle.pc_window.specs.Names.{uses, Scoped};
ghost use Rattle.pc_window.specs.Ready.{ReadyPlace};
ghost use Rattle.pc_window.specs.Steps.{IsProper};
ghost use Rattle.pc_window.specs.StoredWindow.{tree_in, front_in, window_in};
ghost use Rattle.pc_window.specs.Tree.{tree_size, whole};
ghost use Rattle.pc_fill.specs.FirstReady.{IsFirstReady};
ghost use Rattle.pc_fill.specs.models.Places.{nodes_of, node_of, node_in, unwritten_above, IsReadyHere};
ghost use Rattle.pc_fill.specs.models.Search.{AreCounts, precedes, comes_before, BestBefore};

use crate::known::are_known_at;
use crate::readiness::{may_come, size_up_to};
use crate::room::{Counts, count_front, has_room};
use pc_window::{Window, WindowTree};
use pc_word::{Item, Operand, Operands};

/// An item or test that stands behind the front of a window and is ready: its tag, its origin and
/// its preorder place, and the item, or `None` where it is a test.
#[derive(Clone, Copy, Debug)]
pub struct ReadyNode {
    pub tag: u32,
    pub origin: u32,
    pub place: u32,
    pub item: Option<Item>,
}

/// An item or test of a window that may be ready: its tag and its origin, the item, or `None` where
/// it is a test, and what it reads.
#[derive(Clone, Copy)]
pub(crate) struct Candidate {
    pub(crate) tag: u32,
    pub(crate) origin: u32,
    pub(crate) item: Option<Item>,
    pub(crate) operands: Operands,
}

/// Whether a tag and an origin come before others.
pub(crate) fn precedes(tag: u32, origin: u32, other_tag: u32, other_origin: u32) -> bool
    ensures { result ≡ precedes tag origin other_tag other_origin }
{
    tag < other_tag || (tag == other_tag && origin < other_origin)
}

/// Whether a tag and an origin come before those of what was found.
fn comes_before(tag: u32, origin: u32, first: Option<ReadyNode>) -> bool
    ensures { result ≡ comes_before tag origin first }
{
    match first {
        None => true,
        Some(first) => precedes(tag, origin, first.tag, first.origin),
    }
}

impl Candidate {
    /// An item.
    fn of_item(tag: u32, origin: u32, item: Item) -> Candidate
        ensures { node_of result ≡ record { tag = tag; origin = origin; what = Some item; operands = operands_of item } }
    {
        Candidate {
            tag,
            origin,
            item: Some(item),
            operands: item.operands(),
        }
    }

    /// A test.
    fn of_test(tag: u32, origin: u32, on: Operand) -> Candidate
        ensures { node_of result ≡ record { tag = tag; origin = origin; what = None; operands = on ∷ [] } }
    {
        Candidate {
            tag,
            origin,
            item: None,
            operands: Operands::One(on),
        }
    }
}

/// The item or test at a preorder place of a tree.
#[tactic(auto, using(crate::proofs::AtPlaces::standing))]
pub(crate) fn node_at(tree: &WindowTree, place: u32) -> Option<Candidate>
    ensures { node_in result ≡ slice_get (nodes_of (tree_in tree.now)) place }
{
    match tree {
        WindowTree::Step {
            tag,
            origin,
            item,
            rest,
        } => {
            if place == 0 {
                return Some(Candidate::of_item(*tag, *origin, *item));
            }
            node_at(rest, place - 1)
        }
        WindowTree::Test {
            tag,
            origin,
            on,
            yes,
            no,
        } => {
            if place == 0 {
                return Some(Candidate::of_test(*tag, *origin, *on));
            }
            let on_yes = size_up_to(yes, place);
            if place - 1 < on_yes {
                return node_at(yes, place - 1);
            }
            node_at(no, place - 1 - on_yes)
        }
        WindowTree::Node { below } => node_at(below, place),
        WindowTree::Exit { .. } => None,
        WindowTree::Stop => None,
        WindowTree::Trap { .. } => None,
    }
}

/// Whether what stands at a place is ready and has room beside these counts of the front.
#[tactic(auto, using(crate::proofs::AtPlaces::ready))]
pub(crate) fn is_ready(window: &Window, counts: Counts, place: u32, it: Candidate) -> bool
    requires counts { AreCounts counts (front_in window.now.tree) }
    requires small { tree_size (tree_in window.now.tree) < 2 ^ 31 }
    ensures { (result ≡ true) ↔ IsReadyHere (unwritten_above (tree_in window.now.tree) place) (window_in window.now) place it.item (operand_list it.operands) }
{
    if !are_known_at(&window.tree, place, it.operands) {
        return false;
    }
    if !has_room(counts, window.limits, it.item) {
        return false;
    }
    may_come(&window.names, it.item, &window.tree, place)
}

/// The first of what is ready at a place or before it, where this is the first before it.
#[tactic(auto, using(crate::proofs::AtPlaces::looking))]
fn first_with(
    window: &Window,
    counts: Counts,
    place: u32,
    first: Option<ReadyNode>,
) -> Option<ReadyNode>
    requires scoped { Scoped (uses (whole (window_in window.now).front)) (whole (window_in window.now).front) }
    requires counts { AreCounts counts (front_in window.now.tree) }
    requires small { tree_size (tree_in window.now.tree) < 2 ^ 31 }
    requires place { place < tree_size (tree_in window.now.tree) }
    requires first { BestBefore (uses (whole (window_in window.now).front)) (window_in window.now) place first }
    ensures { BestBefore (uses (whole (window_in window.now).front)) (window_in window.now) (place + 1) result }
{
    let Some(it) = node_at(&window.tree, place) else {
        return first;
    };
    if !comes_before(it.tag, it.origin, first) {
        return first;
    }
    if !is_ready(window, counts, place, it) {
        return first;
    }
    Some(ReadyNode {
        tag: it.tag,
        origin: it.origin,
        place,
        item: it.item,
    })
}

/// The first item or test, in the order of tag, origin and preorder place, that stands behind the
/// front, is ready and has room; `None` exactly where there is none.
///
/// It takes no memory: it goes down to each place anew, and a name that is read there is known before
/// the window where no item above writes it. So it takes time in proportion to the square of the
/// window's size, times the tests above a place. `fill`, which looks once for each item that comes,
/// has a walk of its own, with a table of what is known.
pub fn first_ready(window: &Window) -> Option<ReadyNode>
    requires proper { IsProper (window_in window.now) }
    requires small { tree_size (whole (window_in window.now).front) < 2 ^ 31 }
    ensures first { IfSome result (IsFirstReady (uses (whole (window_in window.now).front)) (window_in window.now)) }
    ensures none { result ≡ None → ReadyPlace (uses (whole (window_in window.now).front)) (window_in window.now) → ⊥ }
{
    let counts = count_front(&window.tree);
    let mut first = None;
    for place in 0..window.size() {
        first = first_with(window, counts, place, first);
    }
    first
}
