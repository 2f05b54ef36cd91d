//! The twin of an item: an equal one on the other side of the test behind which it stands.
ghost use Rattle.std.specs.Prelude.{◌≡◌, ◌↔◌, ◌<◌, ◌+◌, ◌^◌, ℕ, true, length};
ghost use Rattle.pc_window.specs.Tree.{tree_size, whole};
ghost use Rattle.pc_window.specs.StoredWindow.{tree_in, front_in, forms_in};
ghost use Rattle.pc_fill.specs.models.Places.{MayRise};
ghost use Rattle.pc_fill.specs.models.Search.{StandsAt};
ghost use Rattle.pc_fill.specs.models.Way.{Reaches};
ghost use Rattle.pc_fill.specs.models.Landing.{TwinsAt, TwinHere, TwinIn, FirstFrom, FirstIn};

use crate::first::node_at;
use crate::landing::both_unfinished;
use crate::readiness::{may_rise, size_up_to};
use pc_window::{NameTable, WindowTree};
use pc_word::Item;

/// An item that looks for its twin.
#[derive(Clone, Copy, Debug)]
pub(crate) struct Seeker {
    pub(crate) tag: u32,
    pub(crate) origin: u32,
    pub(crate) item: Item,
}

/// Whether an item at a place of a tree is a twin.
#[tactic(auto, using(crate::proofs::Twins::telling))]
fn is_twin(
    names: &NameTable,
    seeker: Seeker,
    all: &WindowTree,
    tag: u32,
    origin: u32,
    other: Item,
    place: u32,
) -> bool
    requires small { tree_size (tree_in all.now) < 2 ^ 31 }
    requires names { length names.now.forms < 2 ^ 31 }
    ensures { (result ≡ true) ↔ TwinsAt (forms_in names.now.forms) (length names.now.forms) seeker.tag seeker.origin seeker.item tag origin other (tree_in all.now) place }
{
    if tag != seeker.tag {
        return false;
    }
    if origin != seeker.origin {
        return false;
    }
    if !other.is_alike(seeker.item) {
        return false;
    }
    may_rise(names, Some(other), all, place)
}

/// The place of the first twin in a part of a tree.
#[tactic(auto, using(crate::proofs::Twins::finding))]
fn find_twin(
    tree: &WindowTree,
    names: &NameTable,
    seeker: Seeker,
    all: &WindowTree,
    place: u32,
) -> Option<u32>
    requires small { tree_size (tree_in all.now) < 2 ^ 31 }
    requires names { length names.now.forms < 2 ^ 31 }
    requires place { place + tree_size (tree_in tree.now) < 2 ^ 31 }
    requires stands { StandsAt (tree_in tree.now) place (tree_in all.now) }
    ensures { FirstFrom (forms_in names.now.forms) (length names.now.forms) seeker.tag seeker.origin seeker.item (tree_in all.now) place (place + tree_size (tree_in tree.now)) result }
{
    match tree {
        WindowTree::Step {
            tag,
            origin,
            item,
            rest,
        } => {
            if is_twin(names, seeker, all, *tag, *origin, *item, place) {
                return Some(place);
            }
            find_twin(rest, names, seeker, all, place + 1)
        }
        WindowTree::Test { yes, no, .. } => {
            match find_twin(yes, names, seeker, all, place + 1) {
                Some(found) => Some(found),
                None => find_twin(no, names, seeker, all, place + 1 + yes.size()),
            }
        }
        WindowTree::Node { below } => find_twin(below, names, seeker, all, place),
        WindowTree::Exit { .. } => None,
        WindowTree::Stop => None,
        WindowTree::Trap { .. } => None,
    }
}

/// The place of the first twin of an item that stands behind a front, where a way leads: on the no
/// side of the front's test, right behind which it stands on the yes side.
#[tactic(auto, using(crate::proofs::Twins::seeking))]
pub(crate) fn twin_of(
    tree: &WindowTree,
    names: &NameTable,
    seeker: Seeker,
    way: &[bool],
) -> Option<u32>
    requires small { tree_size (tree_in tree.now) < 2 ^ 31 }
    requires names { length names.now.forms < 2 ^ 31 }
    ensures { (depth place : ℕ) → Reaches (front_in tree.now) way.now depth place
        → FirstIn (forms_in names.now.forms) (length names.now.forms) seeker.tag seeker.origin seeker.item (front_in tree.now) place result }
{
    match tree {
        WindowTree::Step { rest, .. } => twin_of(rest, names, seeker, way),
        WindowTree::Test { yes, no, .. } => match way.split_first() {
            None => None,
            Some((side, below)) => {
                if !*side {
                    return twin_of(no, names, seeker, below);
                }
                if both_unfinished(yes, no) {
                    return find_twin(no, names, seeker, no, 0);
                }
                twin_of(yes, names, seeker, below)
            }
        },
        WindowTree::Node { .. } => None,
        WindowTree::Exit { .. } => None,
        WindowTree::Stop => None,
        WindowTree::Trap { .. } => None,
    }
}

/// Whether a twin stands at a place of a tree.
#[tactic(auto, using(crate::proofs::TwinPlaces::standing))]
fn is_twin_here(names: &NameTable, seeker: Seeker, all: &WindowTree, place: u32) -> bool
    requires small { tree_size (tree_in all.now) < 2 ^ 31 }
    requires names { length names.now.forms < 2 ^ 31 }
    ensures { (result ≡ true) ↔ TwinHere (forms_in names.now.forms) (length names.now.forms) seeker.tag seeker.origin seeker.item (tree_in all.now) place }
{
    let Some(it) = node_at(all, place) else {
        return false;
    };
    let Some(other) = it.item else {
        return false;
    };
    is_twin(names, seeker, all, it.tag, it.origin, other, place)
}

/// Whether an item at a place behind a front has its twin at a place of the no side of the front's
/// test right behind which it stands on the yes side.
#[tactic(auto, using(crate::proofs::TwinPlaces::finding))]
pub(crate) fn has_twin_at(
    tree: &WindowTree,
    names: &NameTable,
    seeker: Seeker,
    place: u32,
    twin: u32,
) -> bool
    requires small { tree_size (tree_in tree.now) < 2 ^ 31 }
    requires names { length names.now.forms < 2 ^ 31 }
    ensures { (result ≡ true) ↔ TwinIn (forms_in names.now.forms) (length names.now.forms) seeker.tag seeker.origin seeker.item (front_in tree.now) place twin }
{
    match tree {
        WindowTree::Step { rest, .. } => {
            if place == 0 {
                return false;
            }
            has_twin_at(rest, names, seeker, place - 1, twin)
        }
        WindowTree::Test { yes, no, .. } => {
            if place == 0 {
                return false;
            }
            let on_yes = size_up_to(yes, place);
            if place - 1 >= on_yes {
                return has_twin_at(no, names, seeker, place - 1 - on_yes, twin);
            }
            if both_unfinished(yes, no) {
                return is_twin_here(names, seeker, no, twin);
            }
            has_twin_at(yes, names, seeker, place - 1, twin)
        }
        WindowTree::Node { .. } => false,
        WindowTree::Exit { .. } => false,
        WindowTree::Stop => false,
        WindowTree::Trap { .. } => false,
    }
}
