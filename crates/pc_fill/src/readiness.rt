//! What an item or test may pass on its way up.
ghost use Rattle.std.specs.Prelude.{◌≡◌, ◌↔◌, ◌<◌, ◌≤◌, ◌^◌, true};
ghost use Rattle.pc_window.specs.Tree.{tree_size};
ghost use Rattle.pc_window.specs.Ready.{MayStandBehind};
ghost use Rattle.pc_window.specs.StoredWindow.{tree_in, front_in, forms_in};
ghost use Rattle.pc_fill.specs.models.Places.{MayPass, MayCross, MayRise, MayComeFrom};

use pc_window::{NameTable, WindowTree};
use pc_word::Item;

/// The number of items and tests of a tree, counted no further than this many.
pub fn size_up_to(tree: &WindowTree, most: u32) -> u32
    ensures most { result ≤ most }
    ensures within { result ≤ tree_size (tree_in tree.now) }
    ensures exact { result < most → result ≡ tree_size (tree_in tree.now) }
{
    if most == 0 {
        return 0;
    }
    match tree {
        WindowTree::Step { rest, .. } => 1 + size_up_to(rest, most - 1),
        WindowTree::Test { yes, no, .. } => {
            let on_yes = size_up_to(yes, most - 1);
            1 + on_yes + size_up_to(no, most - 1 - on_yes)
        }
        WindowTree::Node { below } => size_up_to(below, most),
        WindowTree::Exit { .. } => 0,
        WindowTree::Stop => 0,
        WindowTree::Trap { .. } => 0,
    }
}

/// Whether an item, or a test, may rise past an item.
pub(crate) fn may_pass(names: &NameTable, passed: Item, what: Option<Item>) -> bool
    ensures { (result ≡ true) ↔ MayPass (forms_in names.now.forms) passed what }
{
    match what {
        Some(item) => names.no_conflict(passed, item),
        None => true,
    }
}

/// Whether an item, or a test, may rise past a test.
pub(crate) fn may_cross(what: Option<Item>) -> bool
    ensures { (result ≡ true) ↔ MayCross what }
{
    match what {
        Some(item) => item.only_computes(),
        None => false,
    }
}

/// Whether an item, or a test, may stand behind an item of the front.
pub(crate) fn may_stand_behind(names: &NameTable, above: Item, what: Option<Item>) -> bool
    ensures { (result ≡ true) ↔ MayStandBehind (forms_in names.now.forms) above what }
{
    match what {
        Some(item) => names.may_follow(above, item),
        None => true,
    }
}

/// Whether an item, or a test, may rise from a place of a tree to its root.
#[tactic(auto, using(crate::proofs::Ways::rising))]
pub(crate) fn may_rise(names: &NameTable, what: Option<Item>, tree: &WindowTree, place: u32) -> bool
    requires { tree_size (tree_in tree.now) < 2 ^ 31 }
    ensures { (result ≡ true) ↔ MayRise (forms_in names.now.forms) what (tree_in tree.now) place }
{
    match tree {
        WindowTree::Step { item, rest, .. } => {
            if place == 0 {
                return true;
            }
            if !may_pass(names, *item, what) {
                return false;
            }
            may_rise(names, what, rest, place - 1)
        }
        WindowTree::Test { yes, no, .. } => {
            if place == 0 {
                return true;
            }
            if !may_cross(what) {
                return false;
            }
            let on_yes = size_up_to(yes, place);
            if place - 1 < on_yes {
                return may_rise(names, what, yes, place - 1);
            }
            may_rise(names, what, no, place - 1 - on_yes)
        }
        WindowTree::Node { below } => may_rise(names, what, below, place),
        WindowTree::Exit { .. } => true,
        WindowTree::Stop => true,
        WindowTree::Trap { .. } => true,
    }
}

/// Whether an item, or a test, may come into the front from a place of a window.
#[tactic(auto, using(crate::proofs::Ways::coming))]
pub(crate) fn may_come(names: &NameTable, what: Option<Item>, tree: &WindowTree, place: u32) -> bool
    requires { tree_size (tree_in tree.now) < 2 ^ 31 }
    ensures { (result ≡ true) ↔ MayComeFrom (forms_in names.now.forms) what (front_in tree.now) place }
{
    match tree {
        WindowTree::Step { item, rest, .. } => {
            if place == 0 {
                return false;
            }
            if !may_stand_behind(names, *item, what) {
                return false;
            }
            may_come(names, what, rest, place - 1)
        }
        WindowTree::Test { yes, no, .. } => {
            if place == 0 {
                return false;
            }
            let on_yes = size_up_to(yes, place);
            if place - 1 < on_yes {
                return may_come(names, what, yes, place - 1);
            }
            may_come(names, what, no, place - 1 - on_yes)
        }
        WindowTree::Node { below } => may_rise(names, what, below, place),
        WindowTree::Exit { .. } => true,
        WindowTree::Stop => true,
        WindowTree::Trap { .. } => true,
    }
}
