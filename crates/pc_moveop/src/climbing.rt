//! An item on its way up into the node above, and what it meets.
ghost use Rattle.std.specs.Prelude.{◌≡◌, ◌↔◌, ℕ, ◌<◌, ◌^◌, ◌||◌, List, [], ◌∷◌, Bool, true, Some, Option, slice_get};
ghost use Rattle.pc_word.specs.Items.{operands_of, is_effect};
ghost use Rattle.pc_linear.specs.Form.{Form};
ghost use Rattle.pc_window.specs.Conflict.{touch_of};
ghost use Rattle.pc_window.specs.Tree.{tree_size};
ghost use Rattle.pc_window.specs.StoredWindow.{tree_in, forms_in};
ghost use Rattle.pc_moveop.specs.NodeTree.{nodes_in};
ghost use Rattle.pc_moveop.specs.Climbing.{Passed, Passed_item, Passed_test, Mover, passing, mover_in, mover_at, defines_operand, MayPass, FirstConflict};
ghost use Rattle.pc_moveop.specs.models.Climbs.{Finds, first_marked};

use crate::nodes::{leaf_count, node_size};
use pc_window::{NameTable, WindowTree};
use pc_word::{Item, Operand, Operands};

/// An item on its way up: whether its first and its second operand are defined there, the origin
/// of its first conflict, whether it passes a test, and a print, read or more.
#[derive(Clone, Copy, Debug)]
pub struct Climb {
    pub(crate) tag: u32,
    pub(crate) origin: u32,
    pub(crate) item: Item,
    pub(crate) first_defined: bool,
    pub(crate) second_defined: bool,
    pub(crate) conflict: Option<u32>,
    pub(crate) crosses: bool,
    pub(crate) effect: bool,
}

/// An item that has passed nothing.
#[tactic(auto, using(crate::proofs::Climbs::climbs))]
fn start(tag: u32, origin: u32, item: Item) -> Climb
    ensures { (forms : ℕ → Form) → Finds forms (Some (record { tag = tag; origin = origin; item = item; way = [] })) (Some result) }
{
    Climb {
        tag,
        origin,
        item,
        first_defined: false,
        second_defined: false,
        conflict: None,
        crosses: false,
        effect: false,
    }
}

/// The first operand of an item.
fn first_operand(item: Item) -> Option<Operand>
    ensures { result ≡ slice_get (operands_of item) 0 }
{
    match item.operands() {
        Operands::None => None,
        Operands::One(one) => Some(one),
        Operands::Two(one, _) => Some(one),
    }
}

/// The second operand of an item.
fn second_operand(item: Item) -> Option<Operand>
    ensures { result ≡ slice_get (operands_of item) 1 }
{
    match item.operands() {
        Operands::None => None,
        Operands::One(_) => None,
        Operands::Two(_, other) => Some(other),
    }
}

/// Whether an item defines an operand, or it was defined before.
pub fn defines(above: Item, operand: Option<Operand>, before: bool) -> bool
    ensures { (finished : Bool) (origin : ℕ) → result ≡ (defines_operand operand (Passed_item finished origin above) || before) }
{
    match operand {
        None => before,
        Some(Operand::Lit(_)) => before,
        Some(Operand::Name(name)) => match above.dest() {
            None => before,
            Some(dest) => {
                if dest == name {
                    return true;
                }
                before
            }
        },
    }
}

/// Whether an item may come to stand before another, as far as loads and stores go; or, where that
/// one is finished, right behind it.
fn may_pass(names: &NameTable, above: Item, item: Item, finished: bool) -> bool
    ensures { (result ≡ true) ↔ MayPass (forms_in names.now.forms) finished (touch_of above) (touch_of item) }
{
    if finished {
        return names.no_store_dependence(above, item);
    }
    names.no_dependence(above, item)
}

/// The first conflict of an item once it has passed another.
#[tactic(auto, using(crate::proofs::Climbs::conflicting))]
fn first_conflict(
    climb: Climb,
    names: &NameTable,
    origin: u32,
    above: Item,
    finished: bool,
) -> Option<u32>
    ensures { (way : List Passed) → FirstConflict (forms_in names.now.forms) climb.item way climb.conflict
        → FirstConflict (forms_in names.now.forms) climb.item (Passed_item finished origin above ∷ way) result }
{
    if may_pass(names, above, climb.item, finished) {
        return climb.conflict;
    }
    Some(origin)
}

/// Whether an item is a print, read or more, or one was passed before.
fn has_effect(above: Item, before: bool) -> bool
    ensures { result ≡ (is_effect above || before) }
{
    if above.is_effect() {
        return true;
    }
    before
}

/// An item once it has passed another: one that is finished, or one of its own node.
#[tactic(auto, using(crate::proofs::Climbs::climbs))]
fn past_item(climb: Climb, names: &NameTable, origin: u32, above: Item, finished: bool) -> Climb
    ensures { (m : Option Mover) → Finds (forms_in names.now.forms) m (Some climb)
        → Finds (forms_in names.now.forms) (passing (Passed_item finished origin above) m) (Some result) }
{
    Climb {
        first_defined: defines(above, first_operand(climb.item), climb.first_defined),
        second_defined: defines(above, second_operand(climb.item), climb.second_defined),
        conflict: first_conflict(climb, names, origin, above, finished),
        effect: has_effect(above, climb.effect),
        ..climb
    }
}

/// An item once it has passed a test.
#[tactic(auto, using(crate::proofs::Climbs::climbs))]
fn past_test(climb: Climb) -> Climb
    ensures { (forms : ℕ → Form) (m : Option Mover) → Finds forms m (Some climb) → Finds forms (passing Passed_test m) (Some result) }
{
    Climb {
        crosses: true,
        ..climb
    }
}

/// The item at a place of a node, on its way to the node's root.
#[tactic(auto, using(crate::proofs::Climbs::searches))]
pub fn climb_in(names: &NameTable, tree: &WindowTree, place: u32) -> Option<Climb>
    requires { tree_size (tree_in tree.now) < 2 ^ 31 }
    ensures { Finds (forms_in names.now.forms) (mover_in place (nodes_in tree.now)) result }
{
    match tree {
        WindowTree::Step {
            tag,
            origin,
            item,
            rest,
        } => {
            if place == 0 {
                return Some(start(*tag, *origin, *item));
            }
            match climb_in(names, rest, place - 1) {
                None => None,
                Some(climb) => Some(past_item(climb, names, *origin, *item, false)),
            }
        }
        WindowTree::Test { yes, no, .. } => {
            if place == 0 {
                return None;
            }
            let on_yes = node_size(yes);
            let found = if place - 1 < on_yes {
                climb_in(names, yes, place - 1)
            } else {
                climb_in(names, no, place - 1 - on_yes)
            };
            match found {
                None => None,
                Some(climb) => Some(past_test(climb)),
            }
        }
        WindowTree::Node { .. } => None,
        WindowTree::Exit { .. } => None,
        WindowTree::Stop => None,
        WindowTree::Trap { .. } => None,
    }
}

/// The item at a place of the node that a leaf leads to, on its way to the root of the node above.
#[tactic(auto, using(crate::proofs::Climbs::searches))]
pub fn climb_at(names: &NameTable, tree: &WindowTree, leaf: u32, place: u32) -> Option<Climb>
    requires { tree_size (tree_in tree.now) < 2 ^ 31 }
    ensures { Finds (forms_in names.now.forms) (mover_at leaf place (nodes_in tree.now)) result }
{
    match tree {
        WindowTree::Step {
            origin,
            item,
            rest,
            ..
        } => match climb_at(names, rest, leaf, place) {
            None => None,
            Some(climb) => Some(past_item(climb, names, *origin, *item, true)),
        },
        WindowTree::Test { yes, no, .. } => {
            let on_yes = leaf_count(yes);
            if leaf < on_yes {
                return climb_at(names, yes, leaf, place);
            }
            climb_at(names, no, leaf - on_yes, place)
        }
        WindowTree::Node { below } => {
            if leaf == 0 {
                return climb_in(names, below, place);
            }
            None
        }
        WindowTree::Exit { .. } => None,
        WindowTree::Stop => None,
        WindowTree::Trap { .. } => None,
    }
}

/// The first operand of an item that is defined on its way.
pub(crate) fn first_defined(climb: Climb) -> Option<u32>
    ensures { result ≡ first_marked climb.first_defined climb.second_defined (operands_of climb.item) }
{
    if climb.first_defined {
        if let Some(Operand::Name(name)) = first_operand(climb.item) {
            return Some(name);
        }
    }
    if climb.second_defined {
        if let Some(Operand::Name(name)) = second_operand(climb.item) {
            return Some(name);
        }
    }
    None
}
