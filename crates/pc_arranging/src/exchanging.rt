//! Below a copy, in one item, test or stub, the copy's name and its operand take each other's place.
ghost use Rattle.std.specs.Prelude.{◌≡◌, ◌<◌, ◌^◌, Bool};
ghost use Rattle.pc_word.specs.Naming.{map_operands};
ghost use Rattle.pc_window.specs.Tree.{tree_size};
ghost use Rattle.pc_window.specs.Rename.{map_homes};
ghost use Rattle.pc_window.specs.StoredWindow.{tree_in, InNodes};
ghost use Rattle.pc_arranging.specs.Exchanging.{in_place_of, exchange, exchanged_at, exchanged_below, used_at};
ghost use Rattle.pc_arranging.specs.models.Doing.{tree_if};

use crate::numbering::part_count;
use pc_window::{WindowTree, homes_use, map_homes};
use pc_word::{Item, Operand};

/// An operand with another in the place of one.
#[tactic(auto, using(crate::proofs::Exchanged::operands))]
fn in_place_of(one: Operand, other: Operand, operand: Operand) -> Operand
    ensures { result ≡ in_place_of one other operand }
{
    if operand.is_same(one) {
        return other;
    }
    operand
}

/// An operand, where a name that is read becomes the operand that is copied to it, or else that operand
/// becomes the name.
fn exchange(name: u32, from: Operand, reads_it: bool, operand: Operand) -> Operand
    ensures { result ≡ exchange name from reads_it operand }
{
    if reads_it {
        return in_place_of(Operand::Name(name), from, operand);
    }
    in_place_of(from, Operand::Name(name), operand)
}

/// Exchanges the two in the item, test or stub with a number; items, tests and leaves are counted
/// together. Says whether there is one.
#[tactic(auto, using(crate::proofs::Exchanged::exchanging))]
fn exchange_at(tree: &mut WindowTree, name: u32, from: Operand, part: u32) -> bool
    requires { tree_size (tree_in tree.old) < 2 ^ 30 }
    ensures tree { exchanged_at name from (tree_in tree.old) part ≡ tree_if result (tree_in tree.new) }
    ensures nodes { (at_root : Bool) → InNodes at_root tree.old → InNodes at_root tree.new }
{
    match tree {
        WindowTree::Step { item, rest, .. } => {
            if part == 0 {
                let reads_it = item.reads(name);
                *item = item.map_operands(|operand| exchange(name, from, reads_it, operand));
                return true;
            }
            exchange_at(rest, name, from, part - 1)
        }
        WindowTree::Test { on, yes, no, .. } => {
            if part == 0 {
                *on = exchange(name, from, on.is_name(name), *on);
                return true;
            }
            let on_yes = part_count(yes);
            if part - 1 < on_yes {
                return exchange_at(yes, name, from, part - 1);
            }
            exchange_at(no, name, from, part - 1 - on_yes)
        }
        WindowTree::Node { below } => exchange_at(below, name, from, part),
        WindowTree::Exit { homes, .. } => {
            if part != 0 {
                return false;
            }
            let reads_it = homes_use(homes.as_slice(), name);
            map_homes(homes, |operand| exchange(name, from, reads_it, operand));
            true
        }
        WindowTree::Stop => false,
        WindowTree::Trap { .. } => false,
    }
}

/// The same below an item, which is a copy.
fn exchange_below(item: Item, rest: &mut WindowTree, part: u32) -> bool
    requires { tree_size (tree_in rest.old) < 2 ^ 30 }
    ensures tree { exchanged_below item (tree_in rest.old) part ≡ tree_if result (tree_in rest.new) }
    ensures nodes { (at_root : Bool) → InNodes at_root rest.old → InNodes at_root rest.new }
{
    match item {
        Item::Copy { dest, from } => exchange_at(rest, dest, from, part),
        Item::Bin { .. } | Item::Load { .. } | Item::Store { .. } => false,
        Item::Print { .. } | Item::Read { .. } | Item::More { .. } => false,
    }
}

/// The same below the copy with a number.
#[tactic(auto, using(crate::proofs::Exchanged::using_copies))]
pub(crate) fn use_at(tree: &mut WindowTree, copy: u32, part: u32) -> bool
    requires { tree_size (tree_in tree.old) < 2 ^ 30 }
    ensures tree { used_at (tree_in tree.old) copy part ≡ tree_if result (tree_in tree.new) }
    ensures nodes { (at_root : Bool) → InNodes at_root tree.old → InNodes at_root tree.new }
{
    match tree {
        WindowTree::Step { item, rest, .. } => {
            if copy != 0 {
                return use_at(rest, copy - 1, part.saturating_sub(1));
            }
            if part == 0 {
                return false;
            }
            exchange_below(*item, rest, part - 1)
        }
        WindowTree::Test { yes, no, .. } => {
            if copy == 0 {
                return false;
            }
            let on_yes = part_count(yes);
            let part = part.saturating_sub(1);
            if copy - 1 < on_yes {
                return use_at(yes, copy - 1, part);
            }
            use_at(no, copy - 1 - on_yes, part.saturating_sub(on_yes))
        }
        WindowTree::Node { below } => use_at(below, copy, part),
        WindowTree::Exit { .. } => false,
        WindowTree::Stop => false,
        WindowTree::Trap { .. } => false,
    }
}
