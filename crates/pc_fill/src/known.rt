//! The names that are known before a window: in a table by name, and at a place, by what stands above it.
ghost use Rattle.std.specs.Prelude.{◌≡◌, ◌↔◌, ◌<◌, ◌≤◌, true, false, length, IfOk};
ghost use Rattle.std.specs.List.{AllByRecursion};
ghost use Rattle.pc_word.specs.Items.{operand_list};
ghost use Rattle.pc_window.specs.Names.{IsKnown, ReadsKnown, uses, parameters_of};
ghost use Rattle.pc_window.specs.Steps.{IsProper};
ghost use Rattle.pc_window.specs.Tree.{whole};
ghost use Rattle.pc_window.specs.StoredWindow.{tree_in, window_in};
ghost use Rattle.pc_fill.specs.models.Places.{known_in, unwritten_above};
ghost use Rattle.pc_fill.specs.models.Known.{with_name, with_names};

use crate::readiness::size_up_to;
use pc_window::{Window, WindowTree};
use pc_word::{Item, Operand, Operands};
use std::alloc::{AllocError, Global};

/// Whether an operand is known.
pub(crate) fn is_known(known: &[bool], operand: Operand) -> bool
    ensures { (result ≡ true) ↔ IsKnown (known_in known.now) operand }
{
    match operand {
        Operand::Name(name) => match known.get(name as usize) {
            Some(is_known) => *is_known,
            None => false,
        },
        Operand::Lit(_) => true,
    }
}

/// Whether two operands are known.
fn are_known(known: &[bool], one: Operand, other: Operand) -> bool
    ensures { (result ≡ true) ↔ (IsKnown (known_in known.now) one × IsKnown (known_in known.now) other) }
{
    if !is_known(known, one) {
        return false;
    }
    is_known(known, other)
}

/// Whether each operand of an item is known.
pub(crate) fn reads_known(known: &[bool], item: Item) -> bool
    ensures { (result ≡ true) ↔ ReadsKnown (known_in known.now) item }
{
    match item {
        Item::Bin { left, right, .. } => are_known(known, left, right),
        Item::Copy { from, .. } => is_known(known, from),
        Item::Load { index, .. } => is_known(known, index),
        Item::Store { index, value, .. } => are_known(known, index, value),
        Item::Print { value } => is_known(known, value),
        Item::Read { .. } => true,
        Item::More { .. } => true,
    }
}

/// Whether no item above a place of a tree writes a name.
#[tactic(auto, using(crate::proofs::AtPlaces::unwritten))]
fn is_unwritten_above(tree: &WindowTree, place: u32, name: u32) -> bool
    ensures { result ≡ unwritten_above (tree_in tree.now) place name }
{
    if place == 0 {
        return true;
    }
    match tree {
        WindowTree::Step { item, rest, .. } => {
            if item.writes(name) {
                return false;
            }
            is_unwritten_above(rest, place - 1, name)
        }
        WindowTree::Test { yes, no, .. } => {
            let on_yes = size_up_to(yes, place);
            if place - 1 < on_yes {
                return is_unwritten_above(yes, place - 1, name);
            }
            is_unwritten_above(no, place - 1 - on_yes, name)
        }
        WindowTree::Node { below } => is_unwritten_above(below, place, name),
        WindowTree::Exit { .. } => true,
        WindowTree::Stop => true,
        WindowTree::Trap { .. } => true,
    }
}

/// Whether an operand that is read at a place of a window is known before the window: no item above
/// writes it.
fn is_known_at(tree: &WindowTree, place: u32, operand: Operand) -> bool
    ensures { (result ≡ true) ↔ IsKnown (unwritten_above (tree_in tree.now) place) operand }
{
    match operand {
        Operand::Name(name) => is_unwritten_above(tree, place, name),
        Operand::Lit(_) => true,
    }
}

/// Whether all operands that are read at a place of a window are known before the window.
pub(crate) fn are_known_at(tree: &WindowTree, place: u32, operands: Operands) -> bool
    ensures { (result ≡ true) ↔ AllByRecursion (IsKnown (unwritten_above (tree_in tree.now) place)) (operand_list operands) }
{
    match operands {
        Operands::None => true,
        Operands::One(one) => is_known_at(tree, place, one),
        Operands::Two(one, other) => {
            if !is_known_at(tree, place, one) {
                return false;
            }
            is_known_at(tree, place, other)
        }
    }
}

/// Marks a name.
#[tactic(auto, using(crate::proofs::Marks::marks))]
fn mark(table: &mut [bool], name: u32)
    requires { name < length table.old }
    ensures { known_in table.new ≡ with_name name (known_in table.old) }
{
    table[name as usize] = true;
}

/// Marks names.
#[tactic(auto, using(crate::proofs::Marks::marks))]
fn mark_names(table: &mut [bool], names: &[u32])
    requires { AllByRecursion (λ name. name < length table.old) names.now }
    ensures { known_in table.new ≡ with_names names.now (known_in table.old) }
{
    for at in 0..names.len() {
        mark(table, names[at]);
    }
}

/// The names that are known before a window, its parameters, in a table by name.
pub(crate) fn known_names(
    alloc: Global,
    window: &Window,
    parameters: &[u32],
) -> Result<Vec<bool>, AllocError>
    requires proper { IsProper (window_in window.now) }
    requires parameters { parameters.now ≡ parameters_of (whole (window_in window.now).front) }
    ensures { IfOk result (λ table. known_in table.items ≡ uses (whole (window_in window.now).front)) }
{
    let mut table = vec![in alloc; false; window.names.forms.len()]?;
    mark_names(&mut table, parameters);
    Ok(table)
}
