//! Trees with new names.
ghost use Rattle.std.specs.Prelude.{◌≡◌, Bool};
ghost use Rattle.pc_window.specs.StoredWindow.{tree_in, InNodes};
ghost use Rattle.pc_canon.specs.Canonical.{placed_homes};
ghost use Rattle.pc_renumber.specs.Renumbering.{renumbered_tree};
ghost use Rattle.pc_renumber.specs.models.Numbering.{number_in};
ghost use Rattle.pc_word.specs.Naming.{map_name, map_names};

use pc_window::{HomeList, WindowTree, map_homes};
use pc_word::{Item, Operand};

/// Gives the names of a tree their new numbers.
pub(crate) fn renumber_tree(tree: &mut WindowTree, numbers: &[Option<u32>])
    ensures tree { tree_in tree.new ≡ renumbered_tree (number_in numbers.now) (tree_in tree.old) }
    ensures nodes { (at_root : Bool) → InNodes at_root tree.old → InNodes at_root tree.new }
{
    match tree {
        WindowTree::Step { item, rest, .. } => {
            *item = renumbered_item(*item, numbers);
            renumber_tree(rest, numbers);
        }
        WindowTree::Test { on, yes, no, .. } => {
            *on = renumbered_operand(*on, numbers);
            renumber_tree(yes, numbers);
            renumber_tree(no, numbers);
        }
        WindowTree::Node { below } => renumber_tree(below, numbers),
        WindowTree::Exit { homes, .. } => renumber_homes(homes, numbers),
        WindowTree::Stop => {}
        WindowTree::Trap { .. } => {}
    }
}

/// An item that reads and writes the new names.
fn renumbered_item(item: Item, numbers: &[Option<u32>]) -> Item
    ensures { result ≡ map_names (number_in numbers.now) item }
{
    let item = item.map_operands(|operand| renumbered_operand(operand, numbers));
    item.map_dest(|name| number_in(numbers, name))
}

/// Gives the names that homes read their new numbers.
fn renumber_homes(homes: &mut HomeList, numbers: &[Option<u32>])
    ensures { homes.new ≡ placed_homes (number_in numbers.now) homes.old }
{
    map_homes(homes, |value| renumbered_operand(value, numbers));
}

/// An operand with the new name.
fn renumbered_operand(operand: Operand, numbers: &[Option<u32>]) -> Operand
    ensures { result ≡ map_name (number_in numbers.now) operand }
{
    operand.map_name(|name| number_in(numbers, name))
}

/// The new number of a name, and 0 where it has none.
fn number_in(numbers: &[Option<u32>], name: u32) -> u32
    ensures { result ≡ number_in numbers.now name }
{
    match numbers.get(name as usize) {
        Some(Some(number)) => *number,
        Some(None) => 0,
        None => 0,
    }
}
