//! One name in place of another, in all that is read.
ghost use Rattle.std.specs.Prelude.{◌≡◌};
ghost use Rattle.pc_window.specs.Rename.{map_homes};
ghost use Rattle.pc_moveop.specs.NodeTree.{nodes_in};
ghost use Rattle.pc_moveop.specs.Taking.{nodes_mapped};
ghost use Rattle.pc_word.specs.Naming.{map_operands, renamed};

use pc_window::{HomeList, WindowTree, map_homes};
use pc_word::{Item, Operand};

/// An operand with one name in place of another, where there are two.
fn renamed_operand(operand: Operand, old: Option<u32>, new: Option<u32>) -> Operand
    ensures { result ≡ renamed old new operand }
{
    let Some(old) = old else {
        return operand;
    };
    let Some(new) = new else {
        return operand;
    };
    operand.map_name(|name| if old == name { new } else { name })
}

/// An item that reads one name in place of another.
fn renamed_item(item: Item, old: Option<u32>, new: Option<u32>) -> Item
    ensures { result ≡ map_operands (renamed old new) item }
{
    item.map_operands(|operand| renamed_operand(operand, old, new))
}

/// Homes that read one name in place of another.
fn rename_homes(homes: &mut HomeList, old: Option<u32>, new: Option<u32>)
    ensures { homes.new ≡ map_homes (renamed old new) homes.old }
{
    map_homes(homes, |value| renamed_operand(value, old, new));
}

/// A tree that reads one name in place of another.
pub(crate) fn rename(tree: &mut WindowTree, old: Option<u32>, new: Option<u32>)
    ensures { nodes_in tree.new ≡ nodes_mapped (renamed old new) (nodes_in tree.old) }
{
    match tree {
        WindowTree::Step { item, rest, .. } => {
            *item = renamed_item(*item, old, new);
            rename(rest, old, new);
        }
        WindowTree::Test { on, yes, no, .. } => {
            *on = renamed_operand(*on, old, new);
            rename(yes, old, new);
            rename(no, old, new);
        }
        WindowTree::Node { below } => rename(below, old, new),
        WindowTree::Exit { homes, .. } => rename_homes(homes, old, new),
        WindowTree::Stop => {}
        WindowTree::Trap { .. } => {}
    }
}
