//! Trees in numbers.
ghost use Rattle.std.specs.Prelude.{◌≡◌, ◌+◌, ◌-◌, ◌<◌, ◌^◌, ◌∷◌, ◌++◌, [], pos, length, OnOk, IfOk};
ghost use Rattle.pc_window.specs.Tree.{tree_size};
ghost use Rattle.pc_window.specs.Names.{definitions_of};
ghost use Rattle.pc_window.specs.Opening.{TreeBelow};
ghost use Rattle.pc_window.specs.StoredWindow.{tree_in, front_in};
ghost use Rattle.pc_canon.specs.Canonical.{placed_item, placed_homes};
ghost use Rattle.pc_canon.specs.Key.{trap_number, list_numbers, operand_numbers, item_numbers, home_numbers, shape_numbers};
ghost use Rattle.pc_canon.specs.models.Written.{place_at, written};
ghost use Rattle.pc_word.specs.Naming.{map_name};

use crate::number_bytes::NumberBytes;
use pc_window::{Home, NumberList, WindowTree};
use pc_word::{Item, Operand, TrapKind};
use std::alloc::AllocError;

/// Writes a tree with tags counted from the first, where the names on the path have these levels: how
/// many there were from each on. The levels of what is defined on the path come and go with it. The names
/// that it defines are put behind those that were defined before, in preorder.
pub(crate) fn write_tree(
    tree: &WindowTree,
    first: u32,
    depth: u32,
    levels: &mut [u32],
    defined: &mut NumberList,
    numbers: &mut NumberBytes,
) -> Result<(), AllocError>
    requires below { TreeBelow (length levels.old) (tree_in tree.now) }
    requires room { depth + tree_size (tree_in tree.now) < 2 ^ 32 }
    ensures levels { OnOk result (levels.new ≡ levels.old) }
    ensures defined { OnOk result (defined.new ≡ defined.old ++ definitions_of (tree_in tree.now)) }
    ensures numbers { OnOk result (numbers.new ≡ numbers.old ++ written first depth levels.old (tree_in tree.now)) }
{
    match tree {
        WindowTree::Step {
            tag,
            origin,
            item,
            rest,
        } => {
            numbers.push_three(0, tag_number(*tag, first), i64::from(*origin))?;
            write_item(*item, depth, levels, numbers)?;
            match item.dest() {
                None => write_tree(rest, first, depth, levels, defined, numbers)?,
                Some(dest) => {
                    defined.push(dest)?;
                    let before = levels[dest as usize];
                    levels[dest as usize] = depth + 1;
                    write_tree(rest, first, depth + 1, levels, defined, numbers)?;
                    levels[dest as usize] = before;
                }
            }
            Ok(())
        }
        WindowTree::Test {
            tag,
            origin,
            on,
            yes,
            no,
        } => {
            numbers.push_three(1, tag_number(*tag, first), i64::from(*origin))?;
            write_operand(*on, depth, levels, numbers)?;
            write_tree(yes, first, depth, levels, defined, numbers)?;
            write_tree(no, first, depth, levels, defined, numbers)?;
            Ok(())
        }
        WindowTree::Node { below } => { write_tree(below, first, depth, levels, defined, numbers) }
        WindowTree::Exit { region, tag, homes } => {
            numbers.push_three(2, i64::from(*region), tag_number(*tag, first))?;
            write_homes(homes.as_slice(), depth, levels, numbers)
        }
        WindowTree::Stop => numbers.push(3),
        WindowTree::Trap { kind, line } => {
            numbers.push_three(4, trap_number(*kind), i64::from(*line))
        }
    }
}

/// Writes how far the front of a tree goes.
pub(crate) fn write_shape(tree: &WindowTree, numbers: &mut NumberBytes) -> Result<(), AllocError>
    ensures { OnOk result (numbers.new ≡ numbers.old ++ shape_numbers (front_in tree.now)) }
{
    match tree {
        WindowTree::Step { rest, .. } => {
            numbers.push(0)?;
            write_shape(rest, numbers)
        }
        WindowTree::Test { yes, no, .. } => {
            numbers.push(1)?;
            write_shape(yes, numbers)?;
            write_shape(no, numbers)
        }
        _ => numbers.push(2),
    }
}

/// Writes an item but for the name that it writes.
fn write_item(
    item: Item,
    depth: u32,
    levels: &[u32],
    numbers: &mut NumberBytes,
) -> Result<(), AllocError>
    ensures { OnOk result (numbers.new ≡ numbers.old ++ item_numbers (placed_item (place_at levels.now depth) item)) }
{
    match item {
        Item::Bin {
            op,
            left,
            right,
            ..
        } => {
            numbers.push_two(0, i64::from(op.number()))?;
            write_operand(left, depth, levels, numbers)?;
            write_operand(right, depth, levels, numbers)
        }
        Item::Copy { from, .. } => {
            numbers.push(1)?;
            write_operand(from, depth, levels, numbers)
        }
        Item::Load { array, index, .. } => {
            numbers.push_two(2, i64::from(array))?;
            write_operand(index, depth, levels, numbers)
        }
        Item::Store {
            array,
            index,
            value,
        } => {
            numbers.push_two(3, i64::from(array))?;
            write_operand(index, depth, levels, numbers)?;
            write_operand(value, depth, levels, numbers)
        }
        Item::Print { value } => {
            numbers.push(4)?;
            write_operand(value, depth, levels, numbers)
        }
        Item::Read { .. } => numbers.push(5),
        Item::More { .. } => numbers.push(6),
    }
}

/// Writes homes.
fn write_homes(
    homes: &[Home],
    depth: u32,
    levels: &[u32],
    numbers: &mut NumberBytes,
) -> Result<(), AllocError>
    ensures { OnOk result (numbers.new ≡ numbers.old ++ list_numbers home_numbers (placed_homes (place_at levels.now depth) homes.now)) }
{
    for home in homes {
        numbers.push_two(1, i64::from(home.variable))?;
        write_operand(home.value, depth, levels, numbers)?;
    }
    numbers.push(0)
}

/// Writes an operand: a name as its place among the names.
#[inline(always)]
fn write_operand(
    operand: Operand,
    depth: u32,
    levels: &[u32],
    numbers: &mut NumberBytes,
) -> Result<(), AllocError>
    ensures { OnOk result (numbers.new ≡ numbers.old ++ operand_numbers (map_name (place_at levels.now depth) operand)) }
{
    match operand {
        Operand::Name(name) => { numbers.push_two(0, i64::from(place_at(levels, depth, name))) }
        Operand::Lit(value) => numbers.push_two(1, i64::from(value)),
    }
}

/// The place of a name among so many.
fn place_at(levels: &[u32], depth: u32, name: u32) -> u32
    ensures { result ≡ place_at levels.now depth name }
{
    match levels.get(name as usize) {
        Some(level) => depth.saturating_sub(*level),
        None => depth,
    }
}

/// A tag, counted from the first.
fn tag_number(tag: u32, first: u32) -> i64
    ensures { result ≡ pos (tag - first) }
{
    i64::from(tag.saturating_sub(first))
}

/// The number of a kind of trap.
fn trap_number(kind: TrapKind) -> i64
    ensures { result ≡ pos (trap_number kind) }
{
    match kind {
        TrapKind::DivideByZero => 0,
        TrapKind::OutOfBounds => 1,
        TrapKind::EndOfInput => 2,
    }
}
