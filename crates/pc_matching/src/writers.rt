//! The first writers of the names that a path writes, and what a value is in after it.
ghost use Rattle.std.specs.Prelude.{◌≡◌, ◌++◌, OnOk, IfOk};
ghost use Rattle.std.specs.List.{flat_map};
ghost use Rattle.pc_word.specs.Items.{dest_of};
ghost use Rattle.pc_matching.specs.FactsAfter.{some_writes, with_writer, first_writers, if_unchanged, copy_of, same_after};

use crate::fact::{ItemList, OperandList};
use crate::matching::same_operand;
use pc_word::{Item, Operand};
use std::alloc::{AllocError, Global};

/// Whether an item of a path writes this name.
fn some_writes(items: &[Item], name: u32) -> bool
    ensures { result ≡ some_writes items.now name }
{
    items.iter().any(|item| item.writes(name))
}

/// Appends an item, if it writes a name that none of them writes.
fn push_writer(writers: &mut ItemList, item: Item) -> Result<(), AllocError>
    ensures { OnOk result (writers.new ≡ with_writer writers.old item (dest_of item)) }
{
    match item.dest() {
        Some(name) => {
            if some_writes(writers.as_slice(), name) {
                return Ok(());
            }
            writers.push(item)
        }
        None => Ok(()),
    }
}

/// The first writer of each name that a path writes.
pub(crate) fn first_writers(alloc: Global, items: &[Item]) -> Result<ItemList, AllocError>
    ensures { IfOk result (λ writers. writers ≡ first_writers items.now) }
{
    let mut writers = ItemList::new(alloc);
    for item in items {
        push_writer(&mut writers, *item)?;
    }
    Ok(writers)
}

/// Appends an operand, if none of these items writes it.
fn push_unchanged(
    operands: &mut OperandList,
    writers: &[Item],
    operand: Operand,
) -> Result<(), AllocError>
    ensures { OnOk result (operands.new ≡ operands.old ++ if_unchanged writers.now operand) }
{
    match operand {
        Operand::Name(name) => {
            if some_writes(writers, name) {
                return Ok(());
            }
            operands.push(operand)
        }
        Operand::Lit(_) => operands.push(operand),
    }
}

/// Appends the name of an item that copies an operand.
fn push_copy(operands: &mut OperandList, from: Operand, item: Item) -> Result<(), AllocError>
    ensures { OnOk result (operands.new ≡ operands.old ++ copy_of from item) }
{
    match item {
        Item::Copy { dest, from: copied } => {
            if same_operand(copied, from) {
                return operands.push(Operand::Name(dest));
            }
            Ok(())
        }
        _ => Ok(()),
    }
}

/// Appends the names of items that copy an operand.
fn push_copies(
    operands: &mut OperandList,
    from: Operand,
    writers: &[Item],
) -> Result<(), AllocError>
    ensures { OnOk result (operands.new ≡ operands.old ++ flat_map (copy_of from) writers.now) }
{
    for item in writers {
        push_copy(operands, from, *item)?;
    }
    Ok(())
}

/// The operands that have, after these items, the value that an operand had before them.
pub(crate) fn same_after(
    alloc: Global,
    writers: &[Item],
    operand: Operand,
) -> Result<OperandList, AllocError>
    ensures { IfOk result (λ operands. operands ≡ same_after writers.now operand) }
{
    let mut operands = OperandList::new(alloc);
    push_unchanged(&mut operands, writers, operand)?;
    push_copies(&mut operands, operand, writers)?;
    Ok(operands)
}
