//! Rows of the machine, from their parts.
ghost use Rattle.std.specs.Prelude.{◌≡◌, IfOk};
ghost use Rattle.pc_word.specs.Row.{Then, Either};
ghost use Rattle.pc_machine.specs.MachineCode.{row_of};

use pc_machine::Tree;
use pc_word::{Item, Operand, RowTree};
use std::alloc::{AllocError, Global};

/// An item, and what stands below it.
pub(crate) fn with_item(alloc: Global, item: Item, next: Tree) -> Result<Tree, AllocError>
    ensures { IfOk result (λ tree. row_of tree ≡ Then item (row_of next)) }
{
    let next = Box::new(alloc, next)?;
    Ok(RowTree::Step { item, next })
}

/// A test, and its two sides.
pub(crate) fn with_test(alloc: Global, on: Operand, yes: Tree, no: Tree) -> Result<Tree, AllocError>
    ensures { IfOk result (λ tree. row_of tree ≡ Either on (row_of yes) (row_of no)) }
{
    let yes = Box::new(alloc, yes)?;
    let no = Box::new(alloc, no)?;
    Ok(RowTree::Test { on, yes, no })
}
