//! What the leaves of states pass to later states.
ghost use Rattle.std.specs.Prelude.{◌≡◌, ◌+◌, ◌<◌, ℕ, map, IfOk, OnOk};
ghost use Rattle.pc_assign.specs.Assigned.{operand_register};
ghost use Rattle.pc_assign.specs.Stored.{beside};
ghost use Rattle.pc_assign.specs.models.Passing.{Notes, NotesFirst};
ghost use Rattle.pc_word.specs.Row.{At_leaf};
ghost use Rattle.pc_word.specs.StoredRow.{row_in};

use crate::assigned::StateRegisters;
use pc_automaton::AutomatonLeaf;
use pc_short::ShortSeq;
use pc_word::{Operand, RowTree};
use std::alloc::{AllocError, Global};

/// The registers of what is passed to a state, in the order of its parameters, where they are names.
/// A state of a usual loop has some eight.
pub(crate) type PassedList = ShortSeq<Option<u32>, 8>;

/// Notes what the leaves of a row pass, for each state the first leaf alone.
pub(crate) fn note(
    alloc: Global,
    registers: &StateRegisters,
    row: &RowTree<AutomatonLeaf>,
    table: &mut [Option<PassedList>],
) -> Result<(), AllocError>
    ensures { OnOk result (Notes (beside registers.now.names.keys registers.now.registers) (row_in (λ leaf. leaf) row.now) table.old table.new) }
{
    match row {
        RowTree::Step { next, .. } => note(alloc, registers, next, table),
        RowTree::Test { yes, no, .. } => {
            note(alloc, registers, yes, table)?;
            note(alloc, registers, no, table)
        }
        RowTree::Leaf { leaf } => note_leaf(alloc, registers, leaf, table),
    }
}

/// Notes what a leaf passes.
fn note_leaf(
    alloc: Global,
    registers: &StateRegisters,
    leaf: &AutomatonLeaf,
    table: &mut [Option<PassedList>],
) -> Result<(), AllocError>
    ensures { OnOk result (Notes (beside registers.now.names.keys registers.now.registers) (At_leaf leaf.now) table.old table.new) }
{
    match leaf {
        AutomatonLeaf::To { state, arguments } => {
            note_first(alloc, registers, *state, arguments.as_slice(), table)
        }
        AutomatonLeaf::Out { .. } => Ok(()),
        AutomatonLeaf::Stop => Ok(()),
        AutomatonLeaf::Trap { .. } => Ok(()),
    }
}

/// Notes what is passed to a state, if nothing is noted for it.
fn note_first(
    alloc: Global,
    registers: &StateRegisters,
    state: u32,
    arguments: &[Operand],
    table: &mut [Option<PassedList>],
) -> Result<(), AllocError>
    ensures { OnOk result (NotesFirst state
        (map (operand_register (beside registers.now.names.keys registers.now.registers)) arguments.now) table.old table.new) }
{
    let at = state as usize;
    if let Some(None) = table.get(at) {
        table[at] = Some(passed_registers(alloc, registers, arguments)?);
    }
    Ok(())
}

/// The registers of arguments, where they are names.
fn passed_registers(
    alloc: Global,
    registers: &StateRegisters,
    arguments: &[Operand],
) -> Result<PassedList, AllocError>
    ensures { IfOk result (λ passed. passed ≡ map (operand_register (beside registers.now.names.keys registers.now.registers)) arguments.now) }
{
    let mut passed = PassedList::with_capacity(alloc, arguments.len())?;
    for at in 0..arguments.len() {
        passed.push(registers.register_of(arguments[at]))?;
    }
    Ok(passed)
}
