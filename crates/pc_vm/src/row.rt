//! One row: its path is planned, and then faults or is done.
ghost use Rattle.std.specs.Prelude.{◌≡◌, ◌+◌, ◌≤◌, length, IsTrue};
ghost use Rattle.std.specs.List.{count_by};
ghost use Rattle.pc_machine.specs.MachineCode.{row_of};
ghost use Rattle.pc_word.specs.Row.{path_of, leaf_of, row_step};
ghost use Rattle.pc_word.specs.Items.{is_effect};
ghost use Rattle.pc_vm.specs.Contents.{names_of, state_of};
ghost use Rattle.pc_vm.specs.models.Made.{lengths_of};
ghost use Rattle.pc_vm.specs.models.Planned.{nothing_planned, planned_by};
ghost use Rattle.pc_vm.specs.models.RowResult.{IsRunnable, longest, outcome_of, KeepsOnFault};
ghost use Rattle.pc_word.specs.MachineLimits.{most_ops};
ghost use Rattle.pc_machine.specs.Registers.{most_registers};

use crate::pending::Pending;
use crate::values::Values;
use pc_machine::{Leaf, Tree};
use pc_word::{MachineFault, RowTree};

/// What a row did.
#[derive(Clone, Copy, Debug)]
pub(crate) enum RowResult {
    /// Nothing, for this fault.
    Faulted { fault: MachineFault },
    /// All the items of its path to this leaf, of which one printed this number, if any.
    Done { printed: Option<i32>, leaf: Leaf },
}

/// Plans the items of the path that the values take through a tree, and gives its leaf.
pub(crate) fn plan(tree: &Tree, values: &Values, pending: &mut Pending) -> Leaf
    requires row { IsRunnable (length values.now.cells) (row_of tree.now) }
    requires writes { length pending.old.writes + longest (row_of tree.now) ≤ most_ops }
    requires stores { length pending.old.stores + longest (row_of tree.now) ≤ most_ops }
    ensures leaf { result ≡ leaf_of (names_of values.now.registers) (row_of tree.now) }
    ensures planned { pending.new ≡ planned_by (lengths_of values.now.cells) (state_of values.now) (path_of (names_of values.now.registers) (row_of tree.now)) pending.old }
{
    match tree {
        RowTree::Step { item, next } => {
            pending.add(values, item);
            plan(next, values, pending)
        }
        RowTree::Test { on, yes, no } => {
            if values.operand(on) != 0 {
                plan(yes, values, pending)
            } else {
                plan(no, values, pending)
            }
        }
        RowTree::Leaf { leaf } => *leaf,
    }
}

/// Runs a row on the values. The plan is empty before and after.
pub(crate) fn run_row(tree: &Tree, values: &mut Values, pending: &mut Pending) -> RowResult
    requires row { IsRunnable (length values.old.cells) (row_of tree.now) }
    requires short { longest (row_of tree.now) ≤ most_ops }
    requires one_effect { count_by is_effect (path_of (names_of values.old.registers) (row_of tree.now)) ≤ 1 }
    requires registers { length values.old.registers ≡ most_registers }
    requires empty { pending.old ≡ nothing_planned }
    ensures step { outcome_of result (state_of values.new) ≡ row_step (lengths_of values.old.cells) (row_of tree.now) (state_of values.old) }
    ensures fault { KeepsOnFault result values.old values.new }
    ensures registers { length values.new.registers ≡ most_registers }
    ensures lengths { lengths_of values.new.cells ≡ lengths_of values.old.cells }
    ensures planned { pending.new ≡ nothing_planned }
{
    let leaf = plan(tree, values, pending);
    if let Some(fault) = pending.fault(values.some_left()) {
        pending.clear();
        return RowResult::Faulted { fault };
    }
    let printed = pending.commit(values);
    RowResult::Done { printed, leaf }
}
