//! By which leaf a row is left.
ghost use Rattle.std.specs.Prelude.{◌≡◌, ◌<◌, ◌^◌, length};
ghost use Rattle.pc_word.specs.Row.{leaves_of};
ghost use Rattle.pc_machine.specs.MachineCode.{row_of};
ghost use Rattle.pc_vm.specs.Contents.{names_of};
ghost use Rattle.pc_vm.specs.Exits.{exit_number};
ghost use Rattle.pc_vm.specs.models.RowResult.{IsRunnable};

use crate::values::Values;
use pc_machine::{Tree, leaf_count};
use pc_word::RowTree;

/// Where a cycle leaves its row: the row, and the leaf, by its number in preorder from 0.
#[derive(Clone, Copy, Debug, PartialEq, Eq)]
pub struct Exit {
    pub row: usize,
    pub leaf: usize,
}

/// The number of the leaf to which the values lead through a tree. Leaves are numbered from 0, in
/// preorder.
pub(crate) fn exit_number(tree: &Tree, values: &Values) -> usize
    requires row { IsRunnable (length values.now.cells) (row_of tree.now) }
    requires few { length (leaves_of (row_of tree.now)) < 2 ^ 64 }
    ensures number { result ≡ exit_number (names_of values.now.registers) (row_of tree.now) }
    ensures within { result < length (leaves_of (row_of tree.now)) }
{
    match tree {
        RowTree::Step { next, .. } => exit_number(next, values),
        RowTree::Test { on, yes, no } => {
            if values.operand(on) != 0 {
                exit_number(yes, values)
            } else {
                leaf_count(yes) + exit_number(no, values)
            }
        }
        RowTree::Leaf { .. } => 0,
    }
}
