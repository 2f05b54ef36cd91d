//! The rows of plain regions: one for each item and test.
ghost use Rattle.std.specs.Prelude.{◌≡◌, ◌+◌, ◌≤◌, length, OnOk};
ghost use Rattle.pc_table.specs.Table.{table_tree};
ghost use Rattle.pc_table.specs.TableKeeps.{units};
ghost use Rattle.pc_machine.specs.MachineCode.{rows_of};
ghost use Rattle.pc_emit.specs.Bytes.{tree_bytes};
ghost use Rattle.pc_emit.specs.Emitting.{NamesHaveForms};
ghost use Rattle.pc_emit.specs.models.Output.{bytes_of, OutputGrows};
ghost use Rattle.pc_emit.specs.models.Layout.{rows_end, forms_at, table_in, IsPlan};
ghost use Rattle.pc_emit.specs.models.Making.{TreeMade};

use crate::error::EmitError;
use crate::output::Output;
use crate::plan::{Plan, units};
use crate::trees::{with_item, with_test};
use pc_table::RegionTree;
use pc_word::RowTree;
use std::alloc::Global;

/// Appends the rows of a tree to others.
///
/// The items and tests on the yes side of each test are counted, so it takes time in proportion to
/// the square of a tree at most, which is small.
#[tactic(auto, using(crate::proofs::Plains::trees, crate::proofs::Passings::passings))]
pub(crate) fn tree_rows(
    alloc: Global,
    plan: &Plan,
    tree: &RegionTree,
    output: &mut Output,
) -> Result<(), EmitError>
    requires plan { IsPlan plan.now }
    requires names { NamesHaveForms (table_in plan.now) (forms_at plan.now) (table_tree tree.now) }
    requires few { length output.old.rows + units (table_tree tree.now) ≤ rows_end plan.now }
    ensures grows { OnOk result (OutputGrows output.old output.new) }
    ensures count { OnOk result (length output.new.rows ≡ length output.old.rows + units (table_tree tree.now)) }
    ensures copies { OnOk result (output.new.copies.items ≡ output.old.copies.items) }
    ensures made { OnOk result (TreeMade plan.now output.new (length output.old.rows) (table_tree tree.now)) }
    ensures short { OnOk result (bytes_of (rows_of output.new.rows) ≤ bytes_of (rows_of output.old.rows) + tree_bytes (table_tree tree.now)) }
{
    match tree {
        RegionTree::Step { item, next, .. } => {
            let next: &RegionTree = next;
            let behind = output.rows.len() as u32 + 1;
            let leaf = plan.leaf_behind(next, behind);
            output.push_row(with_item(alloc, *item, RowTree::Leaf { leaf })?)?;
            tree_rows(alloc, plan, next, output)
        }
        RegionTree::Test { on, yes, no, .. } => {
            let yes: &RegionTree = yes;
            let no: &RegionTree = no;
            let behind = output.rows.len() as u32 + 1;
            let yes_leaf = plan.leaf_behind(yes, behind);
            let no_leaf = plan.leaf_behind(no, behind + units(yes));
            let on_yes = RowTree::Leaf { leaf: yes_leaf };
            let on_no = RowTree::Leaf { leaf: no_leaf };
            output.push_row(with_test(alloc, *on, on_yes, on_no)?)?;
            tree_rows(alloc, plan, yes, output)?;
            tree_rows(alloc, plan, no, output)
        }
        RegionTree::Next { .. } | RegionTree::Stop | RegionTree::Trap { .. } => Ok(()),
    }
}
