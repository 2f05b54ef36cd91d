//! The rows of all regions of a table.
ghost use Rattle.std.specs.Prelude.{◌≡◌, ◌+◌, ◌<◌, ◌≤◌, Some, length, slice_index, IfOk, OnOk};
ghost use Rattle.pc_word.specs.Ranges.{AreLimits};
ghost use Rattle.pc_table.specs.Table.{region_tree, table_tree};
ghost use Rattle.pc_table.specs.StoredTable.{table_of};
ghost use Rattle.pc_machine.specs.MachineCode.{rows_of};
ghost use Rattle.pc_emit.specs.Emitting.{region_forms, form_in, AreEmitted, AreForms};
ghost use Rattle.pc_emit.specs.models.Output.{bytes_of, EachCopy, OutputGrows};
ghost use Rattle.pc_emit.specs.models.Layout.{rows_end, forms_at, front_rows, rows_in, table_in, IsPlan};
ghost use Rattle.pc_emit.specs.models.Making.{bytes_in, IsOnTheWay, RegionMade, RowsReached};

use crate::error::EmitError;
use crate::form::RegionForm;
use crate::output::Output;
use crate::packed::{PackedSite, state_rows};
use crate::plain::tree_rows;
use crate::plan::{Plan, entries, root};
use pc_machine::TreeList;
use pc_table::{RegionTable, RegionTree};
use pc_word::{Limits, RowTree};
use std::alloc::{AllocError, Global};

/// The rows of a table's regions, each in its form.
///
/// The rows of regions stand in the order of the regions, and after them all those of the copies
/// that pass values from row to row. How many rows a region has follows from its form, so where each
/// begins is found before any row is made. Where region 0 is plain and the end of the program, it has
/// no row, and a leaf alone stands in front.
///
/// It fails where memory runs out, or the numbers of rows.
pub fn emit(
    alloc: Global,
    table: &RegionTable,
    forms: &[Option<RegionForm>],
    limits: Limits,
) -> Result<TreeList, EmitError>
    requires limits { AreLimits limits }
    requires count { length forms.now ≡ length table.now.regions }
    requires forms { AreForms (table_of table.now) limits (region_forms forms.now) }
    ensures { IfOk result (λ rows. AreEmitted (table_of table.now) forms.now limits (rows_of rows)) }
{
    let regions = table.regions.as_slice();
    let front = front_rows(alloc, &forms[0], &regions[0].tree)?;
    let entries = entries(alloc, regions, forms, front.len() as u32)?;
    let plan = Plan {
        table,
        forms,
        entries: entries.as_slice(),
        limits,
    };
    all_rows(alloc, &plan, front)
}

/// The rows of all regions after this one in front, and those of copies after them.
fn all_rows(alloc: Global, plan: &Plan, front: TreeList) -> Result<TreeList, EmitError>
    requires plan { IsPlan plan.now }
    requires front { rows_of front ≡ front_rows (region_tree (table_in plan.now) 0) (forms_at plan.now 0) }
    ensures { IfOk result (λ rows. AreEmitted (table_in plan.now) plan.now.forms.now plan.now.limits (rows_of rows)) }
{
    let mut output = Output {
        rows: front,
        copies: Vec::new(alloc),
        base: plan.entries[plan.forms.len()],
    };
    for region in 0..plan.forms.len() {
        region_rows(alloc, plan, region as u32, &plan.forms[region], &mut output)?;
    }
    output.all()
}

/// The leaf alone of a plain region that is a stop or a trap, and no row of another region.
fn front_rows(
    alloc: Global,
    form: &Option<RegionForm>,
    tree: &RegionTree,
) -> Result<TreeList, AllocError>
    ensures { IfOk result (λ rows. rows_of rows ≡ front_rows (table_tree tree.now) (form_in (Some form.now))) }
{
    let mut rows = TreeList::new(alloc);
    match form {
        None | Some(RegionForm::ByAutomaton { .. }) => {}
        Some(RegionForm::Plain) => match tree {
            RegionTree::Stop | RegionTree::Trap { .. } => {
                let leaf = root(tree, 0);
                rows.push(RowTree::Leaf { leaf })?;
            }
            RegionTree::Step { .. } | RegionTree::Test { .. } | RegionTree::Next { .. } => {}
        },
    }
    Ok(rows)
}

/// Appends the rows of a region to others.
#[tactic(auto, using(crate::proofs::Regions::regions))]
fn region_rows(
    alloc: Global,
    plan: &Plan,
    region: u32,
    form: &Option<RegionForm>,
    output: &mut Output,
) -> Result<(), EmitError>
    requires plan { IsPlan plan.now }
    requires base { output.old.base ≡ rows_end plan.now }
    requires form { forms_at plan.now region ≡ form_in (Some form.now) }
    requires there { region < length plan.now.table.now.regions }
    requires begins { length output.old.rows ≡ slice_index plan.now.entries.now region }
    ensures grows { OnOk result (OutputGrows output.old output.new) }
    ensures count { OnOk result (length output.new.rows ≡ length output.old.rows + rows_in (region_tree (table_in plan.now) region) (forms_at plan.now region)) }
    ensures made { OnOk result (RegionMade plan.now output.new region) }
    ensures ways { OnOk result (EachCopy (IsOnTheWay plan.now (RowsReached (length output.old.rows) (length output.new.rows))) output.old output.new) }
    ensures short { OnOk result (bytes_of (rows_of output.new.rows) + bytes_of (rows_of output.new.copies.items)
        ≤ bytes_of (rows_of output.old.rows) + bytes_of (rows_of output.old.copies.items) + bytes_in (region_tree (table_in plan.now) region) (forms_at plan.now region)) }
{
    match form {
        None => Ok(()),
        Some(RegionForm::Plain) => tree_rows(alloc, plan, plan.tree_of(region), output),
        Some(
            RegionForm::ByAutomaton {
                automaton,
                registers,
            },
        ) => {
            let site = PackedSite {
                region,
                first: plan.entries[region as usize],
                automaton,
                registers,
            };
            state_rows(alloc, plan, &site, output)
        }
    }
}
