//! What rows are made from, and where each region's begin.
ghost use Rattle.std.specs.Prelude.{◌≡◌, ◌+◌, ◌<◌, ◌^◌, IsSome, IfOk, Some, length};
ghost use Rattle.pc_table.specs.Table.{region_tree, table_tree};
ghost use Rattle.pc_table.specs.TableKeeps.{units};
ghost use Rattle.pc_emit.specs.Emitted.{LeadsToRegion, LeadsBehind, root_leaf};
ghost use Rattle.pc_emit.specs.Emitting.{HasForm, NamesHaveForms, form_in};
ghost use Rattle.pc_emit.specs.models.Layout.{emission_in, table_in, forms_at, IsPlan, leaf_in, rows_in, all_rows, entries_from};

use crate::form::RegionForm;
use pc_machine::Leaf;
use pc_table::{Region, RegionTable, RegionTree};
use pc_word::Limits;
use std::alloc::{AllocError, Global};

/// What rows are made from: the regions of a table, the form of each that has one, the row at which
/// each begins, and the limits that rows keep.
#[derive(Clone, Copy)]
pub(crate) struct Plan<'a> {
    pub(crate) table: &'a RegionTable,
    pub(crate) forms: &'a [Option<RegionForm>],
    pub(crate) entries: &'a [u32],
    pub(crate) limits: Limits,
}

impl<'a> Plan<'a> {
    /// The leaf that leads to a region: a goto to its first row, or the stop or trap that it is.
    #[tactic(auto, using(crate::proofs::Leads::leads))]
    pub(crate) fn leaf_to(&self, region: u32) -> Leaf
        requires plan { IsPlan self.now }
        requires form { HasForm (table_in self.now) (forms_at self.now) region }
        ensures { LeadsToRegion (emission_in self.now) region result }
    {
        let at = region as usize;
        beginning(&self.forms[at], self.tree_of(region), self.entries[at])
    }

    /// The tree of a region.
    #[tactic(auto, using(crate::proofs::Leads::trees))]
    pub(crate) fn tree_of(&self, region: u32) -> &'a RegionTree
        requires { region < length self.now.table.now.regions }
        ensures { table_tree result.now ≡ region_tree (table_in self.now) region }
    {
        &self.table.regions.as_slice()[region as usize].tree
    }

    /// The leaf that leads to what stands after an item or a test: to this row, or to the region that follows.
    #[tactic(auto, using(crate::proofs::Leads::leads))]
    pub(crate) fn leaf_behind(&self, tree: &RegionTree, row: u32) -> Leaf
        requires plan { IsPlan self.now }
        requires names { NamesHaveForms (table_in self.now) (forms_at self.now) (table_tree tree.now) }
        ensures { LeadsBehind (emission_in self.now) row (table_tree tree.now) result }
    {
        match tree {
            RegionTree::Next { region } => self.leaf_to(*region),
            RegionTree::Step { .. } | RegionTree::Test { .. } => Leaf::Goto { row },
            RegionTree::Stop => Leaf::Stop,
            RegionTree::Trap { kind, line } => Leaf::Trap {
                kind: *kind,
                line: *line,
            },
        }
    }
}

/// The leaf that leads to a region with this form and this tree that begins at this row.
fn beginning(form: &Option<RegionForm>, tree: &RegionTree, row: u32) -> Leaf
    requires { IsSome form.now }
    ensures { result ≡ leaf_in row (table_tree tree.now) form.now }
{
    match form {
        Some(RegionForm::Plain) => root(tree, row),
        Some(RegionForm::ByAutomaton { .. }) => Leaf::Goto { row },
        // Only a region that has a form is reachable.
        None => unreachable!(),
    }
}

/// The leaf that leads to the root of a tree that has this row: a goto, or the stop or trap that it is.
pub(crate) fn root(tree: &RegionTree, row: u32) -> Leaf
    ensures { result ≡ root_leaf row (table_tree tree.now) }
{
    match tree {
        RegionTree::Step { .. } | RegionTree::Test { .. } | RegionTree::Next { .. } => {
            Leaf::Goto { row }
        }
        RegionTree::Stop => Leaf::Stop,
        RegionTree::Trap { kind, line } => Leaf::Trap {
            kind: *kind,
            line: *line,
        },
    }
}

/// The row at which each region begins, the first of them at this one; and, last, the row after
/// them all.
pub(crate) fn entries(
    alloc: Global,
    regions: &[Region],
    forms: &[Option<RegionForm>],
    first: u32,
) -> Result<Vec<u32>, AllocError>
    requires count { length forms.now ≡ length regions.now }
    requires few { first + all_rows regions.now forms.now < 2 ^ 32 }
    ensures { IfOk result (λ entries. entries.items ≡ entries_from first regions.now forms.now) }
{
    let mut entries = Vec::new(alloc);
    let mut row = first;
    for at in 0..regions.len() {
        entries.push(row)?;
        row += rows_in(&regions[at].tree, &forms[at]);
    }
    entries.push(row)?;
    Ok(entries)
}

/// The rows of a region with this tree.
fn rows_in(tree: &RegionTree, form: &Option<RegionForm>) -> u32
    requires { rows_in (table_tree tree.now) (form_in (Some form.now)) < 2 ^ 32 }
    ensures { result ≡ rows_in (table_tree tree.now) (form_in (Some form.now)) }
{
    match form {
        None => 0,
        Some(RegionForm::Plain) => units(tree),
        Some(RegionForm::ByAutomaton { automaton, .. }) => automaton.count(),
    }
}

/// The items and tests of a tree.
pub(crate) fn units(tree: &RegionTree) -> u32
    requires { units (table_tree tree.now) < 2 ^ 32 }
    ensures { result ≡ units (table_tree tree.now) }
{
    match tree {
        RegionTree::Step { next, .. } => units(next) + 1,
        RegionTree::Test { yes, no, .. } => units(yes) + units(no) + 1,
        RegionTree::Next { .. } | RegionTree::Stop | RegionTree::Trap { .. } => 0,
    }
}
