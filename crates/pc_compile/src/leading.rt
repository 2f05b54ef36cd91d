//! The regions that a region leads to in a form.
ghost use Rattle.std.specs.Prelude.{◌<◌, ◌^◌, length, OnOk};
ghost use Rattle.std.specs.List.{AllByRecursion, flat_map};
ghost use Rattle.pc_word.specs.Row.{leaves_of};
ghost use Rattle.pc_table.specs.Table.{table_tree};
ghost use Rattle.pc_automaton.specs.Automaton.{states_in};
ghost use Rattle.pc_emit.specs.Leading.{tree_leads, leaf_leads, states_lead, form_leads};
ghost use Rattle.pc_compile.specs.models.Leaves.{LeavesKeep};
ghost use Rattle.pc_compile.specs.models.Marked.{Finds, NamesBelow, LeadsBelow};
ghost use Rattle.pc_compile.specs.models.Giving.{form_of, HasNumbers, FormLeadsBelow};
ghost use Rattle.pc_word.specs.StoredRow.{row_in};

use crate::found::Found;
use pc_automaton::{Automaton, AutomatonLeaf};
use pc_emit::RegionForm;
use pc_table::RegionTree;
use pc_word::RowTree;
use std::alloc::AllocError;

/// Finds the regions that a region with this tree leads to in a form.
pub(crate) fn find_behind(
    tree: &RegionTree,
    form: &RegionForm,
    found: &mut Found,
) -> Result<(), AllocError>
    requires numbers { HasNumbers form.now }
    requires there { FormLeadsBelow (length found.old.marks) (table_tree tree.now) (form_of form.now) }
    ensures { OnOk result (Finds (form_leads (table_tree tree.now) (form_of form.now)) found.old found.new) }
{
    match form {
        RegionForm::Plain => find_named(tree, found),
        RegionForm::ByAutomaton { automaton, .. } => find_led_out(automaton, found),
    }
}

/// Finds the regions that a tree names, the yes side of a test first.
#[tactic(auto, using(crate::proofs::Finding::finding))]
fn find_named(tree: &RegionTree, found: &mut Found) -> Result<(), AllocError>
    requires { NamesBelow (length found.old.marks) (table_tree tree.now) }
    ensures { OnOk result (Finds (tree_leads (table_tree tree.now)) found.old found.new) }
{
    match tree {
        RegionTree::Step { next, .. } => find_named(next, found),
        RegionTree::Test { yes, no, .. } => {
            find_named(yes, found)?;
            find_named(no, found)
        }
        RegionTree::Next { region } => found.find(*region),
        RegionTree::Stop | RegionTree::Trap { .. } => Ok(()),
    }
}

/// Finds the regions that the states of an automaton lead out to, state by state.
fn find_led_out(automaton: &Automaton, found: &mut Found) -> Result<(), AllocError>
    requires count { length automaton.now < 2 ^ 32 }
    requires there { AllByRecursion (λ state. LeavesKeep (LeadsBelow (length found.old.marks)) state.row) (states_in automaton.now) }
    ensures { OnOk result (Finds (states_lead (states_in automaton.now)) found.old found.new) }
{
    for number in 0..automaton.count() {
        find_in_row(&automaton.state(number).row, found)?;
    }
    Ok(())
}

/// Finds the regions that the leaves of a row lead out to, the yes side of a test first.
#[tactic(auto, using(crate::proofs::Finding::finding))]
fn find_in_row(row: &RowTree<AutomatonLeaf>, found: &mut Found) -> Result<(), AllocError>
    requires { LeavesKeep (LeadsBelow (length found.old.marks)) (row_in (λ leaf. leaf) row.now) }
    ensures { OnOk result (Finds (flat_map leaf_leads (leaves_of (row_in (λ leaf. leaf) row.now))) found.old found.new) }
{
    match row {
        RowTree::Step { next, .. } => find_in_row(next, found),
        RowTree::Test { yes, no, .. } => {
            find_in_row(yes, found)?;
            find_in_row(no, found)
        }
        RowTree::Leaf { leaf } => find_behind_leaf(leaf, found),
    }
}

/// Finds the region that a leaf leads out to.
#[tactic(auto, using(crate::proofs::Finding::finding))]
fn find_behind_leaf(leaf: &AutomatonLeaf, found: &mut Found) -> Result<(), AllocError>
    requires { LeadsBelow (length found.old.marks) leaf.now }
    ensures { OnOk result (Finds (leaf_leads leaf.now) found.old found.new) }
{
    match leaf {
        AutomatonLeaf::Out { region, .. } => found.find(*region),
        AutomatonLeaf::To { .. } | AutomatonLeaf::Stop | AutomatonLeaf::Trap { .. } => Ok(()),
    }
}
