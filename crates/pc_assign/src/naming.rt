//! The names of a state, with their places.
ghost use Rattle.std.specs.Prelude.{◌≡◌, nat_eq, [], IfOk, OnOk};
ghost use Rattle.std.specs.List.{IsDistinct};
ghost use Rattle.indexmap.specs.IndexSet.{insert_all};
ghost use Rattle.pc_automaton.specs.Automaton.{names_written, state_in};
ghost use Rattle.pc_assign.specs.Assigned.{state_names};
ghost use Rattle.pc_word.specs.StoredRow.{row_in};

use indexmap::IndexSet;
use pc_automaton::{AutomatonLeaf, AutomatonState};
use pc_word::RowTree;
use std::alloc::{AllocError, Global};

/// The names of a state: its parameters, and what its row defines, in preorder.
#[tactic(auto, using(crate::proofs::NamesAdded::names))]
pub(crate) fn names_of(alloc: Global, state: &AutomatonState) -> Result<IndexSet<u32>, AllocError>
    requires { IsDistinct nat_eq (state_names (state_in state.now)) }
    ensures { IfOk result (λ names. names.keys ≡ state_names (state_in state.now)) }
{
    let mut names = parameter_names(alloc, state.parameters.as_slice())?;
    add_written(&mut names, &state.row)?;
    Ok(names)
}

/// Parameters as a set.
fn parameter_names(alloc: Global, parameters: &[u32]) -> Result<IndexSet<u32>, AllocError>
    ensures { IfOk result (λ names. names.keys ≡ insert_all nat_eq [] parameters.now) }
{
    let mut names = IndexSet::new(alloc);
    for at in 0..parameters.len() {
        names.insert_full(parameters[at])?;
    }
    Ok(names)
}

/// Adds the names that a row defines.
#[tactic(auto, using(crate::proofs::NamesAdded::rows))]
fn add_written(names: &mut IndexSet<u32>, row: &RowTree<AutomatonLeaf>) -> Result<(), AllocError>
    ensures { OnOk result (names.new.keys ≡ insert_all nat_eq names.old.keys (names_written (row_in (λ leaf. leaf) row.now))) }
{
    match row {
        RowTree::Step { item, next } => match item.dest() {
            Some(name) => {
                names.insert_full(name)?;
                add_written(names, next)
            }
            None => add_written(names, next),
        },
        RowTree::Test { yes, no, .. } => {
            add_written(names, yes)?;
            add_written(names, no)
        }
        RowTree::Leaf { .. } => Ok(()),
    }
}
