//! Rebasing.
ghost use Rattle.std.specs.Prelude.{◌≡◌, ◌<◌, ◌≤◌, ◌^◌, [], length, true, IfOk};
ghost use Rattle.std.specs.List.{AllByRecursion};
ghost use Rattle.pc_table.specs.Table.{Table};
ghost use Rattle.pc_window.specs.Kept.{WindowKeeps};
ghost use Rattle.pc_window.specs.Opening.{FormsBelow};
ghost use Rattle.pc_window.specs.Rebasing.{is_in, after_first, first_turns};
ghost use Rattle.pc_window.specs.Steps.{Rebases, IsProper};
ghost use Rattle.pc_window.specs.StoredWindow.{supply_in, window_in, InNodes};
ghost use Rattle.pc_rebase.specs.models.Turning.{unturned};

use crate::bases::MOST_VARIABLES;
use crate::finding::first_turns;
use crate::turns::{Turning, second_turns};
use pc_window::{NameTable, Window, WindowError, all_names, parameters_of};
use std::alloc::Global;

/// Writes the forms of a window anew: its parameters, in the order of first use, become the variables
/// in which all forms are written, as far as that goes.
///
/// A parameter whose form is a variable with a constant becomes a base in its place. In a second turn
/// so does each other one whose form has but one variable that is no base, with factor 1, and the
/// others get new variables. A form that comes to have more than four terms is replaced by a new
/// variable. The tree stays as it is. There is no memory for a form variable whose number would be
/// 2^30. The window is dropped where memory runs out.
#[tactic(auto, using(crate::proofs::RebasedWindows::windows))]
pub fn rebase(alloc: Global, window: Window) -> Result<Window, WindowError>
    requires proper { IsProper (window_in window) }
    requires nodes { InNodes true window.tree }
    ensures rebases { IfOk result (λ later. Rebases (window_in window) (window_in later)) }
    ensures nodes { IfOk result (λ later. InNodes true later.tree) }
    ensures names { IfOk result (λ later. length later.names.forms ≡ length window.names.forms) }
    ensures variables { IfOk result (λ later. later.names.next_variable ≤ 2 ^ 30) }
    ensures proper { IfOk result (λ later. IsProper (window_in later)) }
    ensures keeps { IfOk result (λ later. (table : Table) → WindowKeeps table (window_in window) (window_in later)) }
{
    let Window {
        tree,
        names,
        limits,
        inside,
    } = window;
    let count = names.forms.len();
    let parameters = parameters_of(alloc, &tree, count)?;
    let all = all_names(alloc, &tree, parameters.as_slice(), count)?;
    let names = rebased(alloc, names, parameters.as_slice(), all.as_slice())?;
    Ok(Window {
        tree,
        names,
        limits,
        inside,
    })
}

/// Names with their forms rebased, by these parameters, where there is room for the form variables.
fn rebased(
    alloc: Global,
    names: NameTable,
    parameters: &[u32],
    all: &[u32],
) -> Result<NameTable, WindowError>
    requires all { AllByRecursion (λ name. name < length names.forms) all.now }
    requires parameters { AllByRecursion (λ name. name < length names.forms) parameters.now }
    requires among { AllByRecursion (λ name. is_in name all.now ≡ true) parameters.now }
    requires below { FormsBelow (supply_in names) }
    ensures names { IfOk result (λ later. supply_in later ≡ after_first all.now (first_turns all.now parameters.now (unturned (supply_in names)))) }
    ensures variables { IfOk result (λ later. later.next_variable ≤ 2 ^ 30) }
{
    let names = turned(alloc, names, parameters, all)?;
    if names.next_variable > MOST_VARIABLES {
        return Err(WindowError::Memory);
    }
    Ok(names)
}

/// Names once these parameters had their turns.
#[tactic(auto, using(crate::proofs::ParameterTurns::turns))]
fn turned(
    alloc: Global,
    names: NameTable,
    parameters: &[u32],
    all: &[u32],
) -> Result<NameTable, WindowError>
    requires all { AllByRecursion (λ name. name < length names.forms) all.now }
    requires parameters { AllByRecursion (λ name. name < length names.forms) parameters.now }
    requires among { AllByRecursion (λ name. is_in name all.now ≡ true) parameters.now }
    requires below { FormsBelow (supply_in names) }
    ensures { IfOk result (λ later. supply_in later ≡ after_first all.now (first_turns all.now parameters.now (unturned (supply_in names)))) }
{
    let (mut turning, left) = first_turns(alloc, names, all, parameters)?;
    second_turns(alloc, &mut turning, all, left.as_slice())?;
    let Turning { names, .. } = turning;
    Ok(names)
}
