//! The second turns of parameters.
ghost use Rattle.std.specs.Prelude.{◌≡◌, ◌<◌, ◌++◌, ◌∷◌, [], ℕ, List, length, OnOk};
ghost use Rattle.std.specs.List.{AllByRecursion};
ghost use Rattle.pc_window.specs.Opening.{FormsBelow};
ghost use Rattle.pc_window.specs.Rebasing.{second_turns, make_base};
ghost use Rattle.pc_window.specs.StoredWindow.{supply_in};
ghost use Rattle.pc_rebase.specs.models.Turning.{turned, second_turned};

use crate::bases::{make_base, set_variable};
use crate::terms::{FewTerms, form_of, free_terms, new_base};
use pc_window::{NameTable, NumberList, WindowError};
use std::alloc::Global;

/// Names whose forms are being rebased, and the variables that are bases, in the order in which they
/// came.
#[derive(Debug, Drop)]
pub(crate) struct Turning {
    pub(crate) names: NameTable,
    pub(crate) bases: NumberList,
}

/// The second turns of parameters, in order: each whose form has a variable that is no base becomes a
/// base, or gets a new variable in place of its form.
pub(crate) fn second_turns(
    alloc: Global,
    turning: &mut Turning,
    all: &[u32],
    parameters: &[u32],
) -> Result<(), WindowError>
    requires all { AllByRecursion (λ name. name < length turning.old.names.forms) all.now }
    requires parameters { AllByRecursion (λ name. name < length turning.old.names.forms) parameters.now }
    requires below { FormsBelow (supply_in turning.old.names) }
    ensures { OnOk result ((left : List ℕ) → turned turning.new left ≡ second_turns all.now parameters.now (turned turning.old left)) }
{
    for at in 0..parameters.len() {
        second_turn(alloc, turning, all, parameters[at])?;
    }
    Ok(())
}

/// The second turn of a parameter.
#[tactic(auto, using(crate::proofs::ParameterTurns::second))]
fn second_turn(
    alloc: Global,
    turning: &mut Turning,
    all: &[u32],
    parameter: u32,
) -> Result<(), WindowError>
    requires all { AllByRecursion (λ name. name < length turning.old.names.forms) all.now }
    requires parameter { parameter < length turning.old.names.forms }
    requires below { FormsBelow (supply_in turning.old.names) }
    ensures { OnOk result ((left : List ℕ) → turned turning.new left ≡ second_turned all.now parameter (turned turning.old left)) }
{
    let form = form_of(turning.names.forms.as_slice(), parameter);
    match free_terms(&form, turning.bases.as_slice(), 0) {
        FewTerms::Nothing => {}
        FewTerms::One { term } => match new_base(turning.bases.as_slice(), term) {
            None => set_variable(&mut turning.names, parameter)?,
            Some(variable) => become_base(alloc, turning, all, parameter, variable)?,
        },
        FewTerms::Several => set_variable(&mut turning.names, parameter)?,
    }
    Ok(())
}

/// Makes a parameter a base in place of a variable of its form.
fn become_base(
    alloc: Global,
    turning: &mut Turning,
    all: &[u32],
    parameter: u32,
    variable: u32,
) -> Result<(), WindowError>
    requires all { AllByRecursion (λ name. name < length turning.old.names.forms) all.now }
    requires parameter { parameter < length turning.old.names.forms }
    requires below { FormsBelow (supply_in turning.old.names) }
    ensures names { OnOk result (supply_in turning.new.names ≡ make_base all.now parameter variable (supply_in turning.old.names)) }
    ensures bases { OnOk result (turning.new.bases ≡ turning.old.bases ++ turning.old.names.next_variable ∷ []) }
{
    let base = make_base(alloc, &mut turning.names, all, parameter, variable)?;
    turning.bases.push(base)?;
    Ok(())
}
