//! New form variables, and names whose forms are given anew.
ghost use Rattle.std.specs.Prelude.{◌≡◌, ◌<◌, ℕ, length, negsuc, IfOk, OnOk};
ghost use Rattle.std.specs.List.{AllByRecursion};
ghost use Rattle.pc_linear.specs.Combine.{plus, variable_form};
ghost use Rattle.pc_window.specs.Opening.{FormBelow, FormsBelow};
ghost use Rattle.pc_window.specs.Rebasing.{with_variable, one_variable_more, rewrite_all, make_base};
ghost use Rattle.pc_window.specs.StoredWindow.{forms_in, supply_in};
ghost use Rattle.pc_rebase.specs.models.Rewriting.{settled_as};

use crate::rewriting::rewritten;
use crate::terms::form_of;
use pc_linear::LinForm;
use pc_window::{FormList, NameTable, WindowError};
use std::alloc::Global;

/// From this number on there are no form variables.
pub(crate) const MOST_VARIABLES: u32 = 1 << 30;

/// Makes a parameter's form a new variable alone: in its form another variable stands with factor 1,
/// which every form is then written without.
#[tactic(auto, using(crate::proofs::MadeBases::bases))]
pub(crate) fn make_base(
    alloc: Global,
    names: &mut NameTable,
    all: &[u32],
    parameter: u32,
    variable: u32,
) -> Result<u32, WindowError>
    requires all { AllByRecursion (λ name. name < length names.old.forms) all.now }
    requires parameter { parameter < length names.old.forms }
    requires below { FormsBelow (supply_in names.old) }
    ensures names { OnOk result (supply_in names.new ≡ make_base all.now parameter variable (supply_in names.old)) }
    ensures base { IfOk result (λ base. base ≡ names.old.next_variable) }
{
    let base = new_variable(names)?;
    let old = FormList::from_slice(alloc, names.forms.as_slice())?;
    let replaced = form_of(old.as_slice(), parameter);
    rewrite_all(names, old.as_slice(), all, variable, base, &replaced)?;
    Ok(base)
}

/// Rewrites the forms of these names, from the forms that they had.
#[tactic(auto, using(crate::proofs::MadeBases::rewriting))]
fn rewrite_all(
    names: &mut NameTable,
    old: &[LinForm],
    all: &[u32],
    variable: u32,
    base: u32,
    parameter: &LinForm,
) -> Result<(), WindowError>
    requires all { AllByRecursion (λ name. name < length names.old.forms) all.now }
    requires as_many { length old.now ≡ length names.old.forms }
    requires below { (name : ℕ) → FormBelow base (forms_in old.now name) }
    requires parameter { FormBelow base parameter.now }
    ensures { OnOk result (supply_in names.new ≡ rewrite_all variable (plus (variable_form base) (negsuc 0) parameter.now) (forms_in old.now) all.now (supply_in names.old)) }
{
    for at in 0..all.len() {
        let form = form_of(old, all[at]);
        settle(names, all[at], rewritten(&form, variable, base, parameter))?;
    }
    Ok(())
}

/// Gives a name a form, or a new variable where there is none.
#[tactic(auto, using(crate::proofs::FormTable::writing))]
fn settle(names: &mut NameTable, name: u32, form: Option<LinForm>) -> Result<(), WindowError>
    requires { name < length names.old.forms }
    ensures { OnOk result (supply_in names.new ≡ settled_as (supply_in names.old) name form) }
{
    match form {
        None => set_variable(names, name),
        Some(form) => {
            names.forms.set(name as usize, form);
            Ok(())
        }
    }
}

/// Gives a name a new variable as its form.
#[tactic(auto, using(crate::proofs::FormTable::writing))]
pub(crate) fn set_variable(names: &mut NameTable, name: u32) -> Result<(), WindowError>
    requires { name < length names.old.forms }
    ensures { OnOk result (supply_in names.new ≡ with_variable (supply_in names.old) name) }
{
    let variable = new_variable(names)?;
    names.forms.set(name as usize, LinForm::variable(variable));
    Ok(())
}

/// One more form variable. There is no room for it where its number would be 2^30.
fn new_variable(names: &mut NameTable) -> Result<u32, WindowError>
    ensures variable { IfOk result (λ variable. variable ≡ names.old.next_variable) }
    ensures names { OnOk result (supply_in names.new ≡ one_variable_more (supply_in names.old)) }
    ensures forms { names.new.forms ≡ names.old.forms }
{
    let variable = names.next_variable;
    if variable >= MOST_VARIABLES {
        return Err(WindowError::Memory);
    }
    names.next_variable += 1;
    Ok(variable)
}
