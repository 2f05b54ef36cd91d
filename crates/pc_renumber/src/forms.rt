//! Forms with new variables.
ghost use Rattle.std.specs.Prelude.{◌≡◌, map, slice_index, IfOk};
ghost use Rattle.std.specs.List.{AllByRecursion};
ghost use Rattle.pc_linear.specs.Form.{Form, in_variables};
ghost use Rattle.pc_window.specs.Opening.{FormBelow, FormsBelow};
ghost use Rattle.pc_window.specs.StoredWindow.{forms_in, supply_in};
ghost use Rattle.pc_renumber.specs.Renumbering.{renumbered_supply};
ghost use Rattle.pc_renumber.specs.models.Numbering.{AreNew, Rise};

use crate::variables::new_variables;
use pc_linear::LinForm;
use pc_window::{FormList, NameTable};
use pc_word::Operand;
use std::alloc::{AllocError, Global};

/// The table in which these names are the first ones, with their forms in new variables.
#[tactic(auto, using(crate::proofs::NewForms::listed_below))]
pub(crate) fn renumbered_table(
    alloc: Global,
    table: &NameTable,
    names: &[u32],
) -> Result<NameTable, AllocError>
    requires { FormsBelow (supply_in table.now) }
    ensures { IfOk result (λ later. supply_in later ≡ renumbered_supply (map (forms_in table.now.forms) names.now) table.now.next_variable) }
{
    let forms = forms_of(alloc, table, names)?;
    let numbers = new_variables(alloc, &forms, table.next_variable)?;
    Ok(table_from(forms, &numbers, table.next_variable))
}

/// The table of names with these forms in new variables.
fn table_from(forms: Vec<LinForm>, numbers: &[u32], variables: u32) -> NameTable
    requires new { AreNew numbers.now forms.items variables }
    requires below { AllByRecursion (FormBelow variables) forms.items }
    ensures { supply_in result ≡ renumbered_supply forms.items variables }
{
    let forms = renumbered_forms(forms, numbers);
    NameTable {
        forms: FormList::from_vec(forms),
        next_variable: numbers[variables as usize],
    }
}

/// The forms of names.
fn forms_of(alloc: Global, table: &NameTable, names: &[u32]) -> Result<Vec<LinForm>, AllocError>
    ensures { IfOk result (λ forms. forms.items ≡ map (forms_in table.now.forms) names.now) }
{
    let mut forms = Vec::with_capacity(alloc, names.len())?;
    for at in 0..names.len() {
        forms.push(table.form(Operand::Name(names[at])))?;
    }
    Ok(forms)
}

/// Forms with the new variables.
fn renumbered_forms(forms: Vec<LinForm>, numbers: &[u32]) -> Vec<LinForm>
    requires { AllByRecursion (λ (form : Form). Rise numbers.now form.terms) forms.items }
    ensures { result.items ≡ map (in_variables (slice_index numbers.now)) forms.items }
{
    let mut forms = forms;
    for at in 0..forms.len() {
        forms[at] = forms[at].in_variables(numbers);
    }
    forms
}
