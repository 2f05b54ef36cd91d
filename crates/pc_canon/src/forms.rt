//! The forms of names in numbers.
ghost use Rattle.std.specs.Prelude.{◌≡◌, ◌+◌, ◌<◌, ◌^◌, ◌∷◌, ◌++◌, [], ℕ, pos, length, map, replicate, OnOk, IfOk};
ghost use Rattle.pc_window.specs.Opening.{FormBelow, FormsBelow};
ghost use Rattle.pc_window.specs.StoredWindow.{forms_in, supply_in};
ghost use Rattle.pc_canon.specs.Canonical.{constant_in, columns_of};
ghost use Rattle.pc_canon.specs.Key.{constant_numbers, list_numbers, column_numbers};
ghost use Rattle.pc_canon.specs.models.Gathered.{with_factors, and_forms};
ghost use Rattle.pc_canon.specs.models.Written.{forms_numbers};

use crate::columns::{Column, add_form, in_order, write_columns};
use crate::number_bytes::NumberBytes;
use pc_linear::LinForm;
use pc_window::NameTable;
use std::alloc::{AllocError, Global};

/// Writes what shows of the forms of the parameters and of the names that are defined.
pub(crate) fn write_forms(
    alloc: Global,
    table: &NameTable,
    parameters: &[u32],
    defined: &[u32],
    numbers: &mut NumberBytes,
) -> Result<(), AllocError>
    requires variables { FormsBelow (supply_in table.now) }
    requires few { length parameters.now + length defined.now < 2 ^ 32 }
    ensures { OnOk result (numbers.new ≡ numbers.old ++ forms_numbers (map (forms_in table.now.forms) parameters.now) (map (forms_in table.now.forms) defined.now)) }
{
    let mut columns = no_columns(alloc, table.next_variable)?;
    write_constants(table, parameters, defined, columns.as_mut_slice(), numbers)?;
    let sorted = in_order(columns)?;
    write_columns(sorted.as_slice(), numbers)?;
    Ok(())
}

/// Writes what shows of each form by itself, and gathers their columns.
fn write_constants(
    table: &NameTable,
    parameters: &[u32],
    defined: &[u32],
    columns: &mut [Column],
    numbers: &mut NumberBytes,
) -> Result<(), AllocError>
    requires below { (name : ℕ) → FormBelow (length columns.old) (forms_in table.now.forms name) }
    requires few { length parameters.now + length defined.now < 2 ^ 32 }
    ensures columns { OnOk result (columns.new ≡ and_forms 0 (map (forms_in table.now.forms) parameters.now ++ map (forms_in table.now.forms) defined.now) columns.old) }
    ensures numbers { OnOk result (numbers.new ≡ numbers.old
        ++ (list_numbers constant_numbers (map constant_in (map (forms_in table.now.forms) parameters.now))
        ++ list_numbers constant_numbers (map constant_in (map (forms_in table.now.forms) defined.now)))) }
{
    write_names(table, parameters, 0, columns, numbers)?;
    let place = parameters.len() as u32;
    write_names(table, defined, place, columns, numbers)?;
    Ok(())
}

/// So many empty columns.
#[tactic(auto, using(crate::proofs::Gathering::empty))]
fn no_columns(alloc: Global, count: u32) -> Result<Vec<Column>, AllocError>
    ensures { IfOk result (λ columns. columns.items ≡ replicate count []) }
{
    let mut columns = Vec::with_capacity(alloc, count as usize)?;
    for _variable in 0..count {
        columns.push(Column::new(alloc))?;
    }
    Ok(columns)
}

/// Writes what shows of the forms of names, and gathers their columns: the first form has this place.
fn write_names(
    table: &NameTable,
    names: &[u32],
    place: u32,
    columns: &mut [Column],
    numbers: &mut NumberBytes,
) -> Result<(), AllocError>
    requires below { (name : ℕ) → FormBelow (length columns.old) (forms_in table.now.forms name) }
    requires few { place + length names.now < 2 ^ 32 }
    ensures columns { OnOk result (columns.new ≡ and_forms place (map (forms_in table.now.forms) names.now) columns.old) }
    ensures numbers { OnOk result (numbers.new ≡ numbers.old ++ list_numbers constant_numbers (map constant_in (map (forms_in table.now.forms) names.now))) }
{
    let mut next = place;
    for at in 0..names.len() {
        add_form_of(table, names[at], next, columns, numbers)?;
        next += 1;
    }
    numbers.push(0)
}

/// Writes what shows of a name's form, read where it stands, and adds its terms to their columns; a name that has no form has the constant 0.
#[inline(always)]
fn add_form_of(
    table: &NameTable,
    name: u32,
    place: u32,
    columns: &mut [Column],
    numbers: &mut NumberBytes,
) -> Result<(), AllocError>
    requires { FormBelow (length columns.old) (forms_in table.now.forms name) }
    ensures columns { OnOk result (columns.new ≡ with_factors place (forms_in table.now.forms name).terms 0 columns.old) }
    ensures numbers { OnOk result (numbers.new ≡ numbers.old ++ pos 1 ∷ constant_numbers (constant_in (forms_in table.now.forms name))) }
{
    match table.forms.get(name as usize) {
        Some(form) => add_form(form, place, columns, numbers),
        None => add_form(&LinForm::constant(0), place, columns, numbers),
    }
}
