//! The bases that first turns of parameters make.
ghost use Rattle.std.specs.Prelude.{◌≡◌, ◌<◌, true, length, IfOk, OnOk};
ghost use Rattle.std.specs.List.{AllByRecursion};
ghost use Rattle.pc_linear.specs.Form.{IsForm};
ghost use Rattle.pc_window.specs.Opening.{FormsBelow};
ghost use Rattle.pc_window.specs.Rebasing.{first_turns, is_in, with_form};
ghost use Rattle.pc_window.specs.StoredWindow.{forms_in, supply_in};
ghost use Rattle.pc_rebase.specs.models.Finding.{nothing_found, base_found, found_after, found_all, all_written};
ghost use Rattle.pc_rebase.specs.models.Standing.{stands_in};
ghost use Rattle.pc_rebase.specs.models.Turning.{turned, unturned};

use crate::bases::MOST_VARIABLES;
use crate::standing::{Standing, StandingList, each_itself, written_by};
use crate::terms::{form_of, old_variable};
use crate::turns::Turning;
use pc_linear::LinForm;
use pc_window::{FormList, NameTable, NumberList, WindowError};
use pc_word::{OpCode, apply};
use std::alloc::{AllocError, Global};

/// What first turns found so far: what each form variable stands for that was there before them, the
/// number from which on form variables are new, the variables that are bases, in the order in which
/// they came, and the parameters that are left for the second turn.
#[derive(Debug, Drop)]
pub(crate) struct Found {
    stands: StandingList,
    next_variable: u32,
    bases: NumberList,
    left: NumberList,
}

/// Names after the first turns of these parameters, in order: each becomes a base, or is left for the
/// second turn. The forms of all names are written anew at once, when all bases were found.
pub(crate) fn first_turns(
    alloc: Global,
    names: NameTable,
    all: &[u32],
    parameters: &[u32],
) -> Result<(Turning, NumberList), WindowError>
    requires all { AllByRecursion (λ name. name < length names.forms) all.now }
    requires parameters { AllByRecursion (λ name. name < length names.forms) parameters.now }
    requires among { AllByRecursion (λ name. is_in name all.now ≡ true) parameters.now }
    requires below { FormsBelow (supply_in names) }
    ensures { IfOk result (λ it. turned it.0 it.1 ≡ first_turns all.now parameters.now (unturned (supply_in names))) }
{
    let mut names = names;
    let old = FormList::from_slice(alloc, names.forms.as_slice())?;
    let mut found = nothing_found(alloc, names.next_variable)?;
    find_all(&mut found, old.as_slice(), parameters)?;
    let Found {
        stands,
        next_variable,
        bases,
        left,
    } = found;
    write_all(&mut names, old.as_slice(), all, stands.as_slice());
    names.next_variable = next_variable;
    Ok((Turning { names, bases }, left))
}

/// Nothing is found yet, and each variable below a number stands for itself.
fn nothing_found(alloc: Global, next_variable: u32) -> Result<Found, AllocError>
    ensures { IfOk result (λ found. found ≡ nothing_found next_variable) }
{
    let stands = each_itself(alloc, next_variable)?;
    Ok(Found {
        stands,
        next_variable,
        bases: NumberList::new(alloc),
        left: NumberList::new(alloc),
    })
}

/// The first turns of parameters, in order.
#[tactic(auto, using(crate::proofs::FoundInOrder::loops))]
fn find_all(found: &mut Found, old: &[LinForm], parameters: &[u32]) -> Result<(), WindowError>
    requires parameters { AllByRecursion (λ name. name < length old.now) parameters.now }
    ensures { OnOk result (found.new ≡ found_all (forms_in old.now) parameters.now found.old) }
{
    for at in 0..parameters.len() {
        let form = form_of(old, parameters[at]);
        let form = written_by(&form, found.stands.as_slice());
        find(found, parameters[at], &form)?;
    }
    Ok(())
}

/// The first turn of a parameter, by its form: it becomes a base where that is a variable with a
/// constant that was there before the first turns, and else it is left.
fn find(found: &mut Found, parameter: u32, form: &LinForm) -> Result<(), WindowError>
    ensures { OnOk result (found.new ≡ found_after parameter form.now found.old) }
{
    match old_variable(form, found.stands.len()) {
        None => {
            found.left.push(parameter)?;
            Ok(())
        }
        Some(variable) => add_base(found, variable, form.offset()),
    }
}

/// One more base: a variable stands for it, less a constant. There is no room for it where its number
/// would be 2^30.
fn add_base(found: &mut Found, variable: u32, offset: i32) -> Result<(), WindowError>
    requires { variable < length found.old.stands }
    ensures { OnOk result (found.new ≡ base_found variable offset found.old) }
{
    let base = found.next_variable;
    if base >= MOST_VARIABLES {
        return Err(WindowError::Memory);
    }
    let standing = Standing {
        variable: base,
        offset: apply(OpCode::Sub, 0, offset),
    };
    found.stands.set(variable as usize, standing);
    found.bases.push(base)?;
    found.next_variable += 1;
    Ok(())
}

/// Writes the forms of these names, from the forms that they had, with what variables stand for in the
/// variables' places.
#[tactic(auto, using(crate::proofs::FoundInOrder::loops))]
fn write_all(names: &mut NameTable, old: &[LinForm], all: &[u32], stands: &[Standing])
    requires all { AllByRecursion (λ name. name < length names.old.forms) all.now }
    requires as_many { length old.now ≡ length names.old.forms }
    ensures written { supply_in names.new ≡ all_written (stands_in stands.now) (forms_in old.now) all.now (supply_in names.old) }
    ensures kept { AllByRecursion (λ name. IsForm (forms_in old.now name)) all.now }
{
    for at in 0..all.len() {
        let form = form_of(old, all[at]);
        write(names, all[at], written_by(&form, stands));
    }
}

/// Gives a name a form.
#[tactic(auto, using(crate::proofs::FormTable::writing))]
fn write(names: &mut NameTable, name: u32, form: LinForm)
    requires { name < length names.old.forms }
    ensures { supply_in names.new ≡ with_form (supply_in names.old) name form }
{
    names.forms.set(name as usize, form);
}
