//! Names of a state's row in place of those of a window.
ghost use Rattle.std.specs.Prelude.{◌≡◌, IfOk};
ghost use Rattle.pc_pattern.specs.models.Renaming.{pairs_in, renamed_name, renamed_operand, renamed_home, renamed_homes, arguments_for};

use pc_automaton::OperandList;
use pc_window::{Home, HomeList};
use pc_word::Operand;
use std::alloc::{AllocError, Global};

/// The names of a window's row that were written on the way to a place, and those of the state's row
/// in their place. Each other name stays as it is.
#[derive(Drop)]
pub(crate) enum Renaming<'a> {
    /// No name was written.
    Themselves,
    /// One more name, which is written above.
    Written {
        one: u32,
        other: u32,
        above: &'a Renaming<'a>,
    },
}

/// The name of the state's row for a name.
fn renamed_name(names: &Renaming, name: u32) -> u32
    ensures { result ≡ renamed_name (pairs_in names.now) name }
{
    match names {
        Renaming::Themselves => name,
        Renaming::Written { one, other, above } => {
            if *one == name {
                *other
            } else {
                renamed_name(above, name)
            }
        }
    }
}

/// An operand of the state's row for an operand.
fn renamed_operand(names: &Renaming, operand: Operand) -> Operand
    ensures { result ≡ renamed_operand (pairs_in names.now) operand }
{
    match operand {
        Operand::Name(name) => Operand::Name(renamed_name(names, name)),
        Operand::Lit(value) => Operand::Lit(value),
    }
}

/// A home with an operand of the state's row.
fn renamed_home(names: &Renaming, home: Home) -> Home
    ensures { result ≡ renamed_home (pairs_in names.now) home }
{
    Home {
        variable: home.variable,
        value: renamed_operand(names, home.value),
    }
}

/// Homes with operands of the state's row.
pub(crate) fn renamed_homes(
    alloc: Global,
    names: &Renaming,
    homes: &[Home],
) -> Result<HomeList, AllocError>
    ensures { IfOk result (λ later. later ≡ renamed_homes (pairs_in names.now) homes.now) }
{
    let mut renamed = HomeList::new(alloc);
    for home in homes {
        renamed.push(renamed_home(names, *home))?;
    }
    Ok(renamed)
}

/// The arguments for parameters: the names of the state's row for their names.
pub(crate) fn arguments_for(
    alloc: Global,
    names: &Renaming,
    parameters: &[u32],
) -> Result<OperandList, AllocError>
    ensures { IfOk result (λ arguments. arguments ≡ arguments_for (pairs_in names.now) parameters.now) }
{
    let mut arguments = OperandList::new(alloc);
    for name in parameters {
        arguments.push(Operand::Name(renamed_name(names, *name)))?;
    }
    Ok(arguments)
}
