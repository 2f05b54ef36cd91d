//! The parameters with which a state begins that hold scalars.
ghost use Rattle.std.specs.Prelude.{◌≡◌, ◌≤◌, ◌<◌, ◌^◌, length, slice_get, OnOk};
ghost use Rattle.std.specs.Option.{option_map};
ghost use Rattle.pc_word.specs.StoredRow.{row_in};
ghost use Rattle.pc_automaton.specs.Automaton.{states_in};
ghost use Rattle.pc_variables.specs.Holdings.{arguments_of, arguments_to, scalar_behind, with_own, with_passed, entered};

use crate::HoldingList;
use crate::holding::{Holding, if_scalar, push_name, scalar_of};
use pc_automaton::{Automaton, AutomatonLeaf};
use pc_word::{Operand, RowTree};
use std::alloc::AllocError;

/// What a leaf passes to a state, if it leads there.
fn arguments_of<'a>(leaf: &'a AutomatonLeaf, number: u32) -> Option<&'a [Operand]>
    ensures { option_map (λ arguments. arguments.now) result ≡ arguments_of number leaf.now }
{
    match leaf {
        AutomatonLeaf::To { state, arguments } if *state == number => Some(arguments.as_slice()),
        _ => None,
    }
}

/// What the first leaf of a row that leads to a state passes to it, if one does.
fn arguments_to<'a>(row: &'a RowTree<AutomatonLeaf>, number: u32) -> Option<&'a [Operand]>
    ensures { option_map (λ arguments. arguments.now) result ≡ arguments_to number (row_in (λ leaf. leaf) row.now) }
{
    match row {
        RowTree::Step { next, .. } => arguments_to(next, number),
        RowTree::Test { yes, no, .. } => match arguments_to(yes, number) {
            Some(arguments) => Some(arguments),
            None => arguments_to(no, number),
        },
        RowTree::Leaf { leaf } => arguments_of(leaf, number),
    }
}

/// The scalar that the argument at a place holds, where there is one, by the names of the state that passes it.
fn scalar_at(passing: &[Holding], arguments: &[Operand], place: usize) -> Option<u32>
    ensures { result ≡ scalar_behind passing.now (slice_get arguments.now place) }
{
    match arguments.get(place).copied() {
        Some(Operand::Name(name)) => scalar_of(passing, name),
        Some(Operand::Lit(_)) | None => None,
    }
}

/// Appends the parameters whose arguments hold scalars.
fn push_passed(
    holdings: &mut HoldingList,
    passing: &[Holding],
    parameters: &[u32],
    arguments: &[Operand],
) -> Result<(), AllocError>
    ensures { OnOk result (holdings.new ≡ with_passed passing.now parameters.now arguments.now holdings.old) }
{
    for (place, parameter) in parameters.iter().enumerate() {
        let scalar = scalar_at(passing, arguments, place);
        push_name(holdings, Some(*parameter), scalar)?;
    }
    Ok(())
}

/// Appends the parameters of the first state that are scalars. It begins as a window does, whose first names are the variables.
pub(crate) fn push_own(holdings: &mut HoldingList, parameters: &[u32]) -> Result<(), AllocError>
    ensures { OnOk result (holdings.new ≡ with_own parameters.now holdings.old) }
{
    for parameter in parameters {
        push_name(holdings, Some(*parameter), if_scalar(*parameter))?;
    }
    Ok(())
}

/// Appends the parameters of a state to which the first leaf that leads there passes names that hold scalars: the first of the states
/// before it, in their order, of which it is known what their names hold.
pub(crate) fn push_entering(
    holdings: &mut HoldingList,
    automaton: &Automaton,
    earlier: &[HoldingList],
    number: u32,
    parameters: &[u32],
) -> Result<(), AllocError>
    requires there { length earlier.now ≤ length automaton.now }
    requires few { length automaton.now < 2 ^ 32 }
    ensures { OnOk result (holdings.new ≡ entered earlier.now (states_in automaton.now) number parameters.now holdings.old) }
{
    for (from, passing) in earlier.iter().enumerate() {
        let state = automaton.state(from as u32);
        if let Some(arguments) = arguments_to(&state.row, number) {
            return push_passed(holdings, passing.as_slice(), parameters, arguments);
        }
    }
    Ok(())
}
