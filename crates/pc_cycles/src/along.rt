//! What stands on a way.
ghost use Rattle.std.specs.Prelude.{◌≡◌, ◌<◌, ◌++◌, length, slice_get, IfOk, OnOk};
ghost use Rattle.pc_automaton.specs.Automaton.{states_in};
ghost use Rattle.pc_told.specs.Tellings.{tellings_in};
ghost use Rattle.pc_cycles.specs.Transitions.{items_along, tests_along, taken_along, origins_along, origins_from};
ghost use Rattle.pc_cycles.specs.models.Circles.{AreThere, HaveFewLeaves};

use crate::rows::{push_items, push_origins, push_taken, push_tests};
use crate::transition::Transition;
use pc_automaton::OperandList;
use pc_told::Told;
use pc_word::{Item, Seq};
use std::alloc::{AllocError, Global};

/// The items on a way.
pub(crate) fn items_along(
    alloc: Global,
    told: &Told,
    way: &[Transition],
) -> Result<Seq<Item>, AllocError>
    requires there { AreThere (states_in told.now.automaton) way.now }
    requires few { HaveFewLeaves (states_in told.now.automaton) }
    ensures { IfOk result (λ items. items ≡ items_along (states_in told.now.automaton) way.now) }
{
    let mut items = Seq::new(alloc);
    for transition in way {
        let state = told.automaton.state(transition.state);
        push_items(&state.row, transition.leaf, &mut items)?;
    }
    Ok(items)
}

/// The operands of the tests on it.
pub(crate) fn tests_along(
    alloc: Global,
    told: &Told,
    way: &[Transition],
) -> Result<OperandList, AllocError>
    requires there { AreThere (states_in told.now.automaton) way.now }
    requires few { HaveFewLeaves (states_in told.now.automaton) }
    ensures { IfOk result (λ tests. tests ≡ tests_along (states_in told.now.automaton) way.now) }
{
    let mut tests = OperandList::new(alloc);
    for transition in way {
        let state = told.automaton.state(transition.state);
        push_tests(&state.row, transition.leaf, &mut tests)?;
    }
    Ok(tests)
}

/// The operands of those that are taken.
pub(crate) fn taken_along(
    alloc: Global,
    told: &Told,
    way: &[Transition],
) -> Result<OperandList, AllocError>
    requires there { AreThere (states_in told.now.automaton) way.now }
    requires few { HaveFewLeaves (states_in told.now.automaton) }
    ensures { IfOk result (λ taken. taken ≡ taken_along (states_in told.now.automaton) way.now) }
{
    let mut taken = OperandList::new(alloc);
    for transition in way {
        let state = told.automaton.state(transition.state);
        push_taken(&state.row, transition.leaf, &mut taken)?;
    }
    Ok(taken)
}

/// The origins that are told of the tests, and of the items too, if they are asked for.
pub(crate) fn origins_along(
    alloc: Global,
    told: &Told,
    way: &[Transition],
    of_items: bool,
) -> Result<Seq<u32>, AllocError>
    requires there { AreThere (states_in told.now.automaton) way.now }
    requires few { HaveFewLeaves (states_in told.now.automaton) }
    ensures { IfOk result (λ origins. origins ≡ origins_along of_items (states_in told.now.automaton) (tellings_in told.now.rows) way.now) }
{
    let mut origins = Seq::new(alloc);
    for transition in way {
        push_told(told, *transition, of_items, &mut origins)?;
    }
    Ok(origins)
}

/// Appends the origins that are told of what stands on the path of one transition.
fn push_told(
    told: &Told,
    transition: Transition,
    of_items: bool,
    origins: &mut Seq<u32>,
) -> Result<(), AllocError>
    requires there { transition.state < length (states_in told.now.automaton) }
    requires few { HaveFewLeaves (states_in told.now.automaton) }
    ensures { OnOk result (origins.new ≡ origins.old
        ++ origins_from of_items (slice_get (states_in told.now.automaton) transition.state) (slice_get (tellings_in told.now.rows) transition.state) transition.leaf) }
{
    match told.rows.get(transition.state as usize) {
        Some(row) => {
            let state = told.automaton.state(transition.state);
            push_origins(&state.row, row, transition.leaf, of_items, origins)
        }
        None => Ok(()),
    }
}
